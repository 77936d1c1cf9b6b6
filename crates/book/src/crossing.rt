// The uncrossing of a call.
ghost use Rattle.lent.specs.Contents.{contents, DeskKept};
ghost use Rattle.trading.specs.declared.request.Request.TheVariants.{Uncross};
ghost use Rattle.sessions.specs.Made.{Made};

use crate::answering::answer;
use crate::ground::check_desk;
use crate::opening::carry_out_opening;
use collar::Collar;
use grid::PriceGrid;
use lent::{Desk, Report};
use pricing::opening_price;
use trading::{Answer, BookFault, Next, Outcome, Phase, ReportLine};

// Finds the price of the call, and carries out what it comes to.
pub fn uncross<G: PriceGrid, C: Collar>(
    grid: &G,
    collar: &C,
    desk: &mut Desk<'_>,
    report: &mut [ReportLine],
    next: Next,
) -> Result<Answer, BookFault>
    ensures made { Made (G.lawful grid.now) (C.allows collar.now) (contents desk.old) (Uncross next) report.old result (contents desk.new) report.new }
    ensures kept { DeskKept desk.old desk.new }
{
    check_desk(desk, report)?;
    let Phase::Call = desk.state.phase else {
        return Err(BookFault::WrongPhase);
    };
    let book = desk.book();
    let Ok(opening) = opening_price(
        grid,
        collar,
        book.static_price,
        book.last,
        book.buys,
        book.sells,
    ) else {
        // no book holds more orders than an auction takes
        return Err(BookFault::NotWellFormed);
    };
    let mut lines = Report::new(report);
    carry_out_opening(collar, desk, &mut lines, opening, next);
    Ok(answer(desk, &lines, Outcome::Uncrossed(opening)))
}
