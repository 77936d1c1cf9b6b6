// Cancelling an order or a stop.
ghost use Rattle.lent.specs.Contents.{contents, DeskKept};
ghost use Rattle.trading.specs.declared.request.Request.TheVariants.{Cancel};
ghost use Rattle.book.specs.Anywhere.{MadeAnywhere};

use crate::finding::find_record;
use crate::ground::check_desk;
use crate::leaving::take_out;
use checks::is_number;
use lent::Desk;
use trading::{Answer, BookFault, Outcome, Phase, ReportLine};

// The first record with the number leaves its queue; its quantity lapses.
pub fn cancel(
    desk: &mut Desk<'_>,
    report: &mut [ReportLine],
    number: u32,
) -> Result<Answer, BookFault>
    ensures made { MadeAnywhere (contents desk.old) (Cancel number) report.old result (contents desk.new) report.new }
    ensures kept { DeskKept desk.old desk.new }
{
    check_desk(desk, report)?;
    if let Phase::Ended = desk.state.phase {
        return Err(BookFault::WrongPhase);
    }
    if !is_number(number) {
        return Err(BookFault::NumberOutOfRange);
    }
    let Some(spot) = find_record(&desk.book(), number) else {
        return Err(BookFault::NumberNotLive);
    };
    let quantity = take_out(desk, spot);
    // one line, so that a `Report`, which counts lines, would say no more
    report[0] = ReportLine::Lapse { number, quantity };
    Ok(Answer {
        outcome: Outcome::Accepted,
        lines: 1,
        phase: desk.state.phase,
    })
}
