// The end of a book.
ghost use Rattle.lent.specs.Contents.{contents, DeskKept};
ghost use Rattle.trading.specs.declared.request.Request.TheVariants.{End};
ghost use Rattle.book.specs.Anywhere.{MadeAnywhere};

use crate::answering::answer;
use crate::ground::check_desk;
use crate::opening::close_without_price;
use lent::{Desk, Report};
use trading::{Answer, BookFault, Outcome, Phase, ReportLine};

// Everything lapses, and nothing is taken any more.
pub fn end(desk: &mut Desk<'_>, report: &mut [ReportLine]) -> Result<Answer, BookFault>
    ensures made { MadeAnywhere (contents desk.old) End report.old result (contents desk.new) report.new }
    ensures kept { DeskKept desk.old desk.new }
{
    check_desk(desk, report)?;
    if let Phase::Ended = desk.state.phase {
        return Err(BookFault::WrongPhase);
    }
    let mut lines = Report::new(report);
    close_without_price(desk, &mut lines);
    Ok(answer(desk, &lines, Outcome::Accepted))
}
