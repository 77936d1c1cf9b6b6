// From continuous trading to a call.
ghost use Rattle.lent.specs.Contents.{contents, DeskKept};
ghost use Rattle.trading.specs.declared.request.Request.TheVariants.{Call};
ghost use Rattle.book.specs.Anywhere.{MadeAnywhere};

use crate::ground::check_desk;
use lent::Desk;
use trading::{Answer, BookFault, Outcome, Phase, ReportLine};

// The book stops trading and gathers orders for an uncrossing.
pub fn call(desk: &mut Desk<'_>, report: &mut [ReportLine]) -> Result<Answer, BookFault>
    ensures made { MadeAnywhere (contents desk.old) Call report.old result (contents desk.new) report.new }
    ensures kept { DeskKept desk.old desk.new }
{
    check_desk(desk, report)?;
    let Phase::Continuous = desk.state.phase else {
        return Err(BookFault::WrongPhase);
    };
    desk.state.phase = Phase::Call;
    // no line is written, so that there is no `Report` to answer from
    Ok(Answer {
        outcome: Outcome::Accepted,
        lines: 0,
        phase: Phase::Call,
    })
}
