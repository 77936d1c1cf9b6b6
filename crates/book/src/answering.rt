// What a call that is taken answers.
ghost use Rattle.std.specs.Prelude.{◌≡◌};

use lent::{Desk, Report};
use trading::{Answer, Outcome};

// The outcome, with the lines that are written and the phase in which the book is left.
pub fn answer(desk: &Desk<'_>, report: &Report<'_>, outcome: Outcome) -> Answer
    ensures { result ≡ record { outcome = outcome; lines = report.now.written; phase = desk.now.state.now.phase } }
{
    Answer {
        outcome,
        lines: report.written(),
        phase: desk.state.phase,
    }
}
