// What a line of text does to a call book.
ghost use Rattle.std.specs.Prelude.{◌≡◌};
ghost use Rattle.callbook.specs.Texts.{line_refusal, Run};
ghost use Rattle.callbook.specs.declared.text.LineFault.TheVariants.{Text, Book};

use crate::lines::apply;
use crate::{BookFault, CallBook};
use rules::Opening;
use script::{ScriptFault, read_statement};
use std::alloc::Global;

// Why a line cannot be used: it says nothing that is understood, or the book refuses what it says.
#[derive(Clone, Copy)]
pub enum LineFault {
    Text(ScriptFault),
    Book(BookFault),
}

impl LineFault {
    // The number of the refusal, if the fault is one of those that have a number.
    pub fn refusal(&self) -> Option<u8>
        ensures { result ≡ line_refusal self.now }
    {
        match self {
            LineFault::Text(_) => None,
            LineFault::Book(fault) => fault.refusal(),
        }
    }
}

// Written out, so that a clause can name the fault that a `?` makes.
impl From<ScriptFault> for LineFault {
    ghost from_gives = { λ e f. f ≡ Text e };

    fn from(fault: ScriptFault) -> LineFault {
        LineFault::Text(fault)
    }
}

impl From<BookFault> for LineFault {
    ghost from_gives = { λ e f. f ≡ Book e };

    fn from(fault: BookFault) -> LineFault {
        LineFault::Book(fault)
    }
}

// Reads a line and does what it says: the outcome of an auction, if it holds one; or why the line cannot be used, and then
// the book is as it was.
pub fn run_line(
    heap: Global,
    book: &mut CallBook,
    line: &[u8],
) -> Result<Option<Opening>, LineFault>
    ensures { Run book.old line.now result book.new }
{
    let statement = read_statement(heap, line)?;
    Ok(apply(book, statement)?)
}
