// What a line does to a call book.
ghost use Rattle.callbook.specs.Lines.{Applied};

use crate::collars::collar_of;
use crate::{BookFault, CallBook};
use grid::{DecadeGrid, EvenGrid};
use rules::Opening;
use script::Statement;
use ticks::{AnyGrid, TickTable};

// Does what a statement says: the outcome of an auction, if it holds one; or why the statement is refused, and then the book
// is as it was.
pub(crate) fn apply(book: &mut CallBook, statement: Statement) -> Result<Option<Opening>, BookFault>
    ensures { Applied book.old statement result book.new }
{
    match statement {
        Statement::Blank => {}
        Statement::GridEven { first, step, last } => {
            book.set_grid(AnyGrid::Even(EvenGrid::new(first, step, last)?))?;
        }
        Statement::GridTable { rows, end } => {
            book.set_grid(AnyGrid::Table(TickTable::new(&rows, end)?))?;
        }
        Statement::GridDecade => book.set_grid(AnyGrid::Decade(DecadeGrid))?,
        Statement::Collar(words) => book.set_collar(collar_of(words)?),
        Statement::Static(price) => book.set_static_price(price)?,
        Statement::Last(price) => book.set_last_price(price)?,
        Statement::Order {
            side,
            quantity,
            price,
        } => book.add_order(side, quantity, price)?,
        Statement::Open => return Ok(Some(book.open()?)),
    }
    Ok(None)
}
