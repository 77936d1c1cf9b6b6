// A price is printed. It comes beside the desk: until then it is not the book's. The premises speak of desk and report at one moment.
ghost use Rattle.trading.specs.Desks.{book_of};
ghost use Rattle.lent.specs.Contents.{contents, page, Kept};
ghost use Rattle.uncrossing.specs.Fits.{OrdersFit};
ghost use Rattle.uncrossing.specs.Fronts.{InFront};
ghost use Rattle.uncrossing.specs.Prints.{PrintedAs};

use crate::pairing::{Met, pair_all};
use lent::{Desk, Report};

// The trades at the price, which becomes the static and the last price. The queues go on where the answer says.
pub(crate) fn print_price(price: u32, desk: &mut Desk<'_>, report: &mut Report<'_>) -> Met
    requires fit { OrdersFit (contents desk.old) (page report.old) }
    requires fronts { let b = book_of (contents desk.old) in InFront price b.buys b.sells }
    ensures printed { PrintedAs price (contents desk.old) (page report.old) (contents desk.new) (page report.new) result }
    ensures kept { Kept desk.old report.old desk.new report.new }
{
    let met = pair_all(price, desk, report);
    desk.state.static_price = price;
    desk.state.last = price;
    met
}
