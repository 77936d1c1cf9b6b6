// A record leaves its queue. Each arm names its table and its count: a function that lent both by the spot would be no shorter than an arm.
ghost use Rattle.lent.specs.Contents.{contents, DeskKept};
ghost use Rattle.book.specs.Out.{Fit, Within, OutOf};

use crate::finding::Spot;
use lent::Desk;
use queue::leave_table;

// Takes out the record at a spot, and answers its quantity.
pub fn take_out(desk: &mut Desk<'_>, spot: Spot) -> u32
    requires fit { Fit (contents desk.old) }
    requires within { Within (contents desk.old) spot }
    ensures out { OutOf (contents desk.old) spot result (contents desk.new) }
    ensures kept { DeskKept desk.old desk.new }
{
    match spot {
        Spot::Buys(i) => {
            let quantity = desk.buys[i].open;
            leave_table(desk.buys, desk.state.buys, i);
            desk.state.buys -= 1;
            quantity
        }
        Spot::Sells(i) => {
            let quantity = desk.sells[i].open;
            leave_table(desk.sells, desk.state.sells, i);
            desk.state.sells -= 1;
            quantity
        }
        Spot::Stops(i) => {
            let quantity = desk.stops[i].quantity;
            leave_table(desk.stops, desk.state.stops, i);
            desk.state.stops -= 1;
            quantity
        }
    }
}
