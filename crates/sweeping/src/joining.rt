// An order joins the queue of its side. Each arm names its table and its count: a function that lent both by the side would be no shorter.
ghost use Rattle.std.specs.Prelude.{◌<◌, [], length};
ghost use Rattle.lent.specs.Contents.{contents, DeskKept, Page};
ghost use Rattle.trading.specs.Sweeps.{moved, join};
ghost use Rattle.sweeping.specs.Beside.{Moves};

use lent::Desk;
use queue::join_table;
use rules::{Order, Side};

// An order joins the queue of its side; no line is written, whatever the report holds.
pub fn join_order(desk: &mut Desk<'_>, order: Order)
    requires buys { desk.old.state.now.buys < length desk.old.buys.now }
    requires sells { desk.old.state.now.sells < length desk.old.sells.now }
    ensures joined { (p : Page) → Moves (λ b. moved (join order b) []) (contents desk.old) p (contents desk.new) p }
    ensures kept { DeskKept desk.old desk.new }
{
    match order.side {
        Side::Buy => {
            join_table(desk.buys, desk.state.buys, order);
            desk.state.buys += 1;
        }
        Side::Sell => {
            join_table(desk.sells, desk.state.sells, order);
            desk.state.sells += 1;
        }
    }
}
