// Orders that are valid for the uncrossing only leave the queues after it.
ghost use Rattle.std.specs.Prelude.{◌≡◌, ◌+◌, ◌-◌, ◌≤◌, length};
ghost use Rattle.trading.specs.Uncrossings.{lapsing};
ghost use Rattle.lent.specs.Contents.{page, ReportKept};
ghost use Rattle.uncrossing.specs.Sifted.{SiftedTo};

use crate::lapsing::lapse_line;
use lent::Report;
use rules::{Order, Validity};

fn is_vfu(order: &Order) -> bool
    ensures { result ≡ lapsing order.now }
{
    matches!(order.validity, Validity::Vfu)
}

// The queue from `from` to `to`: its VFU orders lapse, and the others move to the front of the table. Answers how many last.
pub(crate) fn sift(orders: &mut [Order], from: usize, to: usize, report: &mut Report<'_>) -> usize
    requires start { from ≤ to }
    requires orders { to ≤ length orders.old }
    requires room { report.old.written + (to - from) ≤ length report.old.lines.now }
    ensures sifted { SiftedTo orders.old orders.new from to (page report.old) (page report.new) result }
    ensures kept { ReportKept report.old report.new }
{
    let mut count = 0;
    // by index, from a place on: what lasts is moved to the front of the table that the loop reads
    for i in from..to {
        let order = orders[i];
        if is_vfu(&order) {
            report.write(lapse_line(&order));
        } else {
            orders[count] = order;
            count += 1;
        }
    }
    count
}
