// The sweep of one queue. Order, collar and static price stay as they are while the queue and the last price move, so they come beside it.
ghost use Rattle.std.specs.Prelude.{◌+◌, ◌≤◌, length};
ghost use Rattle.queue.specs.Lent.{listed, Kept};
ghost use Rattle.lent.specs.Contents.{page, ReportKept};
ghost use Rattle.trading.specs.Sweeps.{sweep};
ghost use Rattle.sweeping.specs.Steps.{QueueSwept};

use super::choose::choose_next;
use super::trade::trade_at;
use collar::Collar;
use lent::Report;
use queue::Queue;
use rules::Order;
use trading::Ending;

// What a sweep leaves of an order, how it ended, and the last price after it.
#[derive(Clone, Copy)]
pub struct AfterSweep {
    pub rest: u32,
    pub ending: Ending,
    pub last: u32,
}

// The order sweeps the queue, from the last price `price` on.
pub fn sweep_queue<C: Collar>(
    collar: &C,
    static_price: u32,
    order: Order,
    price: u32,
    queue: &mut Queue<'_, Order>,
    report: &mut Report<'_>,
) -> AfterSweep
    requires { report.old.written + queue.old.count ≤ length report.old.lines.now }
    ensures swept { QueueSwept (sweep (C.allows collar.now static_price) order order.«open» price (listed queue.old)) queue.old (page report.old) queue.new (page report.new) result }
    ensures table { Kept queue.old queue.new }
    ensures lines { ReportKept report.old report.new }
{
    let mut rest = order.open;
    let mut last = price;
    'trades: loop {
        match choose_next(collar, static_price, order, rest, last, queue.as_slice()) {
            Err(ending) => return AfterSweep { rest, ending, last },
            Ok(i) => {
                let left = trade_at(order, rest, queue, i, report);
                rest = left.rest;
                last = left.last;
            }
        }
    }
}
