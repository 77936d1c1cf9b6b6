// One trade of a sweep.
ghost use Rattle.std.specs.Prelude.{◌<◌, length};
ghost use Rattle.lent.specs.Contents.{page};
ghost use Rattle.sweeping.specs.Steps.{TradedAt};
ghost use Rattle.queue.specs.Lent.{Kept};
ghost use Rattle.lent.specs.Contents.{ReportKept};

use super::meet::trade_line;
use lent::Report;
use queue::Queue;
use rules::Order;

// What one trade leaves of an order, and as the last price.
#[derive(Clone, Copy)]
pub struct AfterTrade {
    pub rest: u32,
    pub last: u32,
}

// The order, with `rest` left of it, trades with the one at `i` of the queue: the smaller quantity, at the limit of the resting
// one, which leaves at 0.
pub fn trade_at(
    order: Order,
    rest: u32,
    queue: &mut Queue<'_, Order>,
    i: usize,
    report: &mut Report<'_>,
) -> AfterTrade
    requires held { i < queue.old.count }
    requires some { 0 < rest }
    requires room { report.old.written < length report.old.lines.now }
    ensures traded { TradedAt order rest i queue.old (page report.old) queue.new (page report.new) result }
    ensures table { Kept queue.old queue.new }
    ensures lines { ReportKept report.old report.new }
{
    let resting = queue.as_slice()[i];
    report.write(trade_line(order, resting, rest.min(resting.open)));
    if resting.open <= rest {
        queue.leave(i);
        AfterTrade {
            rest: rest - resting.open,
            last: resting.limit,
        }
    } else {
        let smaller = Order {
            open: resting.open - rest,
            ..resting
        };
        queue.replace(i, smaller);
        AfterTrade {
            rest: 0,
            last: resting.limit,
        }
    }
}
