// The sweep of an order through a book. The collar is only read and the order comes by value: neither lies on the desk. `Roomy` is asked of
// desk and report at one moment. Each arm of a side names its table and its count.
ghost use Rattle.std.specs.Prelude.{◌<◌, length};
ghost use Rattle.rules.specs.Candidates.{Grid};
ghost use Rattle.lent.specs.Contents.{contents, page, Kept};
ghost use Rattle.trading.specs.Books.{is_day};
ghost use Rattle.trading.specs.Sweeps.{settled, sweeps};
ghost use Rattle.sweeping.specs.Beside.{venue, Roomy, Moves, SweptBy};

use super::joining::join_order;
use super::meet::is_day;
use super::tables::{AfterSweep, sweep_queue};
use collar::Collar;
use lent::{Desk, Report};
use queue::Queue;
use rules::{Order, Side};
use trading::{Ending, Phase, ReportLine};

// An order sweeps the opposite queue.
pub fn sweep_opposite<C: Collar>(
    collar: &C,
    desk: &mut Desk<'_>,
    report: &mut Report<'_>,
    order: Order,
) -> AfterSweep
    requires { Roomy (contents desk.old) (page report.old) }
    ensures swept { SweptBy (C.allows collar.now) order (contents desk.old) (page report.old) (contents desk.new) (page report.new) result }
    ensures kept { Kept desk.old report.old desk.new report.new }
{
    let static_price = desk.state.static_price;
    let last = desk.state.last;
    match order.side {
        Side::Buy => {
            let mut queue = Queue::new(desk.sells, desk.state.sells);
            let left = sweep_queue(collar, static_price, order, last, &mut queue, report);
            desk.state.sells = queue.len();
            desk.state.last = left.last;
            left
        }
        Side::Sell => {
            let mut queue = Queue::new(desk.buys, desk.state.buys);
            let left = sweep_queue(collar, static_price, order, last, &mut queue, report);
            desk.state.buys = queue.len();
            desk.state.last = left.last;
            left
        }
    }
}

// What is left of a day order joins, and where the collar refused the book goes to call; what is left of another order lapses.
pub fn settle_rest(desk: &mut Desk<'_>, report: &mut Report<'_>, order: Order, left: AfterSweep)
    requires buys { desk.old.state.now.buys < length desk.old.buys.now }
    requires sells { desk.old.state.now.sells < length desk.old.sells.now }
    requires line { report.old.written < length report.old.lines.now }
    ensures settled { Moves (λ b. settled (is_day order.validity) order b left.rest left.ending) (contents desk.old) (page report.old) (contents desk.new) (page report.new) }
    ensures kept { Kept desk.old report.old desk.new report.new }
{
    let resting = Order {
        open: left.rest,
        ..order
    };
    let lapse = ReportLine::Lapse {
        number: order.number,
        quantity: left.rest,
    };
    match (left.ending, is_day(order.validity)) {
        (Ending::Filled, _) => {}
        (Ending::Nobody, true) => join_order(desk, resting),
        (Ending::Collared, true) => {
            join_order(desk, resting);
            desk.state.phase = Phase::Call;
        }
        (_, false) => report.write(lapse),
    }
}

// An order sweeps the opposite queue, and what is left of it is settled.
pub fn sweep_order<C: Collar>(
    collar: &C,
    desk: &mut Desk<'_>,
    report: &mut Report<'_>,
    order: Order,
)
    requires { Roomy (contents desk.old) (page report.old) }
    ensures swept { (g : Grid) → Moves (sweeps (venue g (C.allows collar.now)) order) (contents desk.old) (page report.old) (contents desk.new) (page report.new) }
    ensures kept { Kept desk.old report.old desk.new report.new }
{
    let left = sweep_opposite(collar, desk, report, order);
    settle_rest(desk, report, order, left);
}
