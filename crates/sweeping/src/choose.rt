// Whom a sweeping order meets next.
ghost use Rattle.std.specs.Prelude.{◌≡◌, not};
ghost use Rattle.trading.specs.Sweeps.{sweep};
ghost use Rattle.trading.specs.Calls.{is_empty};
ghost use Rattle.sweeping.specs.Steps.{Chosen};

use super::meet::{first_day, is_within};
use collar::Collar;
use rules::Order;
use trading::Ending;

// What an order does next, with `rest` of it left: it trades with the order at a place of the queue, or its sweep ends.
pub fn choose_next<C: Collar>(
    collar: &C,
    static_price: u32,
    order: Order,
    rest: u32,
    last: u32,
    queue: &[Order],
) -> Result<usize, Ending>
    ensures { Chosen (C.allows collar.now static_price) order rest last queue.now result }
{
    if rest == 0 {
        return Err(Ending::Filled);
    }
    let Some(i) = first_day(queue) else {
        return Err(Ending::Nobody);
    };
    let price = queue[i].limit;
    if !is_within(order.side, order.limit, price) {
        return Err(Ending::Nobody);
    }
    if !collar.is_allowed(static_price, last, price) {
        return Err(Ending::Collared);
    }
    Ok(i)
}

// Whether the sweep of an order through a queue would make a trade.
pub fn meets_someone<C: Collar>(
    collar: &C,
    static_price: u32,
    last: u32,
    order: Order,
    queue: &[Order],
) -> bool
    ensures { result ≡ not (is_empty (sweep (C.allows collar.now static_price) order order.«open» last queue.now).trades) }
{
    choose_next(collar, static_price, order, order.open, last, queue).is_ok()
}
