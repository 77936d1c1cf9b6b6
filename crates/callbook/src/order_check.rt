// Whether an order may stand in a call book.
ghost use Rattle.callbook.specs.Orders.{OrderChecked};

use grid::{GridFault, PriceGrid};
use script::OrderPrice;

// The largest quantity of an order.
const MAX_QUANTITY: u32 = 49_999_999;

// Why an order is refused.
#[derive(Clone, Copy)]
pub enum OrderFault {
    QuantityOutOfRange,
    // a limit order whose limit is 0
    NoLimit,
    // the limit is not lawful; the nearest lawful prices below and above it, so far as there are any
    LimitUnlawful {
        limit: u32,
        fault: GridFault,
        below: Option<u32>,
        above: Option<u32>,
    },
}

// The limit to keep for an order, 0 for a market order, or why the order is refused.
pub(crate) fn check_order<G: PriceGrid>(
    grid: &G,
    quantity: u32,
    price: OrderPrice,
) -> Result<u32, OrderFault>
    ensures { OrderChecked (G.lawful grid.now) quantity price result }
{
    if !(1..=MAX_QUANTITY).contains(&quantity) {
        return Err(OrderFault::QuantityOutOfRange);
    }
    let OrderPrice::Limit(limit) = price else {
        return Ok(0);
    };
    if limit == 0 {
        return Err(OrderFault::NoLimit);
    }
    grid.check(limit)
        .map_err(|fault| OrderFault::LimitUnlawful {
            limit,
            fault,
            below: grid.below(limit),
            above: grid.above(limit),
        })?;
    Ok(limit)
}
