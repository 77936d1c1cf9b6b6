// Stops as they stand in a book.
ghost use Rattle.std.specs.Prelude.{◌≡◌};
ghost use Rattle.trading.specs.Sweeps.{as_day_order};

use rules::{Order, Side, Validity};

#[derive(Clone, Copy)]
pub struct StopOrder {
    pub number: u32,
    pub side: Side,
    pub trigger: u32,
    pub limit: u32,
    pub quantity: u32,
}

// The day order as which a stop sweeps once it is reached.
impl From<StopOrder> for Order {
    ghost from_gives = { λ s o. o ≡ as_day_order s };

    fn from(stop: StopOrder) -> Order {
        Order {
            number: stop.number,
            side: stop.side,
            limit: stop.limit,
            open: stop.quantity,
            validity: Validity::Day,
        }
    }
}
