// Orders and stops, ranked as they stand in a book.
ghost use Rattle.trading.specs.Queues.{order_ahead, stop_ahead};
ghost use Rattle.std.proofs.Common.{rules};

use crate::{Numbered, Ranked};
use rules::{Order, Side};
use trading::StopOrder;

// By side, then by limit: market orders, whose limit is 0, first; then the higher buy limit, or the lower sell limit. No `Ord`, as of one rank
// there are many orders.
impl Ranked for Order {
    ghost ahead = { order_ahead };

    ghost amount = { λ o. o.«open» };

    ghost never_both = { Prim.search rules };

    ghost transitive = { Prim.search rules };

    ghost level = { Prim.search rules };

    fn precedes(&self, other: &Order) -> bool {
        match (self.side, other.side) {
            (Side::Buy, Side::Sell) => true,
            (Side::Sell, Side::Buy) => false,
            (Side::Buy, Side::Buy) => {
                other.limit != 0 && (self.limit == 0 || self.limit > other.limit)
            }
            (Side::Sell, Side::Sell) => self.limit < other.limit,
        }
    }

    fn quantity(&self) -> u32 {
        self.open
    }
}

impl Numbered for Order {
    ghost tag = { λ o. o.number };

    fn number(&self) -> u32 {
        self.number
    }
}

// By side, then by trigger: the lower buy trigger, or the higher sell trigger, first. No `Ord` here either.
impl Ranked for StopOrder {
    ghost ahead = { stop_ahead };

    ghost amount = { λ s. s.quantity };

    ghost never_both = { Prim.search rules };

    ghost transitive = { Prim.search rules };

    ghost level = { Prim.search rules };

    fn precedes(&self, other: &StopOrder) -> bool {
        match (self.side, other.side) {
            (Side::Buy, Side::Sell) => true,
            (Side::Sell, Side::Buy) => false,
            (Side::Buy, Side::Buy) => self.trigger < other.trigger,
            (Side::Sell, Side::Sell) => self.trigger > other.trigger,
        }
    }

    fn quantity(&self) -> u32 {
        self.quantity
    }
}

impl Numbered for StopOrder {
    ghost tag = { λ s. s.number };

    fn number(&self) -> u32 {
        self.number
    }
}
