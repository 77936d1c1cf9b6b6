// What a member brings to the book.
ghost use Rattle.std.specs.Prelude.{◌≡◌};
ghost use Rattle.trading.specs.Calls.{order_of, stop_of};

use crate::StopOrder;
use rules::{Order, Side, Validity};

#[derive(Clone, Copy)]
pub enum Kind {
    Limit,
    // executes at any price; its limit is 0
    Market,
    // sleeps until the last price reaches its trigger, then trades as a limit order
    Stop,
}

// The limit and the trigger stand beside the kind and not in it: a ticket whose parts do not go together can be brought, and is
// refused.
#[derive(Clone, Copy)]
pub struct Ticket {
    pub number: u32,
    pub side: Side,
    pub kind: Kind,
    pub limit: u32,
    // 0 unless the ticket is a stop
    pub trigger: u32,
    pub quantity: u32,
    pub validity: Validity,
}

// The order that a ticket other than a stop enters as.
impl From<Ticket> for Order {
    ghost from_gives = { λ t o. o ≡ order_of t };

    fn from(ticket: Ticket) -> Order {
        Order {
            number: ticket.number,
            side: ticket.side,
            limit: ticket.limit,
            open: ticket.quantity,
            validity: ticket.validity,
        }
    }
}

// The stop that the ticket of a stop enters as.
impl From<Ticket> for StopOrder {
    ghost from_gives = { λ t s. s ≡ stop_of t };

    fn from(ticket: Ticket) -> StopOrder {
        StopOrder {
            number: ticket.number,
            side: ticket.side,
            trigger: ticket.trigger,
            limit: ticket.limit,
            quantity: ticket.quantity,
        }
    }
}
