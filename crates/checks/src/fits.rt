// Queues whose records may stand where they stand, in order.
ghost use Rattle.std.specs.Prelude.{◌≡◌, ◌≤◌, Bool, ◌&&◌, length, take};
ghost use Rattle.rules.specs.declared.order.Side.{Side};
ghost use Rattle.trading.specs.Queues.{all_pass, in_order};
ghost use Rattle.trading.specs.Ranges.{order_fits, stop_fits};

use crate::ranges::{is_number, is_quantity, may_stand};
use grid::is_price;
use queue::Ranked;
use rules::{Order, Side};
use trading::StopOrder;

// A record that may stand in the queue of a side, or not.
pub trait Fitting {
    ghost fits: { Side → Self → Bool };

    fn is_fit(&self, side: Side) -> bool
        ensures { result ≡ fits side self.now };
}

impl Fitting for Order {
    ghost fits = { order_fits };

    fn is_fit(&self, side: Side) -> bool {
        self.side == side
            && is_number(self.number)
            && is_quantity(self.open)
            && may_stand(self.limit, self.validity)
    }
}

// Stops of both sides stand in one queue.
impl Fitting for StopOrder {
    ghost fits = { λ _ s. stop_fits s };

    fn is_fit(&self, _side: Side) -> bool {
        is_number(self.number)
            && is_quantity(self.quantity)
            && is_price(self.trigger)
            && is_price(self.limit)
    }
}

fn all_fit<R: Fitting>(queue: &[R], side: Side) -> bool
    ensures { result ≡ all_pass (R.fits side) queue.now }
{
    queue.iter().all(|x| x.is_fit(side))
}

// No record is ahead of the one before it.
fn in_order<R: Ranked>(queue: &[R]) -> bool
    ensures { result ≡ in_order R.ahead queue.now }
{
    queue.iter().is_sorted_by(|a, b| !b.precedes(a))
}

// The records may be the queue of a side: each fits it, and they stand in order.
pub fn is_queue<R: Fitting + Ranked>(records: &[R], side: Side) -> bool
    ensures { result ≡ (all_pass (R.fits side) records.now && in_order R.ahead records.now) }
{
    all_fit(records, side) && in_order(records)
}
