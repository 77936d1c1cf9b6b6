// What a call auction's price depends on.
ghost use Rattle.pricing.specs.Few.{Few};

use rules::Order;

// How many orders an auction takes on each side.
pub const MAX_ORDERS: usize = 4_096;

// A side has more orders than an auction takes.
#[derive(Clone, Copy)]
pub struct TooManyOrders;

// The last price, and the orders on both sides, as many as an auction takes.
#[derive(Clone, Copy)]
pub(crate) struct CallAuction<'a> {
    pub(crate) last: u32,
    pub(crate) buys: &'a [Order],
    pub(crate) sells: &'a [Order],
    ghost few_buys: { Few buys.now },
    ghost few_sells: { Few sells.now },
}

impl<'a> CallAuction<'a> {
    ghost use Rattle.std.specs.Prelude.{◌≡◌, MatchResult};
    ghost use Rattle.rules.specs.Auctions.{auction};
    ghost use Rattle.pricing.specs.Calls.{auction_of};

    // The auction of these orders, unless a side has too many.
    pub(crate) fn new(
        last: u32,
        buys: &'a [Order],
        sells: &'a [Order],
    ) -> Result<CallAuction<'a>, TooManyOrders>
        ensures { MatchResult result (λ a. auction_of a ≡ auction last buys.now sells.now) (λ _. Few buys.now × Few sells.now → ⊥) }
    {
        if buys.len() > MAX_ORDERS || sells.len() > MAX_ORDERS {
            return Err(TooManyOrders);
        }
        Ok(CallAuction { last, buys, sells })
    }
}
