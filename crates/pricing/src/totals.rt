// What a price executes.
ghost use Rattle.std.specs.Prelude.{◌≡◌, ℕ};
ghost use Rattle.std.specs.Fn.{FnReturnsAt};
ghost use Rattle.rules.specs.declared.order.Order.{Order};
ghost use Rattle.rules.specs.Auctions.{total, buy_total, sell_total, score_of};
ghost use Rattle.pricing.specs.Few.{Few};
ghost use Rattle.pricing.specs.Calls.{auction_of};

use crate::auction::CallAuction;
use rules::{Order, Score};

// What the orders have open, of each as much as counts. Its two callers tell that by `then_some`, which leaves no branch in the loop.
fn open_total<F: Fn(&Order) -> u32>(orders: &[Order], counts: F) -> u64
    requires callable { F.IsAlwaysCallable counts }
    requires few { Few orders.now }
    ensures { (amount : Order → ℕ) → ((o : Order) (n : ℕ) → FnReturnsAt F.Fn counts o n → n ≡ amount o) → result ≡ total amount orders.now }
{
    orders.iter().map(|order| u64::from(counts(order))).sum()
}

impl CallAuction<'_> {
    // The buy total at a price: what the buys that accept it have open.
    fn buy_total(&self, price: u32) -> u64
        ensures { result ≡ buy_total self.now.buys.now price }
    {
        open_total(
            self.buys,
            |order| order
                .accepts_buying(price)
                .then_some(order.open)
                .unwrap_or(0),
        )
    }

    // The sell total at a price: what the sells that accept it have open.
    fn sell_total(&self, price: u32) -> u64
        ensures { result ≡ sell_total self.now.sells.now price }
    {
        open_total(
            self.sells,
            |order| order
                .accepts_selling(price)
                .then_some(order.open)
                .unwrap_or(0),
        )
    }

    // A price with what it executes: the smaller total, and the difference of the totals without sign.
    pub(crate) fn score(&self, price: u32) -> Score
        ensures { result ≡ score_of (auction_of self.now) price }
    {
        let bought = self.buy_total(price);
        let sold = self.sell_total(price);
        Score {
            price,
            volume: bought.min(sold),
            surplus: bought.abs_diff(sold),
        }
    }
}
