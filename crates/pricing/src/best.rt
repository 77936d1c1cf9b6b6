// The best price: the last price and every limit are tried, with their lawful neighbours up and down.
ghost use Rattle.std.specs.Prelude.{◌≡◌, if◌then◌else◌, Some, None};
ghost use Rattle.rules.specs.Candidates.{grid_of, best};
ghost use Rattle.pricing.specs.Calls.{auction_of};
ghost use Rattle.pricing.specs.Trials.{scored, Beside, Found, chosen_of, Tried, LimitsTried};

use crate::auction::CallAuction;
use grid::PriceGrid;
use rules::{Order, Score};

// A number, if it is lawful.
fn lawful_or_none<G: PriceGrid>(grid: &G, x: u32) -> Option<u32>
    ensures { result ≡ (if G.lawful grid.now x then Some x else None) }
{
    grid.check(x).is_ok().then_some(x)
}

impl CallAuction<'_> {
    // The better of the best so far and one price more, if there is one.
    fn try_price(&self, best: Option<Score>, price: Option<u32>) -> Option<Score>
        ensures { result ≡ chosen_of (auction_of self.now) best price }
    {
        let Some(price) = price else {
            return best;
        };
        let tried = self.score(price);
        match best {
            Some(so_far) if !tried.outranks(&so_far, self.last) => best,
            _ => Some(tried),
        }
    }

    // Tries a number, if it is lawful, and the next lawful prices above and below it.
    fn try_around<G: PriceGrid>(&self, grid: &G, best: Option<Score>, x: u32) -> Option<Score>
        requires { Found (G.lawful grid.now) (auction_of self.now) best }
        ensures { Tried (G.lawful grid.now) (auction_of self.now) best result (Beside (G.lawful grid.now) x) }
    {
        let above = grid.above(x);
        let below = grid.below(x);
        let here = self.try_price(best, lawful_or_none(grid, x));
        let upward = self.try_price(here, above);
        self.try_price(upward, below)
    }

    // Tries the limits of these orders, each with its lawful neighbours. Orders at one limit that stand together are tried
    // once.
    fn try_limits<G: PriceGrid>(
        &self,
        grid: &G,
        best: Option<Score>,
        orders: &[Order],
    ) -> Option<Score>
        requires { Found (G.lawful grid.now) (auction_of self.now) best }
        ensures { LimitsTried (G.lawful grid.now) (auction_of self.now) best result orders.now }
    {
        let mut winner = best;
        let mut tried = None;
        for order in orders {
            if order.limit != 0 && tried != Some(order.limit) {
                tried = Some(order.limit);
                winner = self.try_around(grid, winner, order.limit);
            }
        }
        winner
    }

    // The best lawful price with its score, or none where no price is lawful.
    pub(crate) fn best_price<G: PriceGrid>(&self, grid: &G) -> Option<Score>
        ensures { result ≡ scored (auction_of self.now) (best (grid_of (G.lawful grid.now)) (auction_of self.now)) }
    {
        let from_last = self.try_around(grid, None, self.last);
        let from_buys = self.try_limits(grid, from_last, self.buys);
        self.try_limits(grid, from_buys, self.sells)
    }
}
