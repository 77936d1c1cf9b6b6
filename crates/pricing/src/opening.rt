// The opening price.
ghost use Rattle.std.specs.Prelude.{◌≡◌, IfOk, MatchResult};
ghost use Rattle.rules.specs.Candidates.{grid_of};
ghost use Rattle.rules.specs.Auctions.{auction};
ghost use Rattle.rules.specs.Openings.{opening};
ghost use Rattle.rules.specs.Winners.{PriceLaw};
ghost use Rattle.pricing.specs.Few.{Few};
ghost use Rattle.pricing.specs.Trials.{decided};

use crate::auction::{CallAuction, TooManyOrders};
use collar::Collar;
use grid::PriceGrid;
use rules::{Opening, Order, Score};

// What the best price comes to: nothing executes, or the collar is asked.
fn decide<C: Collar>(collar: &C, static_price: u32, last: u32, best: Option<Score>) -> Opening
    ensures { result ≡ decided (C.allows collar.now) static_price last best }
{
    match best {
        Some(best) if best.volume != 0 => {
            if collar.is_allowed(static_price, last, best.price) {
                Opening::Printed {
                    price: best.price,
                    volume: best.volume,
                }
            } else {
                Opening::RefusedByCollar { price: best.price }
            }
        }
        _ => Opening::NoPrice,
    }
}

// What a call auction of these orders comes to, on this grid and under this collar.
//
// `rule`: it is what the rules compute, and it is refused exactly where a side has more than 4,096 orders.
// `law`: no price exactly when no lawful price executes anything; otherwise one lawful price beats every other lawful
// price, and it is printed with its volume where the collar allows it, else told as refused.
pub fn opening_price<G: PriceGrid, C: Collar>(
    grid: &G,
    collar: &C,
    static_price: u32,
    last: u32,
    buys: &[Order],
    sells: &[Order],
) -> Result<Opening, TooManyOrders>
    ensures rule { MatchResult result
        (λ o. Few buys.now × Few sells.now × (o ≡ opening (grid_of (G.lawful grid.now)) (C.allows collar.now) static_price (auction last buys.now sells.now)))
        (λ _. Few buys.now × Few sells.now → ⊥) }
    ensures law { IfOk result (λ o. PriceLaw (G.lawful grid.now) (C.allows collar.now) static_price (auction last buys.now sells.now) o) }
{
    let auction = CallAuction::new(last, buys, sells)?;
    Ok(decide(collar, static_price, last, auction.best_price(grid)))
}
