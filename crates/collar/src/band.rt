// A fixed band: the prices from a low to a high price, both allowed.
ghost use Rattle.std.specs.Prelude.{◌≡◌, ◌≤◌, Some, None, MatchResult};
ghost use Rattle.collar.specs.Bands.{in_band};
ghost use Rattle.collar.specs.Setup.{band_fault};

use crate::{Collar, CollarFault};
use grid::{TOP_PRICE, is_price};

#[derive(Clone, Copy)]
pub struct FixedBand {
    low: u32,
    high: u32,
    ghost floor: { 1 ≤ low },
    ghost ordered: { low ≤ high },
    ghost ceiling: { high ≤ 99999999 },
}

impl FixedBand {
    // The band of these prices, or why they make none.
    pub fn new(low: u32, high: u32) -> Result<FixedBand, CollarFault>
        ensures { MatchResult result (λ b. (band_fault low high ≡ None) × (b.low ≡ low) × (b.high ≡ high)) (λ f. band_fault low high ≡ Some f) }
    {
        if !is_price(low) {
            return Err(CollarFault::LowNotPrice);
        }
        if !is_price(high) {
            return Err(CollarFault::HighNotPrice);
        }
        if high < low {
            return Err(CollarFault::LowAboveHigh);
        }
        Ok(FixedBand { low, high })
    }

    // The band of all prices.
    pub fn widest() -> FixedBand
        ensures { (result.low ≡ 1) × (result.high ≡ 99999999) }
    {
        FixedBand {
            low: 1,
            high: TOP_PRICE,
        }
    }
}

impl Collar for FixedBand {
    ghost allows = { λ b _ _ p. in_band b.low b.high p };

    fn is_allowed(&self, static_price: u32, last: u32, price: u32) -> bool {
        (self.low..=self.high).contains(&price)
    }
}
