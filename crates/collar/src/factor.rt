// How far prices may lie from a base price.
ghost use Rattle.std.specs.Prelude.{◌≡◌, ◌≤◌, Some, None, MatchResult};
ghost use Rattle.collar.specs.Bands.{within};
ghost use Rattle.collar.specs.Setup.{factor_fault};

use crate::CollarFault;

// A number of thousandths of a base price, at most 1,000.
#[derive(Clone, Copy)]
pub(crate) struct Factor {
    k: u32,
    ghost few: { k ≤ 1000 },
}

impl Factor {
    // The factor of k thousandths, or why there is none.
    pub(crate) fn new(k: u32) -> Result<Factor, CollarFault>
        ensures { MatchResult result (λ f. (factor_fault k ≡ None) × (f.k ≡ k)) (λ f. factor_fault k ≡ Some f) }
    {
        if k > 1_000 {
            return Err(CollarFault::FactorTooLarge);
        }
        Ok(Factor { k })
    }

    // Whether `price` is at most these thousandths of the base price away from it.
    pub(crate) fn covers(&self, base: u32, price: u32) -> bool
        ensures { result ≡ within self.now.k base price }
    {
        1_000 * u64::from(price.abs_diff(base)) <= u64::from(self.k) * u64::from(base)
    }
}
