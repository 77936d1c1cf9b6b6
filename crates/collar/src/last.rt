// Around the last price: the prices at most k thousandths of the last price away from it.
ghost use Rattle.std.specs.Prelude.{◌≡◌, Some, None, MatchResult};
ghost use Rattle.collar.specs.Bands.{within};
ghost use Rattle.collar.specs.Setup.{factor_fault};

use crate::factor::Factor;
use crate::{Collar, CollarFault};

#[derive(Clone, Copy)]
pub struct AroundLast {
    factor: Factor,
}

impl AroundLast {
    // The collar of k thousandths, or why there is none.
    pub fn new(k: u32) -> Result<AroundLast, CollarFault>
        ensures { MatchResult result (λ c. (factor_fault k ≡ None) × (c.factor.k ≡ k)) (λ f. factor_fault k ≡ Some f) }
    {
        let factor = Factor::new(k)?;
        Ok(AroundLast { factor })
    }
}

impl Collar for AroundLast {
    ghost allows = { λ c _ last p. within c.factor.k last p };

    fn is_allowed(&self, static_price: u32, last: u32, price: u32) -> bool {
        self.factor.covers(last, price)
    }
}
