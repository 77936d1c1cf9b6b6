// Around the static price, laid over another collar: the prices at most k thousandths of the static price away from it
// that the other collar allows too.
ghost use Rattle.std.specs.Prelude.{◌≡◌, ◌&&◌, Some, None, MatchResult};
ghost use Rattle.collar.specs.Bands.{within};
ghost use Rattle.collar.specs.Setup.{factor_fault};

use crate::factor::Factor;
use crate::{Collar, CollarFault};

#[derive(Drop)]
pub struct AroundStatic<C> {
    factor: Factor,
    inner: C,
}

impl<C: Drop> AroundStatic<C> {
    // The collar of k thousandths over another collar, or why there is none; then the other collar is let go.
    pub fn new(k: u32, inner: C) -> Result<AroundStatic<C>, CollarFault>
        ensures { MatchResult result (λ c. (factor_fault k ≡ None) × (c.factor.k ≡ k) × (c.inner ≡ inner)) (λ f. factor_fault k ≡ Some f) }
    {
        let factor = Factor::new(k)?;
        Ok(AroundStatic { factor, inner })
    }
}

impl<C: Collar> Collar for AroundStatic<C> {
    ghost allows = { λ c s last p. within c.factor.k s p && C.Collar.allows c.inner s last p };

    fn is_allowed(&self, static_price: u32, last: u32, price: u32) -> bool {
        self.factor.covers(static_price, price) && self.inner.is_allowed(static_price, last, price)
    }
}
