// An even grid: a first price, then every step, up to a last price, which need not be hit.
ghost use Rattle.std.specs.Prelude.{◌≡◌, ◌≤◌, Some, None, MatchResult};
ghost use Rattle.grid.specs.Steps.{on_steps};
ghost use Rattle.grid.specs.Setup.{even_fault};
ghost use Rattle.std.proofs.Common.{rules, arith};

use crate::{EvenFault, PriceGrid, is_price};

#[derive(Clone, Copy)]
pub struct EvenGrid {
    pub(crate) first: u32,
    pub(crate) step: u32,
    pub(crate) last: u32,
    ghost low: { 1 ≤ first },
    ghost high: { last ≤ 99999999 },
    ghost stepped: { 1 ≤ step },
    ghost ordered: { first ≤ last },
}

impl EvenGrid {
    // The grid of these numbers, or why they make none.
    pub fn new(first: u32, step: u32, last: u32) -> Result<EvenGrid, EvenFault>
        ensures { MatchResult result
            (λ g. (even_fault first step last ≡ None) × (g.first ≡ first) × (g.step ≡ step) × (g.last ≡ last))
            (λ f. even_fault first step last ≡ Some f) }
    {
        if !is_price(first) {
            return Err(EvenFault::FirstNotPrice);
        }
        if !is_price(last) {
            return Err(EvenFault::LastNotPrice);
        }
        if step == 0 {
            return Err(EvenFault::ZeroStep);
        }
        if last < first {
            return Err(EvenFault::LastBelowFirst);
        }
        Ok(EvenGrid { first, step, last })
    }
}

impl PriceGrid for EvenGrid {
    ghost lawful = { λ g. on_steps g.first g.step g.last };

    ghost priced = { first_of (Prim.search rules, Prim.grind (arith, Self.row.coded.inj)) };

    fn above(&self, p: u32) -> Option<u32> {
        if p < self.first {
            return Some(self.first);
        }
        // asked first, since a row of a tick table that lies below the number would divide for nothing
        if p >= self.last {
            return None;
        }
        let rise = self.step - (p - self.first) % self.step;
        let next = p.checked_add(rise)?;
        (next <= self.last).then_some(next)
    }

    fn below(&self, p: u32) -> Option<u32> {
        if p <= self.first {
            return None;
        }
        let from = (p - 1).min(self.last);
        Some(from - (from - self.first) % self.step)
    }
}
