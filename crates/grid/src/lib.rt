// Price grids: which prices are lawful, whether a number is one of them, and the lawful neighbours of a number.

#![tactic(auto)]

ghost use Rattle.std.specs.Prelude.{ℕ, Bool};
ghost use Rattle.grid.specs.Neighbours.{Priced, NextAbove, NextBelow, Checked};

mod decade;
mod even;
mod found;
mod price;
mod setup;

pub use decade::DecadeGrid;
pub use even::EvenGrid;
pub use found::neighbours_found;
pub use price::{TOP_PRICE, is_price};
pub use setup::EvenFault;

// Why a number is not lawful.
#[derive(Clone, Copy)]
pub enum GridFault {
    // no lawful price is at or above it
    PastLast,
    // one is above it, none at or below it
    BelowFirst,
    // one is above it and one below it
    BetweenSteps,
}

// A price grid. Its meaning is which prices are lawful; every answer is pinned by that meaning alone.
pub trait PriceGrid {
    // the lawful prices
    ghost lawful: { Self → ℕ → Bool };

    // Whether a number is lawful, and if not, why.
    fn check(&self, p: u32) -> Result<(), GridFault>
        ensures { Checked (lawful self.now) p result }
    {
        if p > 0 && self.above(p - 1) == Some(p) {
            return Ok(());
        }
        match self.above(p) {
            None => Err(GridFault::PastLast),
            Some(_) if self.below(p).is_none() => Err(GridFault::BelowFirst),
            Some(_) => Err(GridFault::BetweenSteps),
        }
    }

    // The next lawful price above a number.
    fn above(&self, p: u32) -> Option<u32>
        ensures { NextAbove (lawful self.now) p result };

    // The next lawful price below a number.
    fn below(&self, p: u32) -> Option<u32>
        ensures { NextBelow (lawful self.now) p result };

    // a lawful price is a price
    ghost priced: { (g : Self) → Priced (lawful g) };
}
