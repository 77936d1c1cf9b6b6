// What a call auction comes to.
ghost use Rattle.std.specs.Prelude.{◌≡◌, Some};
ghost use Rattle.rules.specs.Outranks.{outranks};
ghost use Rattle.rules.specs.Printed.{outcome_line};

use std::cmp::Reverse;
use std::fmt;

// A price with what it executes: the volume, and the surplus that it leaves on one side.
#[derive(Clone, Copy)]
pub struct Score {
    pub price: u32,
    pub volume: u64,
    pub surplus: u64,
}

impl Score {
    // Whether this price beats another: more volume, then less surplus, then nearer to the last price, then higher.
    pub fn outranks(&self, other: &Score, last: u32) -> bool
        ensures { result ≡ outranks last self.now other.now }
    {
        let rank = |score: &Score| {
            let distance = score.price.abs_diff(last);
            (
                score.volume,
                Reverse(score.surplus),
                Reverse(distance),
                score.price,
            )
        };
        rank(self) > rank(other)
    }
}

// The outcome of a call auction.
#[derive(Clone, Copy)]
pub enum Opening {
    // no lawful price executes anything
    NoPrice,
    // the price that wins, and its volume
    Printed { price: u32, volume: u64 },
    // the price that wins, which the collar does not allow
    RefusedByCollar { price: u32 },
}

// The printed line of an outcome: P price volume, N, or F price.
impl fmt::Display for Opening {
    ghost output = { λ o. Some (outcome_line o) };

    fn fmt<W: fmt::Write>(&self, f: &mut fmt::Formatter<W>) -> fmt::Result {
        match self {
            Opening::NoPrice => write!(f, "N"),
            Opening::Printed { price, volume } => write!(f, "P {price} {volume}"),
            Opening::RefusedByCollar { price } => write!(f, "F {price}"),
        }
    }
}
