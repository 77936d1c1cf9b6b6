// Price collars: which prices an uncrossing may print, given the static price and the last price.

#![tactic(auto)]

ghost use Rattle.std.specs.Prelude.{◌≡◌, ℕ, Bool};

mod any;
mod band;
mod factor;
mod last;
mod over;

pub use any::AnyCollar;
pub use band::FixedBand;
pub use last::AroundLast;
pub use over::AroundStatic;

// Why numbers make no collar.
#[derive(Clone, Copy)]
pub enum CollarFault {
    LowNotPrice,
    HighNotPrice,
    LowAboveHigh,
    // more than 1,000 thousandths
    FactorTooLarge,
}

// A price collar. Its meaning is which prices it allows; the answer is pinned by that meaning alone.
pub trait Collar {
    // of a static price, a last price and a price: whether the price is allowed
    ghost allows: { Self → ℕ → ℕ → ℕ → Bool };

    // Whether a price is allowed, given the static price and the last price: two numbers and no struct, since a sweep moves the one
    // and leaves the other.
    fn is_allowed(&self, static_price: u32, last: u32, price: u32) -> bool
        ensures { result ≡ allows self.now static_price last price };
}
