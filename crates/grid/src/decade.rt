// The decade grid: a lawful price is a multiple of its step, and the more digits it has, the wider the step.
ghost use Rattle.std.specs.Prelude.{◌≡◌, true};
ghost use Rattle.grid.specs.Prices.{is_price};
ghost use Rattle.grid.specs.Decades.{digits_of, step_of, on_decades};
ghost use Rattle.std.proofs.Common.{rules};

use crate::PriceGrid;

// The last lawful price.
const LAST: u32 = 99_990_000;

#[derive(Clone, Copy)]
pub struct DecadeGrid;

// The step of a price: 1 up to four digits, then one nought more with each digit.
fn step_at(p: u32) -> u32
    requires { is_price p ≡ true }
    ensures { result ≡ step_of (digits_of p) }
{
    match p {
        0..=9_999 => 1,
        10_000..=99_999 => 10,
        100_000..=999_999 => 100,
        1_000_000..=9_999_999 => 1_000,
        _ => 10_000,
    }
}

impl PriceGrid for DecadeGrid {
    ghost lawful = { λ _. on_decades };

    ghost priced = { Prim.search rules };

    fn above(&self, p: u32) -> Option<u32> {
        if p < 1 {
            return Some(1);
        }
        if p >= LAST {
            return None;
        }
        let step = step_at(p);
        Some(p + (step - p % step))
    }

    fn below(&self, p: u32) -> Option<u32> {
        if p <= 1 {
            return None;
        }
        let from = (p - 1).min(LAST);
        Some(from - from % step_at(from))
    }
}
