// What a price is.
ghost use Rattle.std.specs.Prelude.{◌≡◌};
ghost use Rattle.grid.specs.Prices.{is_price};

// The highest price; the lowest is 1.
pub const TOP_PRICE: u32 = 99_999_999;

// Whether a number is a price, 1 to 99,999,999.
pub fn is_price(p: u32) -> bool
    ensures { result ≡ is_price p }
{
    (1..=TOP_PRICE).contains(&p)
}
