// Ranges of numbers, and what goes together.
ghost use Rattle.std.specs.Prelude.{◌≡◌};
ghost use Rattle.trading.specs.Ranges.{is_number, is_quantity, pair_up, may_stand};

use grid::is_price;
use rules::Validity;
use trading::Kind;

pub fn is_number(n: u32) -> bool
    ensures { result ≡ is_number n }
{
    (1..=99_999_999).contains(&n)
}

pub fn is_quantity(q: u32) -> bool
    ensures { result ≡ is_quantity q }
{
    (1..=49_999_999).contains(&q)
}

// Whether kind, limit, trigger and validity of a ticket go together.
pub fn pair_up(kind: Kind, limit: u32, trigger: u32, validity: Validity) -> bool
    ensures { result ≡ pair_up kind limit trigger validity }
{
    match kind {
        Kind::Limit => limit != 0 && trigger == 0,
        Kind::Market => matches!(validity, Validity::Vfu) && limit == 0 && trigger == 0,
        Kind::Stop => matches!(validity, Validity::Day) && limit != 0 && trigger != 0,
    }
}

// Whether an order of this limit and validity may stand in a queue.
pub fn may_stand(limit: u32, validity: Validity) -> bool
    ensures { result ≡ may_stand limit validity }
{
    match validity {
        Validity::Day => is_price(limit),
        Validity::Ioc => false,
        Validity::Vfu => limit == 0 || is_price(limit),
    }
}
