// How long the orders of a call book stay.
ghost use Rattle.std.specs.Prelude.{◌≡◌};
ghost use Rattle.callbook.specs.Lines.{validity_of};

use rules::Validity;
use script::OrderPrice;

// A limit order stays for the day; a market order is valid for the auction only.
pub(crate) fn validity_of(price: OrderPrice) -> Validity
    ensures { result ≡ validity_of price }
{
    match price {
        OrderPrice::Limit(_) => Validity::Day,
        OrderPrice::Market => Validity::Vfu,
    }
}
