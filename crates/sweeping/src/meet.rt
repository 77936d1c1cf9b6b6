// Whom an order may meet, and the line of their trade.
ghost use Rattle.std.specs.Prelude.{◌≡◌};
ghost use Rattle.trading.specs.Books.{is_day};
ghost use Rattle.trading.specs.Sweeps.{within};
ghost use Rattle.sweeping.specs.Steps.{trade_with, FirstDay};

use rules::{Order, Side, Validity};
use trading::ReportLine;

// Whether a price is within a limit: at or below that of a buy, at or above that of a sell.
pub fn is_within(side: Side, limit: u32, price: u32) -> bool
    ensures { result ≡ within side limit price }
{
    match side {
        Side::Buy => price <= limit,
        Side::Sell => limit <= price,
    }
}

pub fn is_day(validity: Validity) -> bool
    ensures { result ≡ is_day validity }
{
    matches!(validity, Validity::Day)
}

// The line of a trade of an order with a resting one, at the limit of the latter.
pub fn trade_line(order: Order, resting: Order, quantity: u32) -> ReportLine
    ensures { result ≡ trade_with order resting quantity }
{
    let (buy, sell) = match order.side {
        Side::Buy => (order.number, resting.number),
        Side::Sell => (resting.number, order.number),
    };
    ReportLine::Trade {
        buy,
        sell,
        price: resting.limit,
        quantity,
    }
}

// Where the first day order of a queue stands: the orders in front of it sleep until the next call.
pub fn first_day(queue: &[Order]) -> Option<usize>
    ensures { FirstDay queue.now result }
{
    queue.iter().position(|order| is_day(order.validity))
}
