// The trades of buys and sells at one price.
ghost use Rattle.std.specs.Prelude.{◌≡◌, ◌+◌, ◌<◌, ◌≤◌, min, length};
ghost use Rattle.trading.specs.Desks.{book_of};
ghost use Rattle.lent.specs.Contents.{contents, page, Kept};
ghost use Rattle.uncrossing.specs.Spans.{span};
ghost use Rattle.uncrossing.specs.Fits.{OrdersFit, QueuesStart};
ghost use Rattle.uncrossing.specs.Fronts.{InFront};
ghost use Rattle.uncrossing.specs.Meetings.{NextPair, TookOff, MetBy};

use lent::{Desk, Report};
use rules::Order;
use trading::ReportLine;

// Where each queue goes on after the trades at a price; by default, before any trade.
#[derive(Clone, Copy, Default)]
pub struct Met {
    pub buys: usize,
    pub sells: usize,
}

// The first buy and the first sell that are left, where both accept the price.
fn next_pair(price: u32, met: Met, desk: &Desk<'_>) -> Option<(Order, Order)>
    requires { QueuesStart met (contents desk.now) }
    ensures { let d = contents desk.now in
        NextPair price (span met.buys d.state.buys d.buys) (span met.sells d.state.sells d.sells) result }
{
    let buy = desk.buys[met.buys..desk.state.buys].first()?;
    let sell = desk.sells[met.sells..desk.state.sells].first()?;
    if buy.accepts_buying(price) && sell.accepts_selling(price) {
        Some((*buy, *sell))
    } else {
        None
    }
}

// What two orders trade.
fn smaller_open(buy: Order, sell: Order) -> u32
    ensures { result ≡ min buy.«open» sell.«open» }
{
    buy.open.min(sell.open)
}

// Takes a traded quantity off the order at `first`, and answers where its queue goes on: there, or behind it where it is used up.
fn take_off(orders: &mut [Order], first: usize, quantity: u32) -> usize
    requires { first < length orders.old }
    ensures { TookOff orders.old orders.new first quantity result }
{
    let open = orders[first].open;
    if open <= quantity {
        return first + 1;
    }
    orders[first].open = open - quantity;
    first
}

// The first buy and the first sell trade the smaller quantity, while both accept the price. Orders that are used up stay where
// they are, in front of the queues.
pub(crate) fn pair_all(price: u32, desk: &mut Desk<'_>, report: &mut Report<'_>) -> Met
    requires fit { OrdersFit (contents desk.old) (page report.old) }
    requires fronts { let b = book_of (contents desk.old) in InFront price b.buys b.sells }
    ensures paired { MetBy price (contents desk.old) (page report.old) (contents desk.new) (page report.new) result }
    ensures state { desk.new.state.now ≡ desk.old.state.now }
    ensures kept { Kept desk.old report.old desk.new report.new }
{
    let mut met = Met::default();
    // two places, since each queue goes on by itself
    'trades: while let Some((buy, sell)) = next_pair(price, met, desk) {
        let quantity = smaller_open(buy, sell);
        report.write(ReportLine::Trade {
            buy: buy.number,
            sell: sell.number,
            price,
            quantity,
        });
        met.buys = take_off(desk.buys, met.buys, quantity);
        met.sells = take_off(desk.sells, met.sells, quantity);
    }
    met
}
