// Whether a ticket may enter, by how the book stands.
ghost use Rattle.std.specs.Prelude.{◌≡◌, ◌≤◌, not, ◌&&◌};
ghost use Rattle.rules.specs.Candidates.{Grid};
ghost use Rattle.trading.specs.Books.{is_ioc, held};
ghost use Rattle.trading.specs.Sweeps.{reached, swept_by};
ghost use Rattle.trading.specs.Calls.{is_stop, stop_of, order_of, is_empty};
ghost use Rattle.lent.specs.Contents.{book_seen};
ghost use Rattle.checks.specs.Ground.{CheckedBy};
ghost use Rattle.sweeping.specs.Beside.{venue};
ghost use Rattle.book.specs.Entering.{queue_checks};

use crate::finding::find_record;
use collar::Collar;
use lent::Book;
use rules::{Order, Side, Validity};
use sweeping::{is_reached, meets_someone};
use trading::{BookFault, Kind, StopOrder, Ticket};

pub fn is_stop(kind: Kind) -> bool
    ensures { result ≡ is_stop kind }
{
    matches!(kind, Kind::Stop)
}

fn is_ioc(validity: Validity) -> bool
    ensures { result ≡ is_ioc validity }
{
    matches!(validity, Validity::Ioc)
}

// Whether a ticket is a stop that the last price already reaches.
fn is_reached_stop(ticket: Ticket, last: u32) -> bool
    ensures { result ≡ is_stop ticket.kind && reached last (stop_of ticket) }
{
    is_stop(ticket.kind) && is_reached(StopOrder::from(ticket), last)
}

// Whether an order would trade if it swept the book now.
fn trades_at_once<C: Collar>(collar: &C, book: &Book<'_>, order: Order) -> bool
    ensures { (g : Grid) → result ≡ not (is_empty (swept_by (venue g (C.allows collar.now)) order (book_seen book.now)).trades) }
{
    let opposite = match order.side {
        Side::Buy => book.sells,
        Side::Sell => book.buys,
    };
    meets_someone(collar, book.static_price, book.last, order, opposite)
}

// Whether a ticket has to trade at once and would not.
fn lacks_first_trade<C: Collar>(collar: &C, book: &Book<'_>, ticket: Ticket) -> bool
    ensures { (g : Grid) → result ≡ is_ioc ticket.validity && is_empty (swept_by (venue g (C.allows collar.now)) (order_of ticket) (book_seen book.now)).trades }
{
    is_ioc(ticket.validity) && !trades_at_once(collar, book, Order::from(ticket))
}

// Makes the checks of an entry that look at the queues; the tables have room for `capacity` records.
pub fn check_queues<C: Collar>(
    collar: &C,
    book: &Book<'_>,
    capacity: usize,
    ticket: Ticket,
) -> Result<(), BookFault>
    requires { held (book_seen book.now) ≤ capacity }
    ensures { (g : Grid) → CheckedBy (queue_checks (venue g (C.allows collar.now)) capacity ticket (book_seen book.now)) result }
{
    if find_record(book, ticket.number).is_some() {
        return Err(BookFault::NumberLive);
    }
    if capacity <= book.buys.len() + book.sells.len() + book.stops.len() {
        return Err(BookFault::BookFull);
    }
    if is_reached_stop(ticket, book.last) {
        return Err(BookFault::StopReached);
    }
    if lacks_first_trade(collar, book, ticket) {
        return Err(BookFault::NoFirstTrade);
    }
    Ok(())
}
