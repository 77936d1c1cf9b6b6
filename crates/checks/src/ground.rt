// The checks that every call makes first: room in the report, and well-formed tables.
ghost use Rattle.std.specs.Prelude.{◌≡◌, length};
ghost use Rattle.trading.specs.Desks.{counts_fit, queues_fit, well_formed};
ghost use Rattle.lent.specs.Contents.{laid, capacity_in, book_seen};
ghost use Rattle.checks.specs.Ground.{Ground};

use crate::fits::is_queue;
use grid::is_price;
use lent::{Book, Tables};
use rules::Side;
use trading::{BookFault, ReportLine, State};

// How many records a book may hold, however long its tables are.
const MAX_RECORDS: usize = 4_096;

// How many records a book may hold in these tables.
pub fn capacity_of(tables: &Tables<'_>) -> usize
    ensures { result ≡ capacity_in tables.now }
{
    let shortest = tables
        .buys
        .len()
        .min(tables.sells.len().min(tables.stops.len()));
    MAX_RECORDS.min(shortest)
}

// Each count is held to the capacity before they are added up.
fn counts_fit(state: State, tables: &Tables<'_>) -> bool
    ensures { result ≡ counts_fit (laid state tables.now) }
{
    let n = capacity_of(tables);
    state.buys <= n
        && state.sells <= n
        && state.stops <= n
        && state.buys + state.sells + state.stops <= n
}

fn queues_fit(book: &Book<'_>) -> bool
    ensures { result ≡ queues_fit (book_seen book.now) }
{
    is_queue(book.buys, Side::Buy)
        && is_queue(book.sells, Side::Sell)
        && is_queue(book.stops, Side::Buy)
        && is_price(book.static_price)
        && is_price(book.last)
}

fn well_formed(state: State, tables: &Tables<'_>) -> bool
    ensures { result ≡ well_formed (laid state tables.now) }
{
    counts_fit(state, tables) && queues_fit(&tables.book(state))
}

// Refuses a report that is too short, then tables that are not well-formed.
pub fn check_ground(
    state: State,
    tables: &Tables<'_>,
    report: &[ReportLine],
) -> Result<(), BookFault>
    ensures { Ground (laid state tables.now) (length report.now) result }
{
    if report.len() < capacity_of(tables) + 1 {
        return Err(BookFault::ReportTooShort);
    }
    if !well_formed(state, tables) {
        return Err(BookFault::NotWellFormed);
    }
    Ok(())
}
