// Whether an amendment may be made, and of which order.
ghost use Rattle.std.specs.Prelude.{◌≡◌, ℕ, Bool, false, MatchOption, ◌==◌};
ghost use Rattle.std.specs.Bool.{beq};
ghost use Rattle.trading.specs.Books.{venue_of};
ghost use Rattle.trading.specs.Calls.{place, is_order};
ghost use Rattle.lent.specs.Contents.{book_seen};
ghost use Rattle.book.specs.Amending.{MayAmend, Stands};

use crate::finding::{Spot, find_record};
use checks::{check_lawful, is_number, is_quantity};
use grid::PriceGrid;
use lent::Book;
use rules::Order;
use trading::{BookFault, Part, Phase};

// A new limit and a new quantity for the order under a number.
#[derive(Clone, Copy)]
pub struct Amendment {
    pub number: u32,
    pub limit: u32,
    pub quantity: u32,
}

// An order, and where it stands.
#[derive(Clone, Copy)]
pub struct Standing {
    pub spot: Spot,
    pub order: Order,
}

// The first record with the number, if it is an order.
fn find_order(book: &Book<'_>, number: u32) -> Option<Standing>
    ensures { let b = book_seen book.now in
        MatchOption result (is_order (place number b) ≡ false) (λ x. Stands number b x) }
{
    let spot = find_record(book, number)?;
    match spot {
        Spot::Buys(i) => Some(Standing {
            spot,
            order: book.buys[i],
        }),
        Spot::Sells(i) => Some(Standing {
            spot,
            order: book.sells[i],
        }),
        Spot::Stops(_) => None,
    }
}

// Whether two limits are both those of market orders, or neither is.
fn both_or_neither_market(a: u32, b: u32) -> bool
    ensures { result ≡ beq (a == 0) (b == 0) }
{
    (a == 0) == (b == 0)
}

// Makes the checks of an amendment that follow the first two.
pub fn check_amendment<G: PriceGrid>(
    grid: &G,
    book: &Book<'_>,
    asked: Amendment,
) -> Result<Standing, BookFault>
    ensures { (allows : ℕ → ℕ → ℕ → Bool) → MayAmend (venue_of (G.lawful grid.now) allows) asked.number asked.limit asked.quantity (book_seen book.now) result }
{
    if let Phase::Ended = book.phase {
        return Err(BookFault::WrongPhase);
    }
    if !is_number(asked.number) {
        return Err(BookFault::NumberOutOfRange);
    }
    if !is_quantity(asked.quantity) {
        return Err(BookFault::QuantityOutOfRange);
    }
    let Some(standing) = find_order(book, asked.number) else {
        return Err(BookFault::NumberNotLive);
    };
    if !both_or_neither_market(standing.order.limit, asked.limit) {
        return Err(BookFault::Unpaired);
    }
    check_lawful(grid, Part::Limit, asked.limit)?;
    Ok(standing)
}
