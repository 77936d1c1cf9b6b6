// A new book.
ghost use Rattle.book.specs.Making.{MadeNew};

use grid::is_price;
use trading::{BookFault, Phase, State};

// The state of an empty book in call: the opening price is its static and its last price. Its tables may hold anything.
pub fn new_book(opening_price: u32) -> Result<State, BookFault>
    ensures { MadeNew opening_price result }
{
    if !is_price(opening_price) {
        return Err(BookFault::OpeningNotPrice);
    }
    Ok(State {
        phase: Phase::Call,
        buys: 0,
        sells: 0,
        stops: 0,
        static_price: opening_price,
        last: opening_price,
    })
}
