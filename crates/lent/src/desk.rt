// A book as it lies in memory, and as it stands.
ghost use Rattle.std.specs.Prelude.{◌≡◌};
ghost use Rattle.trading.specs.Carried.{CountsFit};
ghost use Rattle.trading.specs.Desks.{book_of};
ghost use Rattle.lent.specs.Contents.{contents, laid, book_seen};

use rules::Order;
use trading::{Phase, State, StopOrder};

// The state and the three tables of a book; whoever makes the desk lends them. A table's first records, as many as its count in
// the state, are its queue.
#[derive(Drop)]
pub struct Desk<'a> {
    pub state: &'a mut State,
    pub buys: &'a mut [Order],
    pub sells: &'a mut [Order],
    pub stops: &'a mut [StopOrder],
}

// Three tables that are only read.
#[derive(Clone, Copy)]
pub struct Tables<'a> {
    pub buys: &'a [Order],
    pub sells: &'a [Order],
    pub stops: &'a [StopOrder],
}

// The book in a state's tables: its phase, its two prices, and its queues from the front.
#[derive(Clone, Copy)]
pub struct Book<'a> {
    pub phase: Phase,
    pub static_price: u32,
    pub last: u32,
    pub buys: &'a [Order],
    pub sells: &'a [Order],
    pub stops: &'a [StopOrder],
}

impl Desk<'_> {
    // The tables, to be read.
    pub fn tables(&self) -> Tables<'_>
        ensures { laid self.now.state.now result ≡ contents self.now }
    {
        Tables {
            buys: self.buys,
            sells: self.sells,
            stops: self.stops,
        }
    }

    // The book as it stands.
    pub fn book(&self) -> Book<'_>
        requires { CountsFit (contents self.now) }
        ensures { book_seen result ≡ book_of (contents self.now) }
    {
        self.tables().book(*self.state)
    }
}

impl<'a> Tables<'a> {
    // The book whose state this is.
    pub fn book(&self, state: State) -> Book<'a>
        requires { CountsFit (laid state self.now) }
        ensures { book_seen result ≡ book_of (laid state self.now) }
    {
        Book {
            phase: state.phase,
            static_price: state.static_price,
            last: state.last,
            buys: &self.buys[..state.buys],
            sells: &self.sells[..state.sells],
            stops: &self.stops[..state.stops],
        }
    }
}
