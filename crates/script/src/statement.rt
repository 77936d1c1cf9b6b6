// What a line of a call book can say, and what can be wrong with it.
ghost use Rattle.std.specs.Prelude.{◌≡◌};
ghost use Rattle.script.specs.declared.statement.ScriptFault.TheVariants.{NoMemory};

use rules::Side;
use std::alloc::AllocFailed;
use ticks::TickRow;

// No Option: an order at the market is a kind of its own, and not an order whose limit is missing.
#[derive(Clone, Copy)]
pub enum OrderPrice {
    Limit(u32),
    Market,
}

// A collar that stands by itself. Each k counts thousandths of a price.
#[derive(Clone, Copy)]
pub enum PlainCollar {
    Unlimited,
    FixedBand { low: u32, high: u32 },
    AroundLast { k: u32 },
}

#[derive(Clone, Copy)]
pub enum CollarWords {
    Plain(PlainCollar),
    // around the static price, laid over another collar
    AroundStatic { k: u32, over: PlainCollar },
}

#[derive(Drop)]
pub enum Statement {
    // no words, or a comment
    Blank,
    GridEven {
        first: u32,
        step: u32,
        last: u32,
    },
    GridTable {
        rows: Vec<TickRow>,
        end: u32,
    },
    GridDecade,
    Collar(CollarWords),
    Static(u32),
    Last(u32),
    Order {
        side: Side,
        quantity: u32,
        price: OrderPrice,
    },
    Open,
}

// What is wrong with a line. A word is told by its place in the line, counted from 1.
#[derive(Clone, Copy)]
pub enum ScriptFault {
    // the first word begins no statement
    UnknownWord(usize),
    // the line ends where a word has to stand
    MissingWord(usize),
    // the word is not a number from 0 to 4,294,967,295
    ExpectedNumber(usize),
    // the word cannot stand there
    UnexpectedWord(usize),
    // the statement is complete before the word
    ExtraWord(usize),
    NoMemory,
}

impl<T: Drop> From<AllocFailed<T>> for ScriptFault {
    ghost from_gives = { λ _ f. f ≡ NoMemory };

    fn from(_: AllocFailed<T>) -> ScriptFault {
        ScriptFault::NoMemory
    }
}
