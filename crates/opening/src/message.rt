// The printed line of a refusal.
use callbook::{BookFault, LineFault, OrderFault};
use collar::CollarFault;
use grid::{EvenFault, GridFault};
use script::ScriptFault;
use std::fmt;
use ticks::TableFault;

// Why the line at a place, counted from 0, cannot be used.
#[derive(Clone, Copy)]
pub struct Message {
    pub place: usize,
    pub fault: LineFault,
}

// What is told of a fault. The wording is this program's; the libraries name faults, and say nothing of them.
#[derive(Clone, Copy)]
enum Text {
    Plain(&'static str),
    // what is wrong with the word at a place from 1
    Word(usize, &'static str),
    // what is wrong with the row at a place from 0
    Row(usize, &'static str),
    // a limit, and what is wrong with it
    Limit(u32, &'static str, Nearest),
}

// The nearest lawful prices below and above a limit.
#[derive(Clone, Copy)]
struct Nearest {
    below: Option<u32>,
    above: Option<u32>,
}

impl fmt::Display for Message {
    fn fmt<W: fmt::Write>(&self, f: &mut fmt::Formatter<W>) -> fmt::Result {
        let line = self.place.saturating_add(1);
        write!(f, "line {line}: ")?;
        if let Some(number) = self.fault.refusal() {
            write!(f, "refused {number}: ")?;
        }
        write!(f, "{}", Text::from(self.fault))
    }
}

impl fmt::Display for Text {
    fn fmt<W: fmt::Write>(&self, f: &mut fmt::Formatter<W>) -> fmt::Result {
        match self {
            Text::Plain(text) => f.write_str(text),
            Text::Word(place, text) => write!(f, "word {place} {text}"),
            Text::Row(place, text) => write!(f, "row {} {text}", place.saturating_add(1)),
            Text::Limit(limit, text, nearest) => write!(f, "limit {limit} is {text}; {nearest}"),
        }
    }
}

impl fmt::Display for Nearest {
    fn fmt<W: fmt::Write>(&self, f: &mut fmt::Formatter<W>) -> fmt::Result {
        match (self.below, self.above) {
            (Some(low), Some(high)) => write!(f, "the nearest lawful prices are {low} and {high}"),
            (Some(price), None) | (None, Some(price)) => write!(
                f,
                "the nearest lawful price is {price}"
            ),
            (None, None) => f.write_str("no price is lawful"),
        }
    }
}

impl From<LineFault> for Text {
    fn from(fault: LineFault) -> Text {
        match fault {
            LineFault::Text(fault) => fault.into(),
            LineFault::Book(fault) => fault.into(),
        }
    }
}

impl From<ScriptFault> for Text {
    fn from(fault: ScriptFault) -> Text {
        match fault {
            ScriptFault::UnknownWord(place) => Text::Word(
                place,
                "is none of grid, collar, static, last, buy, sell, open",
            ),
            ScriptFault::MissingWord(place) => Text::Word(place, "is missing"),
            ScriptFault::ExpectedNumber(place) => Text::Word(
                place,
                "is not a number from 0 to 4294967295",
            ),
            ScriptFault::UnexpectedWord(place) => Text::Word(place, "cannot stand there"),
            ScriptFault::ExtraWord(place) => Text::Word(place, "is one too many"),
            ScriptFault::NoMemory => Text::Plain("there is no memory for the line"),
        }
    }
}

impl From<BookFault> for Text {
    fn from(fault: BookFault) -> Text {
        match fault {
            BookFault::NoGrid => Text::Plain("no grid is named yet"),
            BookFault::NoStaticPrice => Text::Plain("no static price is named yet"),
            BookFault::NoLastPrice => Text::Plain("no last price is named yet"),
            BookFault::OrdersStand => Text::Plain(
                "the grid cannot be changed while orders stand in the book",
            ),
            BookFault::EvenGridUnfit(fault) => fault.into(),
            BookFault::TickTableUnfit(fault) => fault.into(),
            BookFault::CollarUnfit(fault) => fault.into(),
            BookFault::NotPrice => Text::Plain("the price is not from 1 to 99999999"),
            BookFault::OrderUnfit(fault) => fault.into(),
            BookFault::BookFull => Text::Plain("the book holds 4096 orders"),
            BookFault::NoMemory => Text::Plain("there is no memory for the order"),
        }
    }
}

impl From<EvenFault> for Text {
    fn from(fault: EvenFault) -> Text {
        match fault {
            EvenFault::FirstNotPrice => Text::Plain(
                "the first price of the grid is not from 1 to 99999999",
            ),
            EvenFault::LastNotPrice => Text::Plain(
                "the last price of the grid is not from 1 to 99999999",
            ),
            EvenFault::ZeroStep => Text::Plain("the step is 0"),
            EvenFault::LastBelowFirst => Text::Plain(
                "the last price of the grid is below its first",
            ),
        }
    }
}

impl From<TableFault> for Text {
    fn from(fault: TableFault) -> Text {
        match fault {
            TableFault::NoRows => Text::Plain("the table has no rows"),
            TableFault::TooManyRows => Text::Plain("the table has more than 32 rows"),
            TableFault::StartNotPrice(place) => Text::Row(
                place,
                "does not start from 1 to 99999999",
            ),
            TableFault::RowZeroStep(place) => Text::Row(place, "has a step of 0"),
            TableFault::StartNotRising(place) => Text::Row(
                place,
                "does not start above the row before it",
            ),
            TableFault::EndNotPrice => Text::Plain("the end price is not from 1 to 99999999"),
            TableFault::EndBelowLastStart => Text::Plain(
                "the end price is below the start of the last row",
            ),
        }
    }
}

impl From<CollarFault> for Text {
    fn from(fault: CollarFault) -> Text {
        match fault {
            CollarFault::LowNotPrice => Text::Plain("the low price is not from 1 to 99999999"),
            CollarFault::HighNotPrice => Text::Plain("the high price is not from 1 to 99999999"),
            CollarFault::LowAboveHigh => Text::Plain("the low price is above the high price"),
            CollarFault::FactorTooLarge => Text::Plain("the factor is above 1000 thousandths"),
        }
    }
}

impl From<OrderFault> for Text {
    fn from(fault: OrderFault) -> Text {
        match fault {
            OrderFault::QuantityOutOfRange => Text::Plain("the quantity is not from 1 to 49999999"),
            OrderFault::NoLimit => Text::Plain("a limit order cannot have the limit 0"),
            OrderFault::LimitUnlawful {
                limit,
                fault,
                below,
                above,
            } => Text::Limit(limit, grid_text(fault), Nearest { below, above }),
        }
    }
}

// No Display: the words stand in the text of a limit.
fn grid_text(fault: GridFault) -> &'static str {
    match fault {
        GridFault::PastLast => "past the last lawful price",
        GridFault::BelowFirst => "below the first lawful price",
        GridFault::BetweenSteps => "between steps",
    }
}
