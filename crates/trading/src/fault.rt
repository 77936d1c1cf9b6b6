// Why a call is refused.
ghost use Rattle.std.specs.Prelude.{◌≡◌};
ghost use Rattle.trading.specs.Numbers.{refusal_number, as_book_fault};

use grid::GridFault;

#[derive(Clone, Copy)]
pub enum BookFault {
    NumberOutOfRange,
    QuantityOutOfRange,
    // kind, limit, trigger and validity do not go together
    Unpaired,
    LimitUnlawful(GridFault),
    TriggerUnlawful(GridFault),
    // the opening price of a new book is not a price
    OpeningNotPrice,
    ReportTooShort,
    NotWellFormed,
    WrongPhase,
    NumberLive,
    NumberNotLive,
    BookFull,
    StopReached,
    // an order that is immediate or cancel, with nobody to meet at a price that the collar allows
    NoFirstTrade,
}

// What of a ticket or an amendment is to be a lawful price.
#[derive(Clone, Copy)]
pub enum Part {
    Limit,
    Trigger,
}

// A part that is not lawful, and what the grid says of it.
#[derive(Clone, Copy)]
pub struct Unlawful {
    pub part: Part,
    pub fault: GridFault,
}

impl From<Unlawful> for BookFault {
    ghost from_gives = { λ u f. f ≡ as_book_fault u };

    fn from(unlawful: Unlawful) -> BookFault {
        match unlawful.part {
            Part::Limit => BookFault::LimitUnlawful(unlawful.fault),
            Part::Trigger => BookFault::TriggerUnlawful(unlawful.fault),
        }
    }
}

impl BookFault {
    // The number of the refusal, as it is told; two faults have one number, so it is no discriminant.
    pub fn number(&self) -> u8
        ensures { result ≡ refusal_number self.now }
    {
        match self {
            BookFault::NumberOutOfRange => 1,
            BookFault::QuantityOutOfRange => 2,
            BookFault::Unpaired => 3,
            BookFault::LimitUnlawful(_) | BookFault::TriggerUnlawful(_) => 4,
            BookFault::OpeningNotPrice => 5,
            BookFault::ReportTooShort => 6,
            BookFault::NotWellFormed => 21,
            BookFault::WrongPhase => 22,
            BookFault::NumberLive => 23,
            BookFault::NumberNotLive => 24,
            BookFault::BookFull => 25,
            BookFault::StopReached => 26,
            BookFault::NoFirstTrade => 27,
        }
    }
}
