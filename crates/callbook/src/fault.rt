// Why a line of a call book is refused.
ghost use Rattle.std.specs.Prelude.{◌≡◌};
ghost use Rattle.callbook.specs.Numbers.{refusal_of};
ghost use Rattle.callbook.specs.declared.fault.BookFault.TheVariants.{EvenGridUnfit, TickTableUnfit, CollarUnfit, OrderUnfit, NoMemory};

use crate::OrderFault;
use collar::CollarFault;
use grid::EvenFault;
use std::alloc::AllocFailed;
use ticks::TableFault;

#[derive(Clone, Copy)]
pub enum BookFault {
    // an order or an opening before a grid was named
    NoGrid,
    // an opening before a static price, or a last price, was named
    NoStaticPrice,
    NoLastPrice,
    // a grid is named while orders stand in the book
    OrdersStand,
    EvenGridUnfit(EvenFault),
    TickTableUnfit(TableFault),
    CollarUnfit(CollarFault),
    // a static or last price that is not a price
    NotPrice,
    OrderUnfit(OrderFault),
    // the book holds as many orders as it takes
    BookFull,
    NoMemory,
}

impl BookFault {
    // The number of the refusal, if the fault is one of those that have a number.
    pub(crate) fn refusal(&self) -> Option<u8>
        ensures { result ≡ refusal_of self.now }
    {
        match self {
            BookFault::OrderUnfit(OrderFault::QuantityOutOfRange) => Some(2),
            BookFault::OrderUnfit(OrderFault::NoLimit) => Some(3),
            BookFault::OrderUnfit(OrderFault::LimitUnlawful { .. }) => Some(4),
            BookFault::EvenGridUnfit(_)
            | BookFault::TickTableUnfit(_)
            | BookFault::CollarUnfit(_)
            | BookFault::NotPrice => Some(5),
            BookFault::BookFull => Some(25),
            BookFault::NoGrid
            | BookFault::NoStaticPrice
            | BookFault::NoLastPrice
            | BookFault::OrdersStand
            | BookFault::NoMemory => None,
        }
    }
}

// Each From is written out, so that a clause can name the fault that a `?` makes.
impl From<EvenFault> for BookFault {
    ghost from_gives = { λ e f. f ≡ EvenGridUnfit e };

    fn from(fault: EvenFault) -> BookFault {
        BookFault::EvenGridUnfit(fault)
    }
}

impl From<TableFault> for BookFault {
    ghost from_gives = { λ e f. f ≡ TickTableUnfit e };

    fn from(fault: TableFault) -> BookFault {
        BookFault::TickTableUnfit(fault)
    }
}

impl From<CollarFault> for BookFault {
    ghost from_gives = { λ e f. f ≡ CollarUnfit e };

    fn from(fault: CollarFault) -> BookFault {
        BookFault::CollarUnfit(fault)
    }
}

impl From<OrderFault> for BookFault {
    ghost from_gives = { λ e f. f ≡ OrderUnfit e };

    fn from(fault: OrderFault) -> BookFault {
        BookFault::OrderUnfit(fault)
    }
}

impl<T: Drop> From<AllocFailed<T>> for BookFault {
    ghost from_gives = { λ _ f. f ≡ NoMemory };

    fn from(_: AllocFailed<T>) -> BookFault {
        BookFault::NoMemory
    }
}
