// A call book: the grid, the collar and the two reference prices that were named, and the orders that stand in it.
ghost use Rattle.std.specs.Prelude.{◌≡◌, Ok, Err, MatchBool, MatchResult};
ghost use Rattle.grid.specs.Prices.{is_price};
ghost use Rattle.callbook.specs.Desks.{Fresh, no_orders, with_grid, with_collar, with_static, with_last, Guarded};
ghost use Rattle.callbook.specs.Lines.{with_order, OrderOn, AuctionHeld};
ghost use Rattle.callbook.specs.declared.fault.BookFault.TheVariants.{OrdersStand, NotPrice, NoMemory};

use crate::BookFault;
use crate::order_check::check_order;
use crate::orders::validity_of;
use collar::{AnyCollar, FixedBand};
use grid::is_price;
use pricing::opening_price;
use rules::{Opening, Order, Side};
use script::OrderPrice;
use std::alloc::Global;
use std::marker::Model;
use ticks::AnyGrid;

// How many orders a call book holds.
const CAPACITY: usize = 4_096;

// The number, which has to be a price.
fn checked_price(price: u32) -> Result<u32, BookFault>
    ensures { MatchBool (is_price price) (result ≡ Ok price) (result ≡ Err NotPrice) }
{
    is_price(price).then_some(price).ok_or(BookFault::NotPrice)
}

#[derive(Drop)]
pub struct CallBook {
    grid: Option<AnyGrid>,
    collar: AnyCollar,
    static_price: Option<u32>,
    last: Option<u32>,
    buys: Vec<Order>,
    sells: Vec<Order>,
}

// A book is seen as what it holds, whatever room its lists have.
impl Model for CallBook {
    ghost use Rattle.std.specs.Prelude.{vec_items};
    ghost use Rattle.callbook.specs.Desks.{Desk};

    ghost Value = { Desk };

    ghost view = { λ b. record { grid = b.grid; collar = b.collar; static_price = b.static_price; last = b.last; buys = vec_items b.buys; sells = vec_items b.sells } };
}

impl CallBook {
    // A book in which nothing is named and no order stands; every price is allowed.
    pub fn new(heap: Global) -> CallBook
        ensures { Fresh result }
    {
        CallBook {
            grid: None,
            collar: AnyCollar::Band(FixedBand::widest()),
            static_price: None,
            last: None,
            buys: Vec::new(heap),
            sells: Vec::new(heap),
        }
    }

    // Names the grid, unless orders stand in the book.
    pub(crate) fn set_grid(&mut self, grid: AnyGrid) -> Result<(), BookFault>
        ensures { Guarded (no_orders self.old) OrdersStand self.old (with_grid grid self.old) result self.new }
    {
        if !self.buys.is_empty() || !self.sells.is_empty() {
            return Err(BookFault::OrdersStand);
        }
        self.grid = Some(grid);
        Ok(())
    }

    // Names the collar.
    pub(crate) fn set_collar(&mut self, collar: AnyCollar)
        ensures { self.new ≡ with_collar collar self.old }
    {
        self.collar = collar;
    }

    // Names the static price.
    pub(crate) fn set_static_price(&mut self, price: u32) -> Result<(), BookFault>
        ensures { Guarded (is_price price) NotPrice self.old (with_static price self.old) result self.new }
    {
        self.static_price = Some(checked_price(price)?);
        Ok(())
    }

    // Names the last price; the two differ in the field that they write.
    pub(crate) fn set_last_price(&mut self, price: u32) -> Result<(), BookFault>
        ensures { Guarded (is_price price) NotPrice self.old (with_last price self.old) result self.new }
    {
        self.last = Some(checked_price(price)?);
        Ok(())
    }

    // Lets an order stand behind those of its side.
    fn push(&mut self, side: Side, order: Order) -> Result<(), BookFault>
        ensures { MatchResult result (λ _. self.new ≡ with_order side order self.old) (λ f. (f ≡ NoMemory) × (self.new ≡ self.old)) }
    {
        match side {
            Side::Buy => self.buys.push(order)?,
            Side::Sell => self.sells.push(order)?,
        }
        Ok(())
    }

    // Adds an order: the quantity is checked, then the limit on the grid, then whether there is room.
    pub(crate) fn add_order(
        &mut self,
        side: Side,
        quantity: u32,
        price: OrderPrice,
    ) -> Result<(), BookFault>
        ensures { OrderOn self.old.grid self.old side quantity price result self.new }
    {
        let grid = self.grid.ok_or(BookFault::NoGrid)?;
        let limit = check_order(&grid, quantity, price)?;
        let held = self.buys.len() + self.sells.len();
        if held >= CAPACITY {
            return Err(BookFault::BookFull);
        }
        self.push(
            side,
            Order {
                number: held as u32 + 1,
                side,
                limit,
                open: quantity,
                validity: validity_of(price),
            },
        )
    }

    // Holds the auction, and takes all orders out of the book.
    pub(crate) fn open(&mut self) -> Result<Opening, BookFault>
        ensures { AuctionHeld self.old result self.new }
    {
        let grid = self.grid.ok_or(BookFault::NoGrid)?;
        let static_price = self.static_price.ok_or(BookFault::NoStaticPrice)?;
        let last = self.last.ok_or(BookFault::NoLastPrice)?;
        let outcome = opening_price(
            &grid,
            &self.collar,
            static_price,
            last,
            &self.buys,
            &self.sells,
        )
        .map_err(|_| BookFault::BookFull)?;
        self.buys.clear();
        self.sells.clear();
        Ok(outcome)
    }
}
