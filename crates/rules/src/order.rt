// Orders as they stand in a book.
ghost use Rattle.std.specs.Prelude.{◌≡◌};
ghost use Rattle.rules.specs.Accepts.{accepts_buying, accepts_selling};

#[derive(Clone, Copy, PartialEq, Eq)]
pub enum Side {
    Buy,
    Sell,
}

// How long an order stays: the day, immediate or cancel, or valid for the next uncrossing only.
#[derive(Clone, Copy)]
pub enum Validity {
    Day,
    Ioc,
    Vfu,
}

// An order: a limit of 0 makes it a market order, and `open` is the quantity that has not traded yet. The limit is no Option, since
// orders lie in memory that a venue lends, and any number may stand there.
#[derive(Clone, Copy)]
pub struct Order {
    pub number: u32,
    pub side: Side,
    pub limit: u32,
    pub open: u32,
    pub validity: Validity,
}

// Two functions, and no side is asked: the list in which an order stands says what it counts for, and not its own side.
impl Order {
    // Whether the order, standing among the buys, accepts a price: it is a market order, or limited at or above the price.
    pub fn accepts_buying(&self, price: u32) -> bool
        ensures { result ≡ accepts_buying price self.now }
    {
        self.limit == 0 || price <= self.limit
    }

    // Whether the order, standing among the sells, accepts a price: it is a market order, or limited at or below the price.
    pub fn accepts_selling(&self, price: u32) -> bool
        ensures { result ≡ accepts_selling price self.now }
    {
        self.limit == 0 || self.limit <= price
    }
}
