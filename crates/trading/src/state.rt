// What a book keeps beside its tables.

// Orders are gathered for an uncrossing; they meet as they come; nothing is taken any more.
#[derive(Clone, Copy)]
pub enum Phase {
    Call,
    Continuous,
    Ended,
}

#[derive(Clone, Copy)]
pub struct State {
    pub phase: Phase,
    // how many records stand in each table's queue
    pub buys: usize,
    pub sells: usize,
    pub stops: usize,
    // the price of the latest uncrossing that printed one, or the opening price
    pub static_price: u32,
    // the price of the latest trade, or the opening price
    pub last: u32,
}
