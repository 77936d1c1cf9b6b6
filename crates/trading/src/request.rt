// The calls on a book, with what each brings.
use crate::Ticket;

// Where an uncrossing leads.
#[derive(Clone, Copy)]
pub enum Next {
    // into continuous trading
    Trading,
    // to the end of the book
    Close,
}

#[derive(Clone, Copy)]
pub enum Request {
    Enter(Ticket),
    // a new limit and a new quantity for an order
    Amend {
        number: u32,
        limit: u32,
        quantity: u32,
    },
    Cancel {
        number: u32,
    },
    // from continuous trading to a call
    Call,
    Uncross(Next),
    End,
}
