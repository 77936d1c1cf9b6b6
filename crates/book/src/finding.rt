// Where a record with a number stands.
ghost use Rattle.lent.specs.Contents.{book_seen};
ghost use Rattle.book.specs.Finding.{FoundBy};

use lent::Book;
use queue::find_number;

// A place in one of the three queues.
#[derive(Clone, Copy)]
pub enum Spot {
    Buys(usize),
    Sells(usize),
    Stops(usize),
}

// The first record with the number, looked for in buys, then sells, then stops.
pub fn find_record(book: &Book<'_>, number: u32) -> Option<Spot>
    ensures { FoundBy number (book_seen book.now) result }
{
    if let Some(i) = find_number(book.buys, number) {
        return Some(Spot::Buys(i));
    }
    if let Some(i) = find_number(book.sells, number) {
        return Some(Spot::Sells(i));
    }
    if let Some(i) = find_number(book.stops, number) {
        return Some(Spot::Stops(i));
    }
    None
}
