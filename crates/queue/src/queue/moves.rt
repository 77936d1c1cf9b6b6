// What a queue does.
ghost use Rattle.std.specs.Prelude.{◌≡◌, ◌<◌, ◌≤◌, length, nat_eq};
ghost use Rattle.rules.specs.Auctions.{total};
ghost use Rattle.queue.specs.Places.{first_place, FirstFound};
ghost use Rattle.queue.specs.Lent.{listed, room, Joined, Left, Replaced};

use super::Queue;
use crate::{Numbered, Ranked, find_number};

// Where a record joins a queue: before the first record that it is ahead of, else at the end.
fn place_of<R: Ranked>(queue: &[R], r: &R) -> usize
    ensures place { result ≡ first_place (R.ahead r.now) queue.now }
    ensures within { result ≤ length queue.now }
{
    queue
        .iter()
        .position(|x| r.precedes(x))
        .unwrap_or(queue.len())
}

impl<'a, R: Ranked + Copy> Queue<'a, R> {
    // The queue of the first `count` records of a table; the count stands in the state of a book, apart from the table.
    pub fn new(records: &'a mut [R], count: usize) -> Queue<'a, R>
        requires { count ≤ length records.old }
        ensures records { result.records.now ≡ records.old }
        ensures count { result.count ≡ count }
        ensures lender { result.records.ghost_name ≡ records.entry.ghost_name }
    {
        Queue { records, count }
    }

    pub fn len(&self) -> usize
        ensures { result ≡ self.now.count }
    {
        self.count
    }

    // The records, from the front.
    pub fn as_slice(&self) -> &[R]
        ensures queue { result.now ≡ listed self.now }
        ensures size { length result.now ≡ self.now.count }
    {
        &self.records[..self.count]
    }

    // The sum of the quantities.
    pub fn total(&self) -> u128
        ensures { result ≡ total R.amount (listed self.now) }
    {
        self.as_slice()
            .iter()
            .map(|x| u128::from(x.quantity()))
            .sum()
    }

    // A record joins, before the first that it is ahead of, else at the end.
    pub fn join(&mut self, r: R)
        requires { self.old.count < room self.old }
        ensures { Joined R.ahead r self.old self.new }
    {
        let at = place_of(self.as_slice(), &r);
        self.records.copy_within(at..self.count, at + 1);
        self.records[at] = r;
        self.count += 1;
    }

    // The record at a place leaves, and those behind it move up.
    pub fn leave(&mut self, i: usize)
        requires { i < self.old.count }
        ensures { Left R.ahead i self.old self.new }
    {
        self.records.copy_within(i + 1..self.count, i);
        self.count -= 1;
    }

    // The record at a place gives way to another.
    pub fn replace(&mut self, i: usize, r: R)
        requires { i < self.old.count }
        ensures { Replaced i r self.old self.new }
    {
        self.records[i] = r;
    }
}

impl<'a, R: Ranked + Numbered + Copy> Queue<'a, R> {
    // Where the first record with a number stands.
    pub fn find(&self, number: u32) -> Option<usize>
        ensures { FirstFound (λ x. nat_eq (R.tag x) number) (listed self.now) result }
    {
        find_number(self.as_slice(), number)
    }
}
