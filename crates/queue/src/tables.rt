// Queues by their table and count: the count stands in the state of a book, apart from the table.
ghost use Rattle.std.specs.Prelude.{◌≡◌, ◌+◌, ◌-◌, ◌<◌, ◌≤◌, length, take, drop, nat_eq};
ghost use Rattle.std.specs.List.{remove};
ghost use Rattle.trading.specs.Queues.{joined};
ghost use Rattle.queue.specs.Places.{FirstFound};

use crate::{Numbered, Queue, Ranked};

// Where the first record with a number stands in a queue.
pub fn find_number<R: Numbered>(queue: &[R], number: u32) -> Option<usize>
    ensures { FirstFound (λ x. nat_eq (R.tag x) number) queue.now result }
{
    queue.iter().position(|x| x.number() == number)
}

// A record joins the queue of the first `count` records of a table.
pub fn join_table<R: Ranked + Copy>(table: &mut [R], count: usize, r: R)
    requires { count < length table.old }
    ensures queue { take (count + 1) table.new ≡ joined R.ahead r (take count table.old) }
    ensures beyond { drop (count + 1) table.new ≡ drop (count + 1) table.old }
{
    let mut queue = Queue::new(table, count);
    queue.join(r);
}

// The record at a place leaves the queue of the first `count` records of a table.
pub fn leave_table<R: Ranked + Copy>(table: &mut [R], count: usize, i: usize)
    requires { (i < count) × (count ≤ length table.old) }
    ensures queue { take (count - 1) table.new ≡ remove (take count table.old) i }
    ensures beyond { drop count table.new ≡ drop count table.old }
{
    let mut queue = Queue::new(table, count);
    queue.leave(i);
}
