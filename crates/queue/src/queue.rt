// A queue on a table that is lent.
ghost use Rattle.std.specs.Prelude.{◌≤◌, length};

mod moves;

// The first `count` records of a table; whoever makes the queue lends the table, so it is a slice with a count and no Vec.
#[derive(Drop)]
pub struct Queue<'a, R> {
    records: &'a mut [R],
    count: usize,
    ghost within: { count ≤ length records.now },
}
