// The release of stops.
ghost use Rattle.std.specs.Prelude.{◌≡◌, ◌<◌, ◌≤◌, length, take};
ghost use Rattle.rules.specs.Candidates.{Grid};
ghost use Rattle.lent.specs.Contents.{contents, book_seen, page, Kept};
ghost use Rattle.trading.specs.Sweeps.{reached, release_all};
ghost use Rattle.trading.specs.Desks.{book_of, capacity};
ghost use Rattle.queue.specs.Places.{FirstFound};
ghost use Rattle.lent.specs.Moves.{ReadyFor, Comes};
ghost use Rattle.sweeping.specs.Beside.{venue, Roomy};
ghost use Rattle.sweeping.specs.Releases.{DueAt, ReleasedAt};

use super::meet::is_within;
use super::orders::sweep_order;
use collar::Collar;
use lent::{Book, Desk, Report};
use queue::leave_table;
use rules::Order;
use trading::{Phase, StopOrder};

// Whether a stop is reached: a buy when the last price is at or above its trigger, a sell when it is at or below.
pub fn is_reached(stop: StopOrder, last: u32) -> bool
    ensures { result ≡ reached last stop }
{
    is_within(stop.side, last, stop.trigger)
}

// Where the first reached stop of a queue stands.
pub fn first_reached(stops: &[StopOrder], last: u32) -> Option<usize>
    ensures { FirstFound (reached last) stops.now result }
{
    stops.iter().position(|stop| is_reached(*stop, last))
}

// Where the stop that is due stands: the first reached one, in continuous trading.
pub fn find_due(book: &Book<'_>) -> Option<usize>
    ensures { DueAt (book_seen book.now) result }
{
    match book.phase {
        Phase::Call => None,
        Phase::Continuous => first_reached(book.stops, book.last),
        Phase::Ended => None,
    }
}

// The stop at `i` leaves its queue, and sweeps as a day order.
pub fn release_at<C: Collar>(collar: &C, desk: &mut Desk<'_>, report: &mut Report<'_>, i: usize)
    requires roomy { Roomy (contents desk.old) (page report.old) }
    requires held { i < desk.old.state.now.stops }
    requires inside { desk.old.state.now.stops ≤ length desk.old.stops.now }
    ensures released { ReleasedAt (C.allows collar.now) i (contents desk.old) (page report.old) (contents desk.new) (page report.new) }
    ensures kept { Kept desk.old report.old desk.new report.new }
{
    let stop = desk.stops[i];
    leave_table(desk.stops, desk.state.stops, i);
    desk.state.stops -= 1;
    sweep_order(collar, desk, report, Order::from(stop));
}

// While a stop is due, it is released.
pub fn release_stops<C: Collar>(collar: &C, desk: &mut Desk<'_>, report: &mut Report<'_>)
    requires { ReadyFor 0 (contents desk.old) (page report.old) }
    ensures released { let d = contents desk.old in
        ((g : Grid) → Comes (capacity d) (release_all (venue g (C.allows collar.now)) (book_of d)) d (page report.old) (contents desk.new) (page report.new)) }
    ensures kept { Kept desk.old report.old desk.new report.new }
{
    'releases: while let Some(i) = find_due(&desk.book()) {
        release_at(collar, desk, report, i);
    }
}
