// Entering an order or a stop. `Roomy` is asked of a desk and a report at one moment; neither could hold it by itself. The collar is only
// read and the order comes by value: neither lies on the desk.
ghost use Rattle.std.specs.Prelude.{◌≡◌, ◌<◌, not, ◌&&◌, length};
ghost use Rattle.rules.specs.Candidates.{Grid};
ghost use Rattle.trading.specs.declared.request.Request.TheVariants.{Enter};
ghost use Rattle.trading.specs.Books.{is_continuous, is_vfu};
ghost use Rattle.trading.specs.Calls.{enters_as, entered};
ghost use Rattle.trading.specs.Desks.{book_of, capacity};
ghost use Rattle.lent.specs.Contents.{contents, page, DeskKept, Kept};
ghost use Rattle.lent.specs.Moves.{ReadyFor, Comes};
ghost use Rattle.sessions.specs.Made.{Made};
ghost use Rattle.sweeping.specs.Beside.{venue, Roomy, Moves};
ghost use Rattle.book.specs.Entering.{StopCame};

use crate::answering::answer;
use crate::entry::{check_queues, is_stop};
use crate::ground::{capacity_on, check_desk};
use checks::check_ticket;
use collar::Collar;
use grid::PriceGrid;
use lent::{Desk, Report};
use queue::join_table;
use rules::{Order, Validity};
use sweeping::{join_order, release_stops, sweep_order};
use trading::{Answer, BookFault, Outcome, Phase, ReportLine, StopOrder, Ticket};

// Whether an order that enters sweeps at once; else it only joins its queue.
fn sweeps_at_once(phase: Phase, validity: Validity) -> bool
    ensures { result ≡ is_continuous phase && not (is_vfu validity) }
{
    matches!(phase, Phase::Continuous) && !matches!(validity, Validity::Vfu)
}

// An order enters.
pub fn enter_order<C: Collar>(
    collar: &C,
    desk: &mut Desk<'_>,
    report: &mut Report<'_>,
    order: Order,
)
    requires { Roomy (contents desk.old) (page report.old) }
    ensures entered { (g : Grid) → Moves (enters_as (venue g (C.allows collar.now)) order) (contents desk.old) (page report.old) (contents desk.new) (page report.new) }
    ensures kept { Kept desk.old report.old desk.new report.new }
{
    if sweeps_at_once(desk.state.phase, order.validity) {
        sweep_order(collar, desk, report, order);
    } else {
        join_order(desk, order);
    }
}

// A stop joins the stops.
fn join_stop(desk: &mut Desk<'_>, stop: StopOrder)
    requires { desk.old.state.now.stops < length desk.old.stops.now }
    ensures joined { StopCame stop (contents desk.old) (contents desk.new) }
    ensures kept { DeskKept desk.old desk.new }
{
    join_table(desk.stops, desk.state.stops, stop);
    desk.state.stops += 1;
}

// A ticket enters as a stop or as an order.
fn enter_ticket<C: Collar>(collar: &C, desk: &mut Desk<'_>, report: &mut Report<'_>, ticket: Ticket)
    requires { ReadyFor 1 (contents desk.old) (page report.old) }
    ensures entered { let d = contents desk.old in
        ((g : Grid) → Comes (capacity d) (entered (venue g (C.allows collar.now)) ticket (book_of d)) d (page report.old) (contents desk.new) (page report.new)) }
    ensures kept { Kept desk.old report.old desk.new report.new }
{
    if is_stop(ticket.kind) {
        join_stop(desk, StopOrder::from(ticket));
    } else {
        enter_order(collar, desk, report, Order::from(ticket));
    }
}

// A ticket enters, and stops are released.
pub fn enter<G: PriceGrid, C: Collar>(
    grid: &G,
    collar: &C,
    desk: &mut Desk<'_>,
    report: &mut [ReportLine],
    ticket: Ticket,
) -> Result<Answer, BookFault>
    ensures made { Made (G.lawful grid.now) (C.allows collar.now) (contents desk.old) (Enter ticket) report.old result (contents desk.new) report.new }
    ensures kept { DeskKept desk.old desk.new }
{
    check_desk(desk, report)?;
    check_ticket(grid, desk.state.phase, ticket)?;
    check_queues(collar, &desk.book(), capacity_on(desk), ticket)?;
    let mut lines = Report::new(report);
    enter_ticket(collar, desk, &mut lines, ticket);
    release_stops(collar, desk, &mut lines);
    Ok(answer(desk, &lines, Outcome::Accepted))
}
