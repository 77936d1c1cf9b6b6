// Amending an order. Where one line is written, room for it is asked of the report at that moment.
ghost use Rattle.std.specs.Prelude.{◌≡◌, ◌+◌, ◌<◌, ◌≤◌, length};
ghost use Rattle.rules.specs.Candidates.{Grid};
ghost use Rattle.trading.specs.declared.request.Request.TheVariants.{Amend};
ghost use Rattle.trading.specs.Calls.{keeps_priority, lapse_above0};
ghost use Rattle.trading.specs.Desks.{book_of, capacity};
ghost use Rattle.lent.specs.Contents.{contents, page, Wrote, DeskKept, ReportKept, Kept};
ghost use Rattle.sessions.specs.Made.{Made};
ghost use Rattle.sweeping.specs.Beside.{venue};
ghost use Rattle.book.specs.Out.{Fit};
ghost use Rattle.book.specs.Amending.{Inside, desk_with, Stands, CutCame, AgainCame};

use crate::amendment::{Amendment, Standing, check_amendment};
use crate::answering::answer;
use crate::entering::enter_order;
use crate::finding::Spot;
use crate::ground::check_desk;
use crate::leaving::take_out;
use collar::Collar;
use grid::PriceGrid;
use lent::{Desk, Report};
use rules::Order;
use sweeping::release_stops;
use trading::{Answer, BookFault, Outcome, ReportLine};

// Whether an order keeps its priority: its limit stays, and its quantity does not grow.
fn keeps_priority(order: Order, asked: Amendment) -> bool
    ensures { result ≡ keeps_priority order asked.limit asked.quantity }
{
    order.limit == asked.limit && asked.quantity <= order.open
}

// Puts an order where it stands.
fn put_order(desk: &mut Desk<'_>, spot: Spot, order: Order)
    requires { Inside spot (contents desk.old) }
    ensures put { contents desk.new ≡ desk_with spot order (contents desk.old) }
    ensures kept { DeskKept desk.old desk.new }
{
    match spot {
        Spot::Buys(i) => desk.buys[i] = order,
        Spot::Sells(i) => desk.sells[i] = order,
        Spot::Stops(_) => {}
    }
}

// Writes the lapse of what is taken off an order, if anything is.
fn write_cut(report: &mut Report<'_>, number: u32, quantity: u32)
    requires { report.old.written < length report.old.lines.now }
    ensures wrote { Wrote (lapse_above0 number quantity) (page report.old) (page report.new) }
    ensures few { report.new.written ≤ report.old.written + 1 }
    ensures kept { ReportKept report.old report.new }
{
    if quantity != 0 {
        report.write(ReportLine::Lapse { number, quantity });
    }
}

// An order is cut where it stands; what is taken off lapses.
fn cut_order(desk: &mut Desk<'_>, report: &mut Report<'_>, standing: Standing, asked: Amendment)
    requires inside { Inside standing.spot (contents desk.old) }
    requires cut { asked.quantity ≤ standing.order.«open» }
    requires line { report.old.written < length report.old.lines.now }
    ensures cut { CutCame asked.number asked.quantity standing (contents desk.old) (page report.old) (contents desk.new) (page report.new) }
    ensures kept { Kept desk.old report.old desk.new report.new }
{
    let off = standing.order.open - asked.quantity;
    let cut = Order {
        open: asked.quantity,
        ..standing.order
    };
    put_order(desk, standing.spot, cut);
    write_cut(report, asked.number, off);
}

// The order that stands under the number leaves its queue and lapses, and enters anew with a new limit and quantity.
fn enter_again<C: Collar>(
    collar: &C,
    desk: &mut Desk<'_>,
    report: &mut Report<'_>,
    standing: Standing,
    asked: Amendment,
)
    requires fit { Fit (contents desk.old) }
    requires stands { Stands asked.number (book_of (contents desk.old)) standing }
    requires wide { report.old.written + capacity (contents desk.old) + 1 ≤ length report.old.lines.now }
    ensures again { (g : Grid) → AgainCame (venue g (C.allows collar.now)) asked.number asked.limit asked.quantity standing.order (contents desk.old) (page report.old) (contents desk.new) (page report.new) }
    ensures kept { Kept desk.old report.old desk.new report.new }
{
    let lapsed = take_out(desk, standing.spot);
    report.write(ReportLine::Lapse {
        number: asked.number,
        quantity: lapsed,
    });
    let renewed = Order {
        limit: asked.limit,
        open: asked.quantity,
        ..standing.order
    };
    enter_order(collar, desk, report, renewed);
}

// The order that stands under the number gets a new limit and quantity: it is cut where it stands, or it enters again. Then
// stops are released.
pub fn amend<G: PriceGrid, C: Collar>(
    grid: &G,
    collar: &C,
    desk: &mut Desk<'_>,
    report: &mut [ReportLine],
    number: u32,
    limit: u32,
    quantity: u32,
) -> Result<Answer, BookFault>
    ensures made { Made (G.lawful grid.now) (C.allows collar.now) (contents desk.old) (Amend number limit quantity) report.old result (contents desk.new) report.new }
    ensures kept { DeskKept desk.old desk.new }
{
    check_desk(desk, report)?;
    let asked = Amendment {
        number,
        limit,
        quantity,
    };
    let standing = check_amendment(grid, &desk.book(), asked)?;
    let mut lines = Report::new(report);
    if keeps_priority(standing.order, asked) {
        cut_order(desk, &mut lines, standing, asked);
        release_stops(collar, desk, &mut lines);
        return Ok(answer(desk, &lines, Outcome::PriorityKept));
    }
    enter_again(collar, desk, &mut lines, standing, asked);
    release_stops(collar, desk, &mut lines);
    Ok(answer(desk, &lines, Outcome::PriorityLost))
}
