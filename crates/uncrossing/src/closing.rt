// To the end of the book. What is asked of tables and report holds at one moment; neither could hold it by itself. The state comes by value
// beside tables that are only read.
ghost use Rattle.std.specs.Prelude.{◌≡◌, ℕ, ◌++◌, length};
ghost use Rattle.trading.specs.Desks.{desk_of, book_of};
ghost use Rattle.trading.specs.Moves.{Ready};
ghost use Rattle.trading.specs.Sweeps.{moved};
ghost use Rattle.trading.specs.Uncrossings.{pairs, all_lapses, emptied, printed_at};
ghost use Rattle.lent.specs.Contents.{laid, page, Wrote, ReportKept};
ghost use Rattle.lent.specs.Moves.{Comes};
ghost use Rattle.uncrossing.specs.Fits.{AllFit, RestFits, StopsFit};
ghost use Rattle.uncrossing.specs.Fronts.{InFront};
ghost use Rattle.uncrossing.specs.Prints.{book_from};

use crate::lapsing::write_lapses;
use crate::pairing::Met;
use crate::printing::print_price;
use lent::{Desk, Report, Tables};
use rules::Order;
use trading::{Phase, State, StopOrder};

// Writes a lapse line for all that is left of the queues, and for the stops.
fn lapse_rest(met: Met, state: State, tables: &Tables<'_>, report: &mut Report<'_>)
    requires orders { RestFits met (laid state tables.now) (page report.old) }
    requires stops { StopsFit met (laid state tables.now) (page report.old) }
    ensures wrote { Wrote (all_lapses (book_from met (laid state tables.now))) (page report.old) (page report.new) }
    ensures kept { ReportKept report.old report.new }
{
    write_lapses(&tables.buys[met.buys..state.buys], report);
    write_lapses(&tables.sells[met.sells..state.sells], report);
    write_lapses(&tables.stops[..state.stops], report);
}

// All that is left of the queues lapses, and the stops. Answers the state of the ended book.
fn close_rest(met: Met, state: State, tables: &Tables<'_>, report: &mut Report<'_>) -> State
    requires orders { RestFits met (laid state tables.now) (page report.old) }
    requires stops { StopsFit met (laid state tables.now) (page report.old) }
    ensures came { let d = laid state tables.now in
        ((n : ℕ) → Comes n (moved (emptied (book_from met d)) (all_lapses (book_from met d))) d (page report.old) (laid result tables.now) (page report.new)) }
    ensures kept { ReportKept report.old report.new }
{
    lapse_rest(met, state, tables, report);
    State {
        phase: Phase::Ended,
        buys: 0,
        sells: 0,
        stops: 0,
        static_price: state.static_price,
        last: state.last,
    }
}

// Without a price: everything lapses. Answers the state of the ended book.
pub fn close_unprinted(state: State, tables: &Tables<'_>, report: &mut Report<'_>) -> State
    requires { AllFit (laid state tables.now) (page report.old) }
    ensures came { let d = laid state tables.now in
        ((n : ℕ) → Comes n (moved (emptied (book_of d)) (all_lapses (book_of d))) d (page report.old) (laid result tables.now) (page report.new)) }
    ensures kept { ReportKept report.old report.new }
{
    close_rest(Met::default(), state, tables, report)
}

// The price is printed; then everything lapses, and the book is ended. The stops are only read, so that no desk is lent; with that, and what
// follows the price, this is no twin of the way into continuous trading.
pub fn print_and_close(
    price: u32,
    state: &mut State,
    buys: &mut [Order],
    sells: &mut [Order],
    stops: &[StopOrder],
    report: &mut Report<'_>,
)
    requires fit { AllFit (desk_of state.old buys.old sells.old stops.now) (page report.old) }
    requires fronts { let b = book_of (desk_of state.old buys.old sells.old stops.now) in InFront price b.buys b.sells }
    ensures came { let d = desk_of state.old buys.old sells.old stops.now in
        let b = book_of d in
        ((n : ℕ) → Ready n d (length report.old.lines.now) report.old.written 0 → Comes n (moved (emptied (printed_at price b)) ((pairs price b.buys b.sells).trades ++ all_lapses (printed_at price b))) d (page report.old) (desk_of state.new buys.new sells.new stops.now) (page report.new)) }
    ensures kept { ReportKept report.old report.new }
{
    let mut desk = Desk {
        state: &mut *state,
        buys: &mut *buys,
        sells: &mut *sells,
        stops: &mut [],
    };
    let met = print_price(price, &mut desk, report);
    *state = close_rest(met, *state, &Tables { buys, sells, stops }, report);
}
