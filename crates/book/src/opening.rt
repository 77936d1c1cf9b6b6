// What follows the price of an uncrossing. `Openable` is asked of a desk and a report at one moment; neither could hold it by itself.
ghost use Rattle.std.specs.Prelude.{ℕ, ◌++◌};
ghost use Rattle.rules.specs.Candidates.{Grid};
ghost use Rattle.trading.specs.Desks.{book_of, capacity};
ghost use Rattle.trading.specs.Sweeps.{moved, then_released};
ghost use Rattle.trading.specs.Uncrossings.{pairs, vfu_lapses, without_vfu, all_lapses, emptied, printed_at};
ghost use Rattle.lent.specs.Contents.{contents, page, Kept};
ghost use Rattle.lent.specs.Moves.{Comes};
ghost use Rattle.sweeping.specs.Beside.{venue};
ghost use Rattle.uncrossing.specs.Fits.{AllFit};
ghost use Rattle.book.specs.Opened.{Openable, OpeningCame};

use collar::Collar;
use lent::{Desk, Report};
use rules::Opening;
use sweeping::release_stops;
use trading::Next;
use uncrossing::{close_unprinted, open_unprinted, print_and_close, print_and_open};

// No price, into continuous trading: the VFU orders lapse, then stops are released.
fn open_without_price<C: Collar>(collar: &C, desk: &mut Desk<'_>, report: &mut Report<'_>)
    requires { Openable (contents desk.old) (page report.old) }
    ensures came { let d = contents desk.old in
        ((g : Grid) → Comes (capacity d) (then_released (venue g (C.allows collar.now)) (moved (without_vfu (book_of d)) (vfu_lapses (book_of d)))) d (page report.old) (contents desk.new) (page report.new)) }
    ensures kept { Kept desk.old report.old desk.new report.new }
{
    open_unprinted(desk, report);
    release_stops(collar, desk, report);
}

// The trades at the price come first.
fn open_at_price<C: Collar>(collar: &C, desk: &mut Desk<'_>, report: &mut Report<'_>, price: u32)
    requires { Openable (contents desk.old) (page report.old) }
    ensures came { let d = contents desk.old in
        let b = book_of d in
        ((g : Grid) → Comes (capacity d) (then_released (venue g (C.allows collar.now)) (moved (without_vfu (printed_at price b)) ((pairs price b.buys b.sells).trades ++ vfu_lapses (printed_at price b)))) d (page report.old) (contents desk.new) (page report.new)) }
    ensures kept { Kept desk.old report.old desk.new report.new }
{
    print_and_open(price, desk, report);
    release_stops(collar, desk, report);
}

// No price, to the end of the book: everything lapses.
pub fn close_without_price(desk: &mut Desk<'_>, report: &mut Report<'_>)
    requires { AllFit (contents desk.old) (page report.old) }
    ensures came { let d = contents desk.old in
        ((n : ℕ) → Comes n (moved (emptied (book_of d)) (all_lapses (book_of d))) d (page report.old) (contents desk.new) (page report.new)) }
    ensures kept { Kept desk.old report.old desk.new report.new }
{
    *desk.state = close_unprinted(*desk.state, &desk.tables(), report);
}

// The trades at the price come first.
fn close_at_price(desk: &mut Desk<'_>, report: &mut Report<'_>, price: u32)
    requires { Openable (contents desk.old) (page report.old) }
    ensures came { let d = contents desk.old in
        let b = book_of d in
        Comes (capacity d) (moved (emptied (printed_at price b)) ((pairs price b.buys b.sells).trades ++ all_lapses (printed_at price b))) d (page report.old) (contents desk.new) (page report.new) }
    ensures kept { Kept desk.old report.old desk.new report.new }
{
    // the stops are only read there, but no part of a desk is lent to be read while another is lent to be written
    print_and_close(
        price,
        desk.state,
        desk.buys,
        desk.sells,
        &mut *desk.stops,
        report,
    );
}

// Carries out what the price, or its want, comes to.
pub fn carry_out_opening<C: Collar>(
    collar: &C,
    desk: &mut Desk<'_>,
    report: &mut Report<'_>,
    opening: Opening,
    next: Next,
)
    requires { Openable (contents desk.old) (page report.old) }
    ensures came { OpeningCame (C.allows collar.now) next opening (contents desk.old) (page report.old) (contents desk.new) (page report.new) }
    ensures kept { Kept desk.old report.old desk.new report.new }
{
    match (opening, next) {
        (Opening::RefusedByCollar { .. }, _) => {}
        (Opening::NoPrice, Next::Trading) => open_without_price(collar, desk, report),
        (Opening::NoPrice, Next::Close) => close_without_price(desk, report),
        (Opening::Printed { price, .. }, Next::Trading) => {
            open_at_price(collar, desk, report, price)
        }
        (Opening::Printed { price, .. }, Next::Close) => close_at_price(desk, report, price),
    }
}
