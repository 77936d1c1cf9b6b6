// From the call into continuous trading. What is asked of a desk and a report holds at one moment; neither could hold it by itself.
ghost use Rattle.std.specs.Prelude.{ℕ, ◌≤◌, List, ◌++◌, length};
ghost use Rattle.trading.specs.declared.stop.StopOrder.{StopOrder};
ghost use Rattle.trading.specs.Desks.{book_of};
ghost use Rattle.trading.specs.Moves.{Ready};
ghost use Rattle.trading.specs.Sweeps.{moved};
ghost use Rattle.trading.specs.Uncrossings.{pairs, vfu_lapses, without_vfu, printed_at};
ghost use Rattle.lent.specs.Contents.{contents, beside, page, Kept};
ghost use Rattle.lent.specs.Moves.{Comes};
ghost use Rattle.uncrossing.specs.Fits.{OrdersFit, RestFits, FewerFrom, Fewer};
ghost use Rattle.uncrossing.specs.Fronts.{InFront};
ghost use Rattle.uncrossing.specs.Prints.{book_from};

use crate::pairing::Met;
use crate::printing::print_price;
use crate::sifting::sift;
use lent::{Desk, Report};
use trading::Phase;

// The VFU orders of the queues that are left lapse, and the book is in continuous trading.
fn open_rest(met: Met, desk: &mut Desk<'_>, report: &mut Report<'_>)
    requires { RestFits met (contents desk.old) (page report.old) }
    ensures came { (stops : List StopOrder) (n : ℕ) → let d = beside (contents desk.old) stops in
        d.state.buys ≤ n → d.state.sells ≤ n → d.state.stops ≤ length stops → Comes n (moved (without_vfu (book_from met d)) (vfu_lapses (book_from met d))) d (page report.old) (beside (contents desk.new) stops) (page report.new) }
    ensures fewer { FewerFrom met (contents desk.old) (page report.old) (contents desk.new) (page report.new) }
    ensures kept { Kept desk.old report.old desk.new report.new }
{
    desk.state.buys = sift(desk.buys, met.buys, desk.state.buys, report);
    desk.state.sells = sift(desk.sells, met.sells, desk.state.sells, report);
    desk.state.phase = Phase::Continuous;
}

// No price: the VFU orders lapse, and the book is in continuous trading.
pub fn open_unprinted(desk: &mut Desk<'_>, report: &mut Report<'_>)
    requires { OrdersFit (contents desk.old) (page report.old) }
    ensures came { (stops : List StopOrder) (n : ℕ) → let d = beside (contents desk.old) stops in
        Ready n d (length report.old.lines.now) report.old.written 0 → Comes n (moved (without_vfu (book_of d)) (vfu_lapses (book_of d))) d (page report.old) (beside (contents desk.new) stops) (page report.new) }
    ensures fewer { Fewer (contents desk.old) (page report.old) (contents desk.new) (page report.new) }
    ensures kept { Kept desk.old report.old desk.new report.new }
{
    open_rest(Met::default(), desk, report);
}

// The price is printed; then the same.
pub fn print_and_open(price: u32, desk: &mut Desk<'_>, report: &mut Report<'_>)
    requires fit { OrdersFit (contents desk.old) (page report.old) }
    requires fronts { let b = book_of (contents desk.old) in InFront price b.buys b.sells }
    ensures came { (stops : List StopOrder) (n : ℕ) → let d = beside (contents desk.old) stops in
        let b = book_of d in
        Ready n d (length report.old.lines.now) report.old.written 0 → Comes n (moved (without_vfu (printed_at price b)) ((pairs price b.buys b.sells).trades ++ vfu_lapses (printed_at price b))) d (page report.old) (beside (contents desk.new) stops) (page report.new) }
    ensures fewer { Fewer (contents desk.old) (page report.old) (contents desk.new) (page report.new) }
    ensures kept { Kept desk.old report.old desk.new report.new }
{
    let met = print_price(price, desk, report);
    open_rest(met, desk, report);
}
