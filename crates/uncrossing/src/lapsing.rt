// Lapse lines.
ghost use Rattle.std.specs.Prelude.{◌≡◌, ◌+◌, ◌≤◌, length};
ghost use Rattle.trading.specs.declared.report.ReportLine.TheVariants.{Lapse};
ghost use Rattle.trading.specs.Uncrossings.{lapses_by};
ghost use Rattle.lent.specs.Contents.{page, Wrote, ReportKept};

use lent::Report;
use queue::{Numbered, Ranked};
use trading::ReportLine;

// The lapse line of a record: its number, and the quantity that is left.
pub(crate) fn lapse_line<R: Numbered + Ranked>(r: &R) -> ReportLine
    ensures { result ≡ Lapse (R.tag r.now) (R.amount r.now) }
{
    ReportLine::Lapse {
        number: r.number(),
        quantity: r.quantity(),
    }
}

// Writes a lapse line for each record of a queue.
pub(crate) fn write_lapses<R: Numbered + Ranked>(queue: &[R], report: &mut Report<'_>)
    requires { report.old.written + length queue.now ≤ length report.old.lines.now }
    ensures wrote { Wrote (lapses_by (λ r. Lapse (R.tag r) (R.amount r)) queue.now) (page report.old) (page report.new) }
    ensures place { report.new.written ≡ report.old.written + length queue.now }
    ensures kept { ReportKept report.old report.new }
{
    for record in queue {
        report.write(lapse_line(record));
    }
}
