// What a call on a desk asks of it first.
ghost use Rattle.std.specs.Prelude.{◌≡◌, length};
ghost use Rattle.trading.specs.Desks.{capacity};
ghost use Rattle.lent.specs.Contents.{contents};
ghost use Rattle.checks.specs.Ground.{Ground};

use checks::{capacity_of, check_ground};
use lent::Desk;
use trading::{BookFault, ReportLine};

// Refuses a report that is too short, then tables that are not well-formed.
pub fn check_desk(desk: &Desk<'_>, report: &[ReportLine]) -> Result<(), BookFault>
    ensures { Ground (contents desk.now) (length report.now) result }
{
    check_ground(*desk.state, &desk.tables(), report)
}

// How many records the book may hold.
pub fn capacity_on(desk: &Desk<'_>) -> usize
    ensures { result ≡ capacity (contents desk.now) }
{
    capacity_of(&desk.tables())
}
