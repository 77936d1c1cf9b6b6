// A report that is written line by line.
ghost use Rattle.std.specs.Prelude.{◌≤◌, length};

use trading::ReportLine;

mod writing;

// The lines of a report, of which the first `written` are this call's so far; whoever makes the report lends the lines. It is no
// part of a desk, as records join and leave without a line.
#[derive(Drop)]
pub struct Report<'a> {
    lines: &'a mut [ReportLine],
    written: usize,
    ghost within: { written ≤ length lines.now },
}
