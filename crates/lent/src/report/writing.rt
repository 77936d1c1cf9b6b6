// What is done with a report.
ghost use Rattle.std.specs.Prelude.{◌≡◌, ◌+◌, ◌<◌, length, slice_set};
ghost use Rattle.lent.specs.Contents.{ReportKept};

use super::Report;
use trading::ReportLine;

impl<'a> Report<'a> {
    // The report on these lines, none of which is written yet.
    pub fn new(lines: &'a mut [ReportLine]) -> Report<'a>
        ensures lines { result.lines.now ≡ lines.old }
        ensures written { result.written ≡ 0 }
        ensures lender { result.lines.ghost_name ≡ lines.entry.ghost_name }
    {
        Report { lines, written: 0 }
    }

    // How many lines are written.
    pub fn written(&self) -> usize
        ensures { result ≡ self.now.written }
    {
        self.written
    }

    // Writes the next line.
    pub fn write(&mut self, line: ReportLine)
        requires { self.old.written < length self.old.lines.now }
        ensures line { self.new.lines.now ≡ slice_set self.old.lines.now self.old.written line }
        ensures written { self.new.written ≡ self.old.written + 1 }
        ensures kept { ReportKept self.old self.new }
    {
        self.lines[self.written] = line;
        self.written += 1;
    }
}
