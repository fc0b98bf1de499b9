//! What is reported of an image that was packed again, beside its line.

ghost use Rattle.cmd_pack.specs.Repacking.{HasNote};

use cmd_common_findings::LeftOut;
use std::fmt;
use sys_report::Report;
use sys_text::Text;

/// Reports on standard error what was left out, if anything was.
pub(crate) fn tell_left_out(report: &mut Report, left: LeftOut)
    ensures { HasNote report.old report.new }
{
    if left.is_nothing() {
        return;
    }
    report.progress.erase();
    let mut text = Text::new(&mut report.err);
    let _ = text.short(LeftOutNote(left));
    text.end_line();
    let _ = text.finish();
}

// What an image that is packed again leaves out.
#[derive(Drop)]
struct LeftOutNote(LeftOut);

impl fmt::Display for LeftOutNote {
    fn fmt<W: fmt::Write>(&self, f: &mut fmt::Formatter<W>) -> fmt::Result {
        let left = self.0;
        write!(f, "abootimg: {left}")
    }
}
