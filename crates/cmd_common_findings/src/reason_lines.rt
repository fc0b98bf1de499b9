//! The lines after the line `check`: why an answer is no, and how many bytes follow the image.

ghost use Rattle.std.specs.Prelude.{◌≡◌, Some};
ghost use Rattle.std.specs.List.{flat_map};
ghost use Rattle.std.specs.Prelude.{option_to_list};
ghost use Rattle.cmd_common_findings.specs.ReasonLines as spec;

use crate::reasons::{CheckAnswer, Findings, Reason, Unended};
use std::fmt;

/// A line.
#[derive(Clone, Copy, Drop)]
pub enum Finding {
    /// An answer that is no.
    No(CheckAnswer, Reason),
    /// How many bytes follow the image.
    Trailing(u64),
}

impl Findings {
    /// The lines in their order, where they are to be printed.
    pub fn lines(&self) -> [Option<Finding>; 5]
        ensures { flat_map (λ line. option_to_list line) result ≡ spec.lines_of self.now }
    {
        let trailing = if self.trailing == 0 {
            None
        } else {
            Some(Finding::Trailing(self.trailing))
        };
        [
            line_of(CheckAnswer::Canonical, self.canonical),
            line_of(CheckAnswer::Padding, self.padding),
            line_of(CheckAnswer::Id, self.id),
            line_of(CheckAnswer::Offset, self.offset),
            trailing,
        ]
    }
}

fn line_of(answer: CheckAnswer, reason: Option<Reason>) -> Option<Finding>
    ensures { option_to_list result ≡ spec.line_of answer reason }
{
    match reason {
        Some(reason) => Some(Finding::No(answer, reason)),
        None => None,
    }
}

impl fmt::Display for Finding {
    ghost output = { λ line. Some (spec.finding_text line) };

    fn fmt<W: fmt::Write>(&self, f: &mut fmt::Formatter<W>) -> fmt::Result {
        match self {
            Finding::No(answer, reason) => {
                let answer = answer.name();
                write!(f, "{answer} no: {reason}")
            }
            Finding::Trailing(bytes) => write!(f, "trailing {bytes} bytes"),
        }
    }
}

impl CheckAnswer {
    fn name(self) -> &'static str
        ensures { result.now ≡ spec.answer_name self }
    {
        match self {
            CheckAnswer::Canonical => "canonical",
            CheckAnswer::Padding => "padding",
            CheckAnswer::Id => "id",
            CheckAnswer::Offset => "offset",
        }
    }
}

impl Unended {
    fn name(self) -> &'static str
        ensures { result.now ≡ spec.unended_name self }
    {
        match self {
            Unended::Name => "name",
            Unended::Cmdline => "cmdline",
            Unended::Reserved => "reserved",
        }
    }
}

impl fmt::Display for Reason {
    ghost output = { λ reason. Some (spec.reason_text reason) };

    fn fmt<W: fmt::Write>(&self, f: &mut fmt::Formatter<W>) -> fmt::Result {
        match self {
            Reason::Size { found, packed } => write!(f, "header_size {found}, packed {packed}"),
            Reason::Offset { found, packed } => {
                write!(f, "recovery_dtbo_offset {found}, packed {packed}")
            }
            Reason::Byte(place) => write!(f, "byte {place}"),
            Reason::Text(field) => f.write_str(field.name()),
            Reason::Fragments => f.write_str("fragments"),
        }
    }
}
