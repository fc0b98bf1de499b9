//! The reasons for which an image is refused.

ghost use Rattle.std.specs.Prelude.{◌≡◌};
ghost use Rattle.abt_sections.specs.Fault.{section_fault_number};

use abt_headers::{HeaderFault, Section};
use abt_io::DeviceFault;
use thiserror::Error;

/// Why an image is refused, or which device failed.
#[derive(Clone, Copy, Debug, PartialEq, Eq, Drop, Error)]
pub enum SectionFault {
    /// A part, or the source of an image, failed.
    #[error("11 Read")]
    Read(DeviceFault),
    /// The output failed.
    #[error("12 Write")]
    Write(DeviceFault),
    /// A source's length changed, it gave nothing below its length, or its table reads otherwise than before.
    #[error("14 SourceChanged")]
    SourceChanged,
    /// The bytes at the beginning are no header, or no header has these fields.
    #[error("{0}")]
    Header(HeaderFault),
    /// The ramdisk fragment of this index ends past the vendor ramdisk.
    #[error("24 Entry {0}")]
    Entry(u32),
    /// The name is too long, or has a zero byte.
    #[error("26 Name")]
    Name,
    /// The command line is too long, or has a zero byte.
    #[error("27 CommandLine")]
    CommandLine,
    /// The section ends past the source.
    #[error("29 SectionTruncated {section}")]
    SectionTruncated { section: Section },
    /// The section has more than 2^32 - 1 bytes.
    #[error("30 SectionTooLarge {section}")]
    SectionTooLarge { section: Section },
}

impl SectionFault {
    /// The fault's number, by which texts and callers tell faults apart.
    pub fn number(&self) -> u32
        ensures { result ≡ section_fault_number self.now }
    {
        match self {
            SectionFault::Read(_) => 11,
            SectionFault::Write(_) => 12,
            SectionFault::SourceChanged => 14,
            SectionFault::Header(fault) => fault.number(),
            SectionFault::Entry(_) => 24,
            SectionFault::Name => 26,
            SectionFault::CommandLine => 27,
            SectionFault::SectionTruncated { .. } => 29,
            SectionFault::SectionTooLarge { .. } => 30,
        }
    }
}
