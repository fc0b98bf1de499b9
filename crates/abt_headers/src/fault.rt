//! The reasons for which bytes are not a header.

ghost use Rattle.std.specs.Prelude.{◌≡◌};
ghost use Rattle.abt_headers.specs.Fault.{header_fault_number};

use thiserror::Error;

/// Why bytes are not a header, or numbers not an OS version. Each fault has a number, with which
/// its text begins.
#[derive(Clone, Copy, Debug, PartialEq, Eq, Error)]
pub enum HeaderFault {
    /// 20: the first eight bytes are not the magic, `ANDROID!` or `VNDRBOOT`.
    #[error("20 Magic")]
    Magic,

    /// 21: no header of this kind has this `header_version`.
    #[error("21 Version {0}")]
    Version(u32),

    /// 22: no page has this many bytes (see `PageSize`).
    #[error("22 PageSize {0}")]
    PageSize(u32),

    /// 23: the vendor ramdisk table does not consist of whole entries of 108 bytes.
    #[error("23 Table")]
    Table,

    /// 25: the record needs this many bytes, and fewer are there.
    #[error("25 Short need {need}")]
    Short { need: u32 },

    /// 28: a part of an OS version has no room in its bits, or is no month.
    #[error("28 Os")]
    Os,
}

impl HeaderFault {
    /// The number of the fault: 20 to 23, 25 or 28.
    pub fn number(&self) -> u32
        ensures { result ≡ header_fault_number self.now }
    {
        match self {
            HeaderFault::Magic => 20,
            HeaderFault::Version(_) => 21,
            HeaderFault::PageSize(_) => 22,
            HeaderFault::Table => 23,
            HeaderFault::Short { .. } => 25,
            HeaderFault::Os => 28,
        }
    }
}
