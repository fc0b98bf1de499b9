//! The OS version and the patch level of an image, in one number.

ghost use Rattle.std.specs.Prelude.{◌≡◌, ◌↔◌, IsOk, IfOk, IfErr};
ghost use Rattle.abt_headers.specs.Os.{FitsOsBits, IsOsVersion, os_of, os_parts, os_raw};

use crate::fault::HeaderFault;

/// An OS version and its patch level, taken apart.
#[derive(Clone, Copy, Debug, PartialEq, Eq)]
pub struct OsParts {
    /// The A of version A.B.C, from 0 to 127.
    pub a: u32,

    /// The B of version A.B.C, from 0 to 127.
    pub b: u32,

    /// The C of version A.B.C, from 0 to 127.
    pub c: u32,

    /// The year of the patch level, from 2000 to 2127.
    pub year: u32,

    /// The month of the patch level, from 1 to 12. A header may hold any number from 0 to 15.
    pub month: u32,
}

/// The OS version and patch level as a header has them, `os_version` of `bootimg.h`: A in bits 31
/// to 25, B in 24 to 18, C in 17 to 11, the year less 2000 in 10 to 4, the month in 3 to 0.
#[derive(Clone, Copy, Debug, PartialEq, Eq)]
pub struct OsVersion {
    /// The number in the header. Every number is allowed.
    pub number: u32,
}

impl OsVersion {
    /// The version that a header gives as this number.
    pub fn from_raw(raw: u32) -> OsVersion
        ensures { result.number ≡ raw }
    {
        OsVersion { number: raw }
    }

    /// The number in the header.
    pub fn raw(&self) -> u32
        ensures { result ≡ self.now.number }
    {
        self.number
    }

    /// Version `a.b.c` with the patch level of a month. It fails with error 28 where `a`, `b` or `c` is
    /// above 127, the year is not from 2000 to 2127, or the month not from 1 to 12.
    pub fn new(a: u32, b: u32, c: u32, year: u32, month: u32) -> Result<OsVersion, HeaderFault>
        ensures accepts { IsOk result ↔ IsOsVersion (os_of a b c year month) }
        ensures value { IfOk result (λ os. os.number ≡ os_raw (os_of a b c year month)) }
        ensures back { IfOk result (λ os. os_parts os.number ≡ os_of a b c year month) }
        ensures refuses { IfErr result (λ fault. fault ≡ HeaderFault.Os) }
    {
        if a > 127 || b > 127 || c > 127 {
            return Err(HeaderFault::Os);
        }
        if year < 2000 || year > 2127 || month < 1 || month > 12 {
            return Err(HeaderFault::Os);
        }
        Ok(OsVersion {
            number: ((a * 128 + b) * 128 + c) * 2048 + (year - 2000) * 16 + month,
        })
    }

    /// The parts that the number holds. In a header that no tool made the month may be 0, or 13
    /// to 15.
    pub fn parts(&self) -> OsParts
        ensures value { result ≡ os_parts self.now.number }
        ensures back { os_raw result ≡ self.now.number }
        ensures bits { FitsOsBits result }
    {
        let n = self.number;
        OsParts {
            a: n / 33_554_432,
            b: n / 262_144 % 128,
            c: n / 2048 % 128,
            year: 2000 + n / 16 % 128,
            month: n % 16,
        }
    }
}
