//! The kinds of boot images, each with its header versions.

ghost use Rattle.std.specs.Prelude.{◌≡◌, ◌↔◌, IsTrue, IfOk, IfErr, IsOk};
ghost use Rattle.cmd_common_fields.specs.Kind.{is_version, kind_for, kind_of, version_of};
ghost use Rattle.abt_sections.specs.Header.{view_of};

use abt_headers::HeaderFault;
use abt_sections::ImageHeader;

/// A kind of image, with its header version.
#[derive(Clone, Copy, PartialEq, Eq)]
pub enum ImageKind {
    /// A boot image, version 0 to 4.
    Boot(u32),
    /// A vendor boot image, version 3 or 4.
    Vendor(u32),
}

impl ImageKind {
    /// The kind of this header version. Fails with error 21 where there is none.
    pub fn new(is_vendor: bool, version: u32) -> Result<ImageKind, HeaderFault>
        ensures accepts { IsOk result ↔ IsTrue (is_version is_vendor version) }
        ensures value { IfOk result (λ kind. kind ≡ kind_for is_vendor version) }
        ensures refused { IfErr result (λ fault. fault ≡ HeaderFault.Version version) }
    {
        match (is_vendor, version) {
            (false, 0..=4) => Ok(ImageKind::Boot(version)),
            (true, 3..=4) => Ok(ImageKind::Vendor(version)),
            _ => Err(HeaderFault::Version(version)),
        }
    }

    /// The kind of a header.
    pub fn of_header(header: &ImageHeader) -> ImageKind
        ensures { result ≡ kind_of (view_of header.now) }
    {
        match header {
            ImageHeader::Boot(header) => ImageKind::Boot(header.version()),
            ImageHeader::Vendor(header) => ImageKind::Vendor(header.version()),
        }
    }

    /// Its header version.
    pub fn version(self) -> u32
        ensures { result ≡ version_of self }
    {
        match self {
            ImageKind::Boot(version) => version,
            ImageKind::Vendor(version) => version,
        }
    }
}
