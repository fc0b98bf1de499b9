//! An opened image: its header, and the places of its sections.

ghost use Rattle.std.specs.Prelude.{◌≡◌, ◌<◌, ◌≤◌, ◌+◌, ◌^◌, MatchBool, length, slice_index_or};
ghost use Rattle.abt_headers.specs.Page.{IsPage};
ghost use Rattle.abt_headers.specs.Places.{EachLow};
ghost use Rattle.abt_sections.specs.Header.{view_of, size_of, page_of, places_of};

use abt_headers::{BootHeader, SectionPlace, Sections, VendorHeader};
use abt_io::Source;

/// The header of either kind of image.
#[derive(Clone, Copy, Debug, PartialEq, Eq)]
pub enum ImageHeader {
    Boot(BootHeader),
    Vendor(VendorHeader),
}

impl ImageHeader {
    /// How many bytes the record has.
    #[inline(never)]
    pub fn size(&self) -> usize
        ensures value { result ≡ size_of (view_of self.now) }
        ensures high { result ≤ 2128 }
    {
        match self {
            ImageHeader::Boot(header) => header.size(),
            ImageHeader::Vendor(header) => header.size(),
        }
    }

    /// How many bytes a page has.
    pub fn page_size(&self) -> u32
        ensures { IsPage result (page_of (view_of self.now)) }
    {
        match self {
            ImageHeader::Boot(header) => header.page_size(),
            ImageHeader::Vendor(header) => header.page_size(),
        }
    }

    /// The sections after the header, in order.
    pub fn sections(&self) -> Sections
        ensures value { result ≡ places_of (view_of self.now) }
        ensures low { EachLow (places_of (view_of self.now)) }
    {
        match self {
            ImageHeader::Boot(header) => header.sections(),
            ImageHeader::Vendor(header) => header.sections(),
        }
    }
}

/// A boot image or a vendor boot image that `open` found at the beginning of a source.
///
/// It has the header and the source's length, and borrows nothing: each call on it borrows the source again, and
/// returns `SourceChanged` where that source isn't the opened one any more.
#[derive(Clone, Copy, Debug, PartialEq, Eq)]
pub struct Image {
    pub header: ImageHeader,
    /// How many bytes the source had.
    pub length: u64,
}

/// The source is as long as it was when the image was opened.
#[inline(never)]
pub(crate) fn is_as_long<S: Source>(image: &Image, source: &S) -> bool
    ensures { MatchBool result (S.size source.now ≡ image.now.length) (S.size source.now ≡ image.now.length → ⊥) }
{
    source.length() == image.length
}

/// How many sections are after the header: two to five.
pub fn sections(image: &Image) -> usize
    ensures value { result ≡ length (places_of (view_of image.now.header)) }
{
    image.header.sections().count()
}

/// Where section `i` is, in the order of the image.
pub fn section(image: &Image, i: usize) -> SectionPlace
    requires { i < length (places_of (view_of image.now.header)) }
    ensures value { result ≡ slice_index_or (places_of (view_of image.now.header)) i result }
    ensures low { result.at + result.size < 2 ^ 63 }
{
    image.header.sections().place(i)
}
