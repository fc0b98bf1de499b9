//! The page sizes that a header may have.

ghost use Rattle.std.specs.Prelude.{◌≡◌, ◌+◌, ◌≤◌, length};
ghost use Rattle.abt_headers.specs.Page.{IsPage, page_at, page_bytes, page_from};

use crate::fault::HeaderFault;
use crate::field::u32_at;

/// The size of a page: a power of two from 2,048 to 131,072 bytes. The header and each section of
/// an image begin at a page boundary.
#[derive(Clone, Copy, Debug, PartialEq, Eq)]
pub enum PageSize {
    Of2048,
    Of4096,
    Of8192,
    Of16384,
    Of32768,
    Of65536,
    Of131072,
}

impl PageSize {
    /// The page size of this many bytes, or `None` where a page may not have that size.
    pub fn from_bytes(bytes: u32) -> Option<PageSize>
        ensures { result ≡ page_from bytes }
    {
        match bytes {
            2048 => Some(PageSize::Of2048),
            4096 => Some(PageSize::Of4096),
            8192 => Some(PageSize::Of8192),
            16384 => Some(PageSize::Of16384),
            32768 => Some(PageSize::Of32768),
            65536 => Some(PageSize::Of65536),
            131072 => Some(PageSize::Of131072),
            _ => None,
        }
    }

    /// How many bytes a page has, from 2,048 to 131,072.
    pub fn bytes(self) -> u32
        ensures { IsPage result (page_bytes self) }
    {
        match self {
            PageSize::Of2048 => 2048,
            PageSize::Of4096 => 4096,
            PageSize::Of8192 => 8192,
            PageSize::Of16384 => 16384,
            PageSize::Of32768 => 32768,
            PageSize::Of65536 => 65536,
            PageSize::Of131072 => 131072,
        }
    }
}

/// The page size in the four bytes at `place`.
pub(crate) fn page_size_at(bytes: &[u8], place: usize) -> Result<PageSize, HeaderFault>
    requires { place + 4 ≤ length bytes.now }
    ensures { result ≡ page_at place bytes.now }
{
    let number = u32_at(bytes, place);
    PageSize::from_bytes(number).ok_or(HeaderFault::PageSize(number))
}
