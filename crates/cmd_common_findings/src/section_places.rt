//! The positions of the sections of an image, and the end of the image.

ghost use Rattle.std.specs.Prelude.{◌≡◌, ◌+◌, ◌<◌, ◌^◌, IfSome};
ghost use Rattle.abt_sections.specs.Header.{view_of};
ghost use Rattle.cmd_common_findings.specs.LeftOut as spec;
ghost use Rattle.cmd_common_findings.specs.Places.{first_place_of};

use abt_headers::{Section, SectionPlace, pages};
use abt_sections::{Image, section, sections};

/// The position of the section of this kind, if there is one.
#[inline(never)]
pub fn place_of(image: &Image, kind: Section) -> Option<SectionPlace>
    ensures value { result ≡ first_place_of (view_of image.now.header) kind }
    ensures low { IfSome result (λ place. place.at + place.size < 2 ^ 63) }
{
    for i in 0..sections(image) {
        let place = section(image, i);
        if place.kind == kind {
            return Some(place);
        }
    }
    None
}

/// Where the last section ends, with the bytes up to a page boundary.
pub fn end_of(image: &Image) -> u64
    ensures value { result ≡ spec.end_of (view_of image.now.header) }
    ensures low { result < 2 ^ 63 + 131072 }
{
    let mut end = image.header.size() as u64;
    for i in 0..sections(image) {
        let place = section(image, i);
        end = place.at + place.size as u64;
    }
    let page = image.header.page_size();
    pages(end, page) * page as u64
}
