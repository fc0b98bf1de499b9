//! The sizes of parts, tested before anything is written.

ghost use Rattle.std.specs.Prelude.{◌≡◌, ◌<◌, ◌≤◌, ◌+◌, ◌*◌, ◌^◌, MatchResult, MatchOption, length, map, take};
ghost use Rattle.std.specs.Prelude.{slice_index_or};
ghost use Rattle.abt_sections.specs.Asked.{IsPageNumber};
ghost use Rattle.abt_sections.specs.Cause.{total};
ghost use Rattle.abt_sections.specs.Fields.{filled};
ghost use Rattle.abt_sections.specs.Refusal.{RefusedBy, boot_names, vendor_names, size_refusal};
ghost use Rattle.abt_sections.specs.Layout.{laid_size};
ghost use Rattle.abt_sections.specs.BootCanon.{image_size};
ghost use Rattle.abt_sections.specs.VendorCanon.{vendor_sizes_for};

use crate::fault::SectionFault;
use abt_headers::{Section, pages};
use abt_io::{Meter, Source};

/// What section `i` of a boot image is.
fn section_at(version: u32, i: usize) -> Section
    requires { i < length (boot_names version) }
    ensures { result ≡ slice_index_or (boot_names version) i result }
{
    const LONG: [Section; 5] = [
        Section::Kernel,
        Section::Ramdisk,
        Section::Second,
        Section::RecoveryDtbo,
        Section::Dtb,
    ];
    const SHORT: [Section; 3] = [Section::Kernel, Section::Ramdisk, Section::Signature];
    if version < 3 { LONG[i] } else { SHORT[i] }
}

/// How large each part of a boot image is, or the first section that is too large. A version has at most five.
pub(crate) fn boot_sizes<S: Source>(
    version: u32,
    parts: &[S],
    m: &mut Meter,
) -> Result<[u32; 5], SectionFault>
    requires { length parts.now ≡ length (boot_names version) }
    ensures { RefusedBy result (size_refusal (boot_names version) (map S.size parts.now))
        (λ z. z ≡ filled 5 (map S.size parts.now)) }
{
    let mut sizes = [0; 5];
    for i in 0..parts.len() {
        m.tick();
        let n = parts[i].length();
        if n > u32::MAX as u64 {
            return Err(SectionFault::SectionTooLarge {
                section: section_at(version, i),
            });
        }
        sizes[i] = n as u32;
    }
    Ok(sizes)
}

/// How many bytes the ramdisks have together, where that is less than 2^32.
fn ramdisks_size<S: Source>(ramdisks: &[S], m: &mut Meter) -> Option<u32>
    ensures { MatchOption result (4294967295 < total S.size ramdisks.now) (λ n. n ≡ total S.size ramdisks.now) }
{
    let mut sum = 0;
    for i in 0..ramdisks.len() {
        m.tick();
        let n = ramdisks[i].length();
        if n > (u32::MAX - sum) as u64 {
            return None;
        }
        sum += n as u32;
    }
    Some(sum)
}

/// A size that fits a header, or the refusal of this section.
fn fitting(section: Section, n: u64) -> Result<u32, SectionFault>
    ensures { MatchResult result (λ k. (k ≡ n) × (n ≤ 4294967295)) (λ f. (f ≡ SectionFault.SectionTooLarge section) ×
        (4294967295 < n)) }
{
    if n > u32::MAX as u64 {
        return Err(SectionFault::SectionTooLarge { section });
    }
    Ok(n as u32)
}

/// How large each section of a vendor boot image is, or the first that is too large.
#[tactic(auto, unfolding(crate::specs::Refusal::size_refusal))]
#[inline(never)]
pub(crate) fn vendor_sizes<S: Source>(
    count: usize,
    ramdisks: &[S],
    dtb: &S,
    bootconfig: &S,
    m: &mut Meter,
) -> Result<[u32; 4], SectionFault>
    requires { count < 2 ^ 57 }
    ensures { let z = vendor_sizes_for (total S.size ramdisks.now) (S.size dtb.now) count
        (S.size bootconfig.now) in RefusedBy result (size_refusal vendor_names z) (λ r. r ≡ z) }
{
    let ramdisk = match ramdisks_size(ramdisks, m) {
        Some(n) => n,
        None => {
            return Err(SectionFault::SectionTooLarge {
                section: Section::VendorRamdisk,
            });
        }
    };
    let dtb_size = fitting(Section::Dtb, dtb.length())?;
    let table = fitting(Section::Table, 108 * count as u64)?;
    let config = fitting(Section::Bootconfig, bootconfig.length())?;
    Ok([ramdisk, dtb_size, table, config])
}

/// How many bytes an image has, of its record's size and those of its first `count` sections.
#[inline(never)]
pub(crate) fn image_bytes(
    page: u32,
    header: usize,
    sizes: &[u32],
    count: usize,
    m: &mut Meter,
) -> u64
    requires page { IsPageNumber page }
    requires short { header ≤ 2128 }
    requires few { count ≤ 5 }
    requires within { count ≤ length sizes.now }
    ensures { result ≡ image_size page header (take count sizes.now) }
{
    let mut bytes = pages(header as u64, page) * page as u64;
    for i in 0..count {
        m.tick();
        bytes += pages(sizes[i] as u64, page) * page as u64;
    }
    bytes
}
