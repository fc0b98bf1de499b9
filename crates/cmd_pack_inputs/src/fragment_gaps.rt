//! The bytes of a vendor ramdisk that are in no fragment.

use abt_headers::RamdiskEntry;

/// How many of this many bytes of a vendor ramdisk are in none of these fragments. There are at most 606.
pub(crate) fn in_no_fragment(fragments: &[RamdiskEntry], size: u32) -> u64 {
    let mut end = 0u64;
    let mut count = 0u64;
    for _ in fragments {
        let Some((first, next)) = next_fragment(fragments, end) else {
            break;
        };
        count = count.saturating_add(first.saturating_sub(end));
        end = next;
    }
    count.saturating_add((size as u64).saturating_sub(end))
}

// Of the fragments that end after this byte, the one that begins first: where it begins, and where it ends.
fn next_fragment(fragments: &[RamdiskEntry], end: u64) -> Option<(u64, u64)> {
    let mut found = None;
    for entry in fragments {
        let first = entry.ramdisk_offset as u64;
        let next = first + entry.ramdisk_size as u64;
        if next > end && begins_before(first, found) {
            found = Some((first, next));
        }
    }
    found
}

fn begins_before(first: u64, found: Option<(u64, u64)>) -> bool {
    match found {
        Some((other, _)) => first < other,
        None => true,
    }
}
