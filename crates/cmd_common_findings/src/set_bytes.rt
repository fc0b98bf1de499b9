//! Bytes that are not zero: how many there are, and the position of the first.

ghost use Rattle.std.specs.Prelude.{◌≡◌, ◌<◌, ◌≤◌, ◌+◌, ◌-◌, ◌^◌, IfOk, length, take, drop, min};
ghost use Rattle.cmd_common_findings.specs.Finding.{LooksFor, HasRoomFor, first_set_in, leading_zeros};
ghost use Rattle.cmd_common_findings.specs.LeftOut.{set_in};

use abt_io::{Meter, Source, WINDOW, Window, read_full_at};
use abt_sections::SectionFault;

/// How many bytes are not zero.
pub(crate) fn count_set(bytes: &[u8]) -> u64
    ensures value { result ≡ set_in bytes.now }
    ensures few { result ≤ length bytes.now }
{
    let mut count = 0;
    for byte in bytes {
        if *byte != 0 {
            count += 1;
        }
    }
    count
}

/// How many of the first bytes are zero.
pub(crate) fn zeros_in_front(bytes: &[u8]) -> usize
    ensures value { result ≡ leading_zeros bytes.now }
    ensures few { result ≤ length bytes.now }
{
    for i in 0..bytes.len() {
        if bytes[i] != 0 {
            return i;
        }
    }
    bytes.len()
}

/// How many bytes are not zero from one place up to another, as far as they are there.
pub(crate) fn set_between<S: Source>(
    source: &mut S,
    from: u64,
    end: u64,
    w: &mut Window,
    m: &mut Meter,
) -> Result<u64, SectionFault>
    ensures finds { LooksFor result S.Source source.old source.new
        (λ n. n ≡ set_in (take (end - from) (drop from (S.content source.old)))) }
    ensures few { IfOk result (λ n. n ≤ end - from) }
{
    let all = end.saturating_sub(from);
    let mut done = 0;
    let mut count = 0;
    while done < all {
        m.tick();
        let ask = (all - done).min(WINDOW as u64) as usize;
        let seen = match count_in(source, from + done, ask, w, m) {
            Ok(seen) => seen,
            Err(fault) => return Err(fault),
        };
        count += seen.set;
        if seen.came < ask {
            return Ok(count);
        }
        done += ask as u64;
    }
    Ok(count)
}

// How many bytes a read returned, and how many of them are not zero.
#[derive(Clone, Copy, Drop)]
struct Seen {
    came: usize,
    set: u64,
}

// Reads the bytes from a place on, and counts those that are not zero.
fn count_in<S: Source>(
    source: &mut S,
    at: u64,
    ask: usize,
    w: &mut Window,
    m: &mut Meter,
) -> Result<Seen, SectionFault>
    requires { HasRoomFor ask at }
    ensures finds { LooksFor result S.Source source.old source.new (λ seen.
        (seen.came ≡ min ask (length (S.content source.old) - at))
        × (seen.set ≡ set_in (take seen.came (drop at (S.content source.old))))) }
    ensures few { IfOk result (λ seen. (seen.set ≤ seen.came) × (seen.came ≤ ask)) }
{
    let read = read_full_at(source, at, w.part_mut(0, ask), m);
    if let Some(fault) = read.fault {
        return Err(SectionFault::Read(fault));
    }
    let came = read.count;
    let set = count_set(w.part(0, came));
    Ok(Seen { came, set })
}

// How many bytes that a read returned are zero, from the first on.
fn zeros_at<S: Source>(
    source: &mut S,
    at: u64,
    ask: usize,
    w: &mut Window,
    m: &mut Meter,
) -> Result<usize, SectionFault>
    requires { HasRoomFor ask at }
    ensures finds { LooksFor result S.Source source.old source.new (λ zeros.
        zeros ≡ leading_zeros (take (min ask (length (S.content source.old) - at)) (drop at (S.content source.old)))) }
    ensures few { IfOk result (λ zeros. zeros ≤ ask) }
{
    let read = read_full_at(source, at, w.part_mut(0, ask), m);
    if let Some(fault) = read.fault {
        return Err(SectionFault::Read(fault));
    }
    Ok(zeros_in_front(w.part(0, read.count)))
}

/// The first of so many bytes from a place on that isn't there or isn't zero.
pub(crate) fn first_set<S: Source>(
    source: &mut S,
    from: u64,
    all: u64,
    w: &mut Window,
    m: &mut Meter,
) -> Result<Option<u64>, SectionFault>
    requires { from + all < 2 ^ 64 }
    ensures finds { LooksFor result S.Source source.old source.new
        (λ found. found ≡ first_set_in (S.content source.old) from all) }
{
    let mut done = 0;
    while done < all {
        m.tick();
        let ask = (all - done).min(WINDOW as u64) as usize;
        let zeros = match zeros_at(source, from + done, ask, w, m) {
            Ok(zeros) => zeros,
            Err(fault) => return Err(fault),
        };
        if zeros < ask {
            return Ok(Some(from + done + zeros as u64));
        }
        done += ask as u64;
    }
    Ok(None)
}
