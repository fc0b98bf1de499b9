//! Reads one request to its end, from an input or from a place of a source.

ghost use Rattle.std.specs.Prelude.{◌≡◌, ◌<◌, ◌≤◌, ◌+◌, ◌-◌, ◌^◌, IsTrue, IsNone, min, length, take, drop};
ghost use Rattle.abt_io.specs.Lent.{ReadsForward, ReadsFrom, ReadCosts};

use crate::{DeviceFault, Input, Meter, Source};

/// How many bytes came, and the fault that the device returned after them, if there was one.
#[derive(Clone, Copy, Debug, PartialEq, Eq, Drop)]
pub struct FullRead {
    /// How many bytes came, from the beginning of the request on.
    pub count: usize,
    /// `None` where the ask was filled or the device had no more.
    pub fault: Option<DeviceFault>,
}

/// Reads until `out` is full, the input has ended or it fails. An empty `out` asks for nothing.
#[inline(always)]
pub fn read_full<I: Input>(input: &mut I, out: &mut [u8], m: &mut Meter) -> FullRead
    requires { length out.old ≤ 65536 }
    ensures within { result.count ≤ length out.new }
    ensures all { IsTrue I.models → IsNone result.fault →
        result.count ≡ min (length out.new) (length (I.remaining input.old)) }
    ensures bytes { IsTrue I.models → take result.count out.new ≡ take result.count (I.remaining input.old) }
    ensures none { length out.old ≡ 0 → input.new ≡ input.old }
    ensures forward { ReadsForward I.Input input.old input.new result.count result.fault }
    ensures costs { ReadCosts (I.reads input.old) (I.reads input.new) result.count m.old m.new }
{
    let mut at = 0;
    while at < out.len() {
        m.tick();
        match input.read(&mut out[at..]) {
            Ok(n) => {
                if n == 0 {
                    return FullRead {
                        count: at,
                        fault: None,
                    };
                }
                at += n;
            }
            Err(fault) => {
                return FullRead {
                    count: at,
                    fault: Some(fault),
                };
            }
        }
    }
    FullRead {
        count: at,
        fault: None,
    }
}

/// Reads the bytes from a place on, until `out` is full, the source has ended or it fails. An
/// empty `out` asks for nothing.
#[inline(always)]
pub fn read_full_at<S: Source>(source: &mut S, at: u64, out: &mut [u8], m: &mut Meter) -> FullRead
    requires window { length out.old ≤ 65536 }
    requires below { at + length out.old < 2 ^ 64 }
    ensures within { result.count ≤ length out.new }
    ensures present { IsTrue S.models → result.count ≤ length (S.content source.old) - at }
    ensures all { IsTrue S.models → IsNone result.fault →
        result.count ≡ min (length out.new) (length (S.content source.old) - at) }
    ensures bytes { IsTrue S.models → take result.count out.new ≡ take result.count (drop at (S.content source.old)) }
    ensures none { length out.old ≡ 0 → source.new ≡ source.old }
    ensures source { ReadsFrom S.Source source.old source.new result.count result.fault }
    ensures costs { ReadCosts (S.reads source.old) (S.reads source.new) result.count m.old m.new }
{
    let mut done = 0;
    while done < out.len() {
        m.tick();
        match source.read_at(at + done as u64, &mut out[done..]) {
            Ok(got) => {
                if got == 0 {
                    return FullRead {
                        count: done,
                        fault: None,
                    };
                }
                done += got;
            }
            Err(fault) => {
                return FullRead {
                    count: done,
                    fault: Some(fault),
                };
            }
        }
    }
    FullRead {
        count: done,
        fault: None,
    }
}
