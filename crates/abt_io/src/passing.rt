//! Passes over one request to its end.

ghost use Rattle.std.specs.Prelude.{◌≡◌, ◌≤◌, IsTrue, IsNone, min, length};
ghost use Rattle.abt_io.specs.Lent.{ReadsForward, ReadCosts};

use crate::full_reads::FullRead;
use crate::{DeviceFault, Input, Meter};

/// Passes over as many bytes as `room` has room for, or to where the input ends or fails. An empty `room`
/// passes over nothing.
pub fn pass_full<I: Input>(input: &mut I, room: &mut [u8], m: &mut Meter) -> FullRead
    requires { length room.old ≤ 65536 }
    ensures within { result.count ≤ length room.new }
    ensures all { IsTrue I.models → IsNone result.fault →
        result.count ≡ min (length room.new) (length (I.remaining input.old)) }
    ensures none { length room.old ≡ 0 → input.new ≡ input.old }
    ensures forward { ReadsForward I.Input input.old input.new result.count result.fault }
    ensures costs { ReadCosts (I.reads input.old) (I.reads input.new) result.count m.old m.new }
{
    let mut at = 0;
    while at < room.len() {
        m.tick();
        match input.pass(&mut room[at..]) {
            Ok(n) => {
                if n == 0 {
                    return FullRead {
                        count: at,
                        fault: None,
                    };
                }
                at += n;
            }
            Err(fault) => {
                return FullRead {
                    count: at,
                    fault: Some(fault),
                };
            }
        }
    }
    FullRead {
        count: at,
        fault: None,
    }
}
