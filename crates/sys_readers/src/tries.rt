//! System calls that are repeated when a signal interrupts them.
//!
//! Each call is tried at most 2^64 - 1 times: the loops are `for` loops over a range, so they end. Every error is a
//! failure, and so is a write of a nonempty list that took no byte. A failure has the number of the system's error
//! where there is one.

ghost use Rattle.std.specs.Prelude.{◌≡◌, ◌≢◌, ◌<◌, ◌≤◌, Some, None, Ok, Err, IfOk, IfErr, IfSome, length};
ghost use Rattle.std.specs.IoError.{error_kind, raw_os_error};
ghost use Rattle.abt_io.specs.Count.{count_of};

use std::io;
use std::io::{ErrorKind, Read, Write};

// The outcome of a call that has to move at least `least` bytes. It is `None` where a signal interrupted the call, so
// that it is tried again.
fn moved(answer: io::Result<usize>, least: usize) -> Option<Result<usize, Option<i32>>>
    ensures within { IfSome result (λ r. count_of r ≤ count_of answer) }
    ensures progress { IfSome result (λ r. IfOk r (λ n. least ≤ n)) }
    ensures told { IfOk answer (λ n. least ≤ n → result ≡ Some (Ok n)) }
    ensures few { IfOk answer (λ n. n < least → result ≡ Some (Err None)) }
    ensures again { IfErr answer (λ e. error_kind e ≡ ErrorKind.Interrupted → result ≡ None) }
    ensures given_up { IfErr answer (λ e. error_kind e ≢ ErrorKind.Interrupted → result ≡ Some (Err (raw_os_error e))) }
{
    match answer {
        Ok(n) => {
            if n < least {
                return Some(Err(None));
            }
            Some(Ok(n))
        }
        Err(error) => {
            if error.kind() == ErrorKind::Interrupted {
                return None;
            }
            Some(Err(error.raw_os_error()))
        }
    }
}

/// One read.
pub(crate) fn read<R: Read>(reader: &mut R, out: &mut [u8]) -> Result<usize, Option<i32>>
    ensures within { count_of result ≤ length out.new }
{
    for _ in 0..u64::MAX {
        if let Some(answer) = moved(reader.read(out), 0) {
            return answer;
        }
    }
    Err(None)
}

/// One write.
pub(crate) fn write<W: Write>(writer: &mut W, bytes: &[u8]) -> Result<usize, Option<i32>>
    ensures within { count_of result ≤ length bytes.now }
    ensures progress { IfOk result (λ n. 0 < length bytes.now → 0 < n) }
{
    let least = bytes.len().min(1);
    for _ in 0..u64::MAX {
        if let Some(answer) = moved(writer.write(bytes), least) {
            return answer;
        }
    }
    Err(None)
}
