//! What is open under a descriptor. std can ask that only by paths: a stream by `/dev/stdin` and the like. If that does
//! not exist, and for other descriptors, the path is in `/proc/self/fd`.

ghost use Rattle.std.specs.Prelude.{◌≡◌, false, IsTrue, IsOk, IfOk, IsSome, IfSome, pos, codes};
ghost use Rattle.sys_file.specs.Openings.{creates};
ghost use Rattle.sys_file.specs.System.{Describes, KeepsFiles};

use std::io;
use sys_file::{Opening, Stat, System};

/// Standard input.
pub const INPUT: i32 = 0;

/// Standard output.
pub const OUTPUT: i32 = 1;

/// Standard error.
pub const ERRORS: i32 = 2;

/// What the system reports about the file that is open under a descriptor.
pub fn stat_of_open<S: System>(system: &S, descriptor: i32) -> io::Result<Stat>
    ensures input { IsTrue S.File.models → descriptor ≡ pos 0 → IsOk result × Describes S.number S.known S.stdin
        result }
    ensures output { IsTrue S.File.models → descriptor ≡ pos 1 → IsOk result × Describes S.number S.known S.stdout
        result }
{
    if let Some(stream) = stream_at(descriptor)
        && let Ok(told) = system.look(stream)
    {
        return Ok(told);
    }
    let path = format!(in system.alloc(); "/proc/self/fd/{descriptor}")?;
    system.look(path.as_str())
}

/// Opens once more what is open under a descriptor.
pub fn open_again<S: System>(system: &mut S, descriptor: i32, how: Opening) -> io::Result<S::File>
    requires { creates how ≡ false }
    ensures input { IsTrue S.File.models → descriptor ≡ pos 0 → IfOk result (λ f. (S.which f ≡ S.stdin)
        × (S.File.stands f ≡ S.holds system.new S.stdin)) }
    ensures keeps { IsTrue S.File.models → KeepsFiles S.at S.holds system.old system.new }
{
    if let Some(stream) = stream_at(descriptor) {
        match system.open(stream, how) {
            Err(error) if error.kind() == io::ErrorKind::NotFound => {}
            answer => return answer,
        }
    }
    let path = format!(in system.alloc(); "/proc/self/fd/{descriptor}")?;
    system.open(path.as_str(), how)
}

/// Whether the system shows what is open, so that a descriptor which it does not show is closed.
pub fn is_shown<S: System>(system: &S) -> bool {
    system.look("/proc/self/fd").is_ok()
}

/// The position of standard input: 0 if the system does not show it.
pub fn place_of_input<S: System>(system: &S) -> u64
    ensures { IsTrue S.File.models → result ≡ 0 }
{
    let Ok(bytes) = system.contents("/proc/self/fdinfo/0") else {
        return 0;
    };
    let Ok(text) = String::from_utf8_lossy(system.alloc(), bytes.as_slice()) else {
        return 0;
    };
    for line in text.as_str().lines() {
        if let Some(place) = line.strip_prefix("pos:") {
            return place.trim().parse::<u64>().unwrap_or(0);
        }
    }
    0
}

fn stream_at(descriptor: i32) -> Option<&'static str>
    ensures input { descriptor ≡ pos 0 → IfSome result (λ path. path.now ≡ codes "/dev/stdin") × IsSome result }
    ensures output { descriptor ≡ pos 1 → IfSome result (λ path. path.now ≡ codes "/dev/stdout") × IsSome result }
{
    match descriptor {
        INPUT => Some("/dev/stdin"),
        OUTPUT => Some("/dev/stdout"),
        ERRORS => Some("/dev/stderr"),
        _ => None,
    }
}
