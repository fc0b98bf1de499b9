//! The names of a folder.

ghost use Rattle.std.specs.Prelude.{◌≡◌, ◌∷◌, [], None, IfOk, IfErr, IfSome, drop, map, string_bytes};
ghost use Rattle.std.specs.IoError.{error_kind};
ghost use Rattle.mem_system.specs.Names.{name_in, names_of};

use mem_files::MemoryPath;
use std::alloc::Global;
use std::io;
use std::io::ErrorKind;

/// Names, and how many of them were returned.
#[derive(Drop)]
pub struct MemoryNames {
    pub names: Vec<String>,
    pub at: usize,
}

impl MemoryNames {
    /// The name of each of these, in whatever folder it is.
    pub fn of(alloc: Global, paths: &[MemoryPath]) -> Option<MemoryNames>
        ensures { IfSome result (λ it. drop it.at (map string_bytes it.names.items) ≡ names_of paths.now) }
    {
        let mut names = Vec::new(alloc);
        for path in paths {
            let name = String::from_str(alloc, name_of(path.name.as_str())).ok()?;
            names.push(name).ok()?;
        }
        Some(MemoryNames { names, at: 0 })
    }

    /// The next name.
    pub fn next_name(&mut self, alloc: Global) -> Option<io::Result<String>>
        ensures ended { result ≡ None → drop self.old.at (map string_bytes self.old.names.items) ≡ [] }
        ensures next { IfSome result (λ r. IfOk r (λ name. drop self.old.at (map string_bytes self.old.names.items)
            ≡ string_bytes name ∷ drop self.new.at (map string_bytes self.new.names.items))) }
        ensures failed { IfSome result (λ r. IfErr r (λ e. error_kind e ≡ ErrorKind.OutOfMemory)) }
    {
        if self.at >= self.names.len() {
            return None;
        }
        let Ok(name) = String::from_str(alloc, self.names[self.at].as_str()) else {
            return Some(Err(io::Error::from(ErrorKind::OutOfMemory)));
        };
        self.at += 1;
        Some(Ok(name))
    }
}

// What comes after the last slash.
fn name_of(path: &str) -> &str
    ensures { result.now ≡ name_in path.now }
{
    match path.rsplit_once('/') {
        Some((_, name)) => name,
        None => path,
    }
}
