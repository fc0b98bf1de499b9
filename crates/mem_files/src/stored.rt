//! What files in memory hold, and which of them a path leads to.

ghost use Rattle.std.specs.Prelude.{◌≡◌};
ghost use Rattle.mem_files.specs.Stored.{leads};

/// What a file holds.
#[derive(Drop)]
pub struct MemoryFile {
    pub bytes: Vec<u8>,
}

/// A path, and the number of the file that it leads to, counted from 0. Two paths may lead to one file.
#[derive(Drop)]
pub struct MemoryPath {
    pub name: String,
    pub file: u64,
}

/// The file that a path leads to: that of the first of these which has this name.
pub fn file_at(paths: &[MemoryPath], name: &str) -> Option<u64>
    ensures { result ≡ leads paths.now name.now }
{
    for path in paths {
        if name == path.name.as_str() {
            return Some(path.file);
        }
    }
    None
}
