//! Which numbered files a disk in memory has left.

ghost use Rattle.std.specs.Prelude.{◌≡◌, ◌∷◌, ◌++◌, IfOk, IfErr, decimal};
ghost use Rattle.sys_disk.specs.LeftOver.{IsNextLeft, path_with};
ghost use Rattle.mem_disk.specs.Memory.{world_of};
ghost use Rattle.mem_files.specs.Stored.{leads};

use crate::{MemoryDisk, MemoryPath};
use std::alloc::AllocError;
use sys_numbered_names::{lesser, number_behind};
use sys_refusals::FileArg;

impl MemoryDisk {
    // The least number above this one at which a file exists.
    pub(crate) fn next_left(
        &self,
        place: FileArg<'_>,
        behind: u32,
    ) -> Result<Option<u32>, AllocError>
        ensures { IfOk result (IsNextLeft (λ n. (world_of self.now).at (path_with place.entry n)) behind) }
    {
        let unnumbered = FileArg {
            number: None,
            ..place
        };
        let front = unnumbered.path(self.alloc)?;
        Ok(least_of(self.paths.as_slice(), front.as_str(), behind))
    }
}

// The least number above this one that follows a name and a point.
fn least_of(paths: &[MemoryPath], front: &str, behind: u32) -> Option<u32>
    ensures { IsNextLeft (λ n. leads paths.now (front.now ++ (46 ∷ decimal n))) behind result }
{
    let mut least = None;
    for path in paths {
        let number = number_behind(path.name.as_str(), front);
        least = lesser(least, behind, number);
    }
    least
}
