//! Opening files of the system, and identifying them.

ghost use Rattle.std.specs.Prelude.{◌≡◌, [], None, IsTrue, false};
ghost use Rattle.std.proofs.lemmas.Bool.{false≢true};
ghost use Rattle.sys_file.specs.System.{IsJustOpened, nothing_known};

use crate::os_file::OsFile;
use std::alloc::Global;
use std::fs::{File, Metadata, OpenOptions, ReadDir};
use std::os::fd::AsRawFd;
use std::os::unix;
use std::os::unix::fs::MetadataExt;
use std::{fs, io, mem};
use sys_file::{Kind, Opening, Stat, System, SystemFile};

/// The system of this process.
#[derive(Clone, Copy, Drop)]
pub struct OsSystem {
    pub rt: HostRuntime,
}

impl System for OsSystem {
    type File = OsFile;

    type Names = Box<ReadDir>;

    ghost to_come = { λ _. [] };

    ghost is_file = { λ _. false };

    ghost which = { λ _. 0 };

    ghost number = { λ _ _. 0 };

    ghost known = { λ _. nothing_known };

    ghost at = { λ _ _. None };

    ghost holds = { λ _ _. [] };

    ghost stdin = { 0 };

    ghost stdout = { 0 };

    ghost has_streams = { λ t. absurd (false≢true t) };

    fn alloc(&self) -> Global {
        self.rt.alloc()
    }

    fn look(&self, path: &str) -> io::Result<Stat> {
        Ok(stat_of(&fs::metadata(&self.rt, path)?))
    }

    fn stat(&self, file: &OsFile) -> io::Result<Stat> {
        Ok(stat_of(&file.file()?.metadata()?))
    }

    #[inline(never)]
    fn open(&mut self, path: &str, how: Opening) -> io::Result<OsFile> {
        let mut options = OpenOptions::new();
        options.read(how.reads());
        options.write(how.writes());
        options.create(how.creates());
        Ok(OsFile::File(options.open(&self.rt, path)?))
    }

    fn again(&self, file: &OsFile) -> io::Result<OsFile> {
        Ok(OsFile::File(file.file()?.try_clone()?))
    }

    fn close(&mut self, file: OsFile) {
        mem::drop(file)
    }

    fn descriptor(&self, file: &OsFile) -> i32 {
        match file {
            OsFile::File(file) => file.as_raw_fd(),
            OsFile::Input(stdin) => stdin.as_raw_fd(),
            OsFile::Output(stdout, _) => stdout.as_raw_fd(),
        }
    }

    fn input(&self) -> OsFile {
        OsFile::Input(self.rt.stdin())
    }

    fn output(&self, synced: Option<OsFile>) -> OsFile
        ensures fresh { IsJustOpened ⟦<OsFile as SystemFile>⟧.models ⟦<OsFile as SystemFile>⟧.place
            ⟦<OsFile as SystemFile>⟧.past result }
        ensures empty { IsTrue ⟦<OsFile as SystemFile>⟧.models → ⟦<OsFile as SystemFile>⟧.stands result ≡ [] }
    {
        match synced {
            Some(OsFile::File(file)) => OsFile::Output(self.rt.stdout(), Some(file)),
            _ => OsFile::Output(self.rt.stdout(), None),
        }
    }

    fn contents(&self, path: &str) -> io::Result<Vec<u8>> {
        fs::read(&self.rt, path)
    }

    // The reader of a folder has 8 KiB. A call, and each function that passes it on, would have them on the stack.
    #[inline(never)]
    fn names(&self, folder: &str) -> io::Result<Box<ReadDir>> {
        Ok(Box::new(self.rt.alloc(), fs::read_dir(&self.rt, folder)?)?)
    }

    fn next_name(&self, names: &mut Box<ReadDir>) -> Option<io::Result<String>> {
        match names.next()? {
            Ok(entry) => Some(text_of(self.rt.alloc(), entry.file_name())),
            Err(error) => Some(Err(error)),
        }
    }

    fn whole_path(&self, path: &str) -> io::Result<String> {
        let path = fs::canonicalize(&self.rt, path)?;
        text_of(self.rt.alloc(), path.as_str())
    }

    fn make_folders(&mut self, path: &str) -> io::Result<()> {
        fs::create_dir_all(&self.rt, path)
    }

    fn make_link(&mut self, to: &str, path: &str) -> io::Result<()> {
        unix::fs::symlink(&self.rt, to, path)
    }

    fn remove(&mut self, path: &str) -> io::Result<()> {
        fs::remove_file(&self.rt, path)
    }
}

fn text_of(alloc: Global, text: &str) -> io::Result<String> {
    Ok(String::from_str(alloc, text)?)
}

pub(crate) fn stat_of(found: &Metadata) -> Stat {
    Stat {
        kind: Kind::of_mode(found.mode()),
        on: found.dev(),
        number: found.ino(),
        device: found.rdev(),
        length: found.len(),
        second: found.mtime(),
        nanosecond: found.mtime_nsec(),
    }
}
