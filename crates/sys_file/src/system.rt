//! The files of a system: opening files, and identifying them.

ghost use Rattle.std.specs.Prelude.{◌≡◌, ◌≢◌, [], ◌∷◌, ℕ, List, Bool, IsTrue, IfOk, IfErr, IfSome, IsErr, Option, None};
ghost use Rattle.std.specs.Prelude.{false, string_bytes};
ghost use Rattle.std.specs.IoError.{error_kind};
ghost use Rattle.sys_file.specs.System.{StatsFile, IsJustOpened, LooksAt, Describes, OpensAt, ClosesFile};
ghost use Rattle.sys_file.specs.Folders.{ListsFolder, HasNone};
ghost use Rattle.sys_file.specs.Openings.{creates};
ghost use Rattle.sys_file.specs.System.{HasStreams};
ghost use Rattle.sys_file.specs.declared.stat.Stat.{Stat};

use crate::opening::Opening;
use crate::stat::Stat;
use crate::system_file::SystemFile;
use std::alloc::Global;
use std::io;
use std::io::ErrorKind;

/// The files of a system. Opening a file does not empty it.
///
/// Each file has a number, by which contracts know it. It follows from what identifies the file, so two paths may lead
/// to one file. What is written to an open file is in the file of that number once it is closed.
///
/// A file that is not regular and is opened to be created is modelled as holding only what this run sends there. So a
/// system models nothing of a block device that is written from its beginning on.
pub trait System {
    /// One open file.
    type File: SystemFile + Drop;

    /// Whether the file is a regular file, where it models its content.
    ghost is_file: { Self.File → Bool };

    /// The number of an open file.
    ghost which: { Self.File → ℕ };

    /// The number of the file that has this number on this device. A block device is on no device, and has its own
    /// number there.
    ghost number: { Option ℕ → ℕ → ℕ };

    /// What is always reported about the file of a number. Lengths and times may differ.
    ghost known: { ℕ → Stat };

    /// The number of the file that a path leads to.
    ghost at: { Self → List ℕ → Option ℕ };

    /// What each file holds.
    ghost holds: { Self → ℕ → List ℕ };

    /// The number of the file that standard input is, and of the one that standard output is.
    ghost stdin: { ℕ };

    ghost stdout: { ℕ };

    /// The names in a folder that were not returned yet.
    type Names: Drop;

    /// These names, in the order in which they will be returned.
    ghost to_come: { Self.Names → List (List ℕ) };

    /// The allocator.
    fn alloc(&self) -> Global;

    /// What is at a path, after following links.
    fn look(&self, path: &str) -> io::Result<Stat>
        ensures { IsTrue Self.File.models → LooksAt number known (at self.now path.now) result };

    /// What an open file is.
    fn stat(&self, file: &Self::File) -> io::Result<Stat>
        ensures stats { IsTrue Self.File.models → IfOk result (StatsFile (is_file file.now)
            (Self.File.stands file.now)) }
        ensures describes { IsTrue Self.File.models → Describes number known (which file.now) result };

    /// Opens a file.
    fn open(&mut self, path: &str, how: Opening) -> io::Result<Self::File>
        ensures fresh { IfOk result (IsJustOpened Self.File.models Self.File.place Self.File.past) }
        ensures blank { IsTrue Self.File.models → IsTrue (creates how) → IfOk result (λ f. is_file f ≡ false
            → Self.File.stands f ≡ []) }
        ensures missing { IsTrue Self.File.models → IfErr result (λ e. error_kind e ≡ ErrorKind.NotFound
            → at self.old path.now ≡ None) }
        ensures opens { IsTrue Self.File.models → OpensAt (creates how) path.now result which Self.File.stands
            (at self.old) (at self.new) (holds self.old) (holds self.new) };

    /// Opens the same file once more.
    fn again(&self, file: &Self::File) -> io::Result<Self::File>
        ensures same { IsTrue Self.File.models → IfOk result (λ f. Self.File.stands f ≡ Self.File.stands file.now) }
        ensures which { IsTrue Self.File.models → IfOk result (λ f. which f ≡ which file.now) };

    /// Closes an open file. What was written to it is in the file of its number.
    fn close(&mut self, file: Self::File)
        ensures { IsTrue Self.File.models → ClosesFile (which file) (Self.File.stands file) (at self.old) (at self.new)
            (holds self.old) (holds self.new) };

    /// The descriptor of an open file.
    fn descriptor(&self, file: &Self::File) -> i32;

    /// Standard input, which is at its beginning.
    fn input(&self) -> Self::File
        ensures fresh { IsJustOpened Self.File.models Self.File.place Self.File.past result }
        ensures which { IsTrue Self.File.models → which result ≡ stdin }
        ensures content { IsTrue Self.File.models → Self.File.stands result ≡ holds self.now stdin };

    /// Standard output, which holds what this run sends there. A sync syncs the given file, which is the same one, if
    /// one is given.
    fn output(&self, synced: Option<Self::File>) -> Self::File
        ensures fresh { IsJustOpened Self.File.models Self.File.place Self.File.past result }
        ensures empty { IsTrue Self.File.models → Self.File.stands result ≡ [] }
        ensures which { IsTrue Self.File.models → which result ≡ stdout };

    /// All bytes of a small file in which the system describes itself. A system that models its files has no such one.
    fn contents(&self, path: &str) -> io::Result<Vec<u8>>
        ensures { IsTrue Self.File.models → IsErr result };

    /// The names of the entries of a folder. If the call fails, no file is in the folder, or memory was refused.
    fn names(&self, folder: &str) -> io::Result<Self::Names>
        ensures lists { IsTrue Self.File.models → IfOk result (λ names. ListsFolder (at self.now) folder.now
            (to_come names)) }
        ensures none { IsTrue Self.File.models → IfErr result (λ e. error_kind e ≢ ErrorKind.OutOfMemory
            → HasNone (at self.now) folder.now) };

    /// The next name, if there is one. A name that is no text is an invalid one.
    fn next_name(&self, names: &mut Self::Names) -> Option<io::Result<String>>
        ensures ended { IsTrue Self.File.models → result ≡ None → to_come names.old ≡ [] }
        ensures next { IsTrue Self.File.models → IfSome result (λ r. IfOk r (λ name. to_come names.old
            ≡ string_bytes name ∷ to_come names.new)) }
        ensures invalid { IsTrue Self.File.models → IfSome result (λ r. IfErr r (λ e. error_kind e
            ≡ ErrorKind.InvalidFilename → to_come names.new ≡ to_come names.old)) }
        ensures failed { IsTrue Self.File.models → IfSome result (λ r. IfErr r (λ e. error_kind e
            ≢ ErrorKind.InvalidFilename → error_kind e ≡ ErrorKind.OutOfMemory)) };

    /// The path without links that leads to the same file as this path.
    fn whole_path(&self, path: &str) -> io::Result<String>;

    /// Creates a folder and the folders above it, where they do not exist.
    fn make_folders(&mut self, path: &str) -> io::Result<()>;

    /// Creates a symbolic link to a path.
    fn make_link(&mut self, to: &str, path: &str) -> io::Result<()>;

    /// Removes the name of a file or of a link.
    fn remove(&mut self, path: &str) -> io::Result<()>;

    /// The paths of standard input and standard output are `/dev/stdin` and `/dev/stdout`.
    ghost has_streams: { IsTrue Self.File.models → (s : Self) → HasStreams stdin stdout (at s) };
}
