//! Opening one file: how it is opened, and what kind of file it has to be.

ghost use Rattle.std.specs.Prelude.{◌≡◌, IsTrue, IfOk};
ghost use Rattle.sys_file.specs.Openings.{creates, opens_to_write};
ghost use Rattle.sys_host.specs.Access.{may_write, may_create};
ghost use Rattle.sys_host.specs.Opens.{WasOpened, OpensPlace};
ghost use Rattle.sys_refusals.specs.Paths.{path_of};

use std::io;
use sys_file::{Kind, Opening, System};
use sys_identity::{Found, found_at};
use sys_refusals::{FileArg, HostFault, HostRefusal};

// The system's error number of 'Is a directory'.
const IS_A_FOLDER: i32 = 21;

/// What a command does with a file.
#[derive(Clone, Copy, Drop)]
pub enum Access {
    /// It is read from its beginning on.
    Forward,
    /// It is read at any offset, so that it must have a length.
    AnyPlace,
    /// It is written in place, and has a length.
    InPlace,
    /// It is created, or emptied if it exists.
    Create,
    /// The same, and it must be a regular file.
    CreateFile,
    /// It is created or emptied, written, and read again: a regular file.
    Spool,
}

impl Access {
    fn creates(self) -> bool {
        match self {
            Access::Forward => false,
            Access::AnyPlace => false,
            Access::InPlace => false,
            Access::Create => true,
            Access::CreateFile => true,
            Access::Spool => true,
        }
    }

    // It must be a regular file.
    fn needs_file(self) -> bool {
        match self {
            Access::Forward => false,
            Access::AnyPlace => false,
            Access::InPlace => false,
            Access::Create => false,
            Access::CreateFile => true,
            Access::Spool => true,
        }
    }
}

/// A file that was just opened.
#[derive(Drop)]
pub struct OpenedFile<F> {
    pub file: F,
    pub found: Found,
    /// Whether it existed before.
    pub was_there: bool,
}

/// Opens a file. It fails for a folder, which can be opened to be read and then gives no bytes, and for a file that is
/// not of the kind that the access needs.
///
/// Where a file is needed, a pipe is recognized by its path before it is opened: opening one can wait for ever.
pub fn open_file<'a, S: System>(
    system: &mut S,
    place: FileArg<'a>,
    access: Access,
) -> Result<OpenedFile<S::File>, HostRefusal<'a>>
    ensures opens { IfOk result (WasOpened S.File.models S.File.stands S.File.place S.File.past (may_create access)) }
    ensures place { IsTrue S.File.models → OpensPlace S.number S.known S.which S.File.stands (may_create access)
        (path_of place.entry) result (S.at system.old) (S.at system.new) (S.holds system.old) (S.holds system.new) }
{
    let Ok(path) = place.path(system.alloc()) else {
        return Err(HostRefusal::memory());
    };
    match opened_at(system, path.as_str(), access) {
        Ok(opened) => Ok(opened),
        Err(error) if is_folder_missing(&error, path.as_str(), access) => {
            Err(HostRefusal::at(HostFault::NoFolder, place, None))
        }
        Err(error) if is_of_wrong_kind(&error) && access.needs_file() => {
            Err(not_opened(&error, place).advised("it is no regular file"))
        }
        Err(error) => Err(not_opened(&error, place)),
    }
}

/// The error for a file that the system did not open.
pub fn not_opened<'a>(error: &io::Error, place: FileArg<'a>) -> HostRefusal<'a> {
    if error.kind() == io::ErrorKind::OutOfMemory {
        return HostRefusal::memory();
    }
    HostRefusal::at(HostFault::CannotOpen, place, error.raw_os_error())
}

// Whether a file was not created because its folder is missing.
fn is_folder_missing(error: &io::Error, path: &str, access: Access) -> bool {
    access.creates() && error.kind() == io::ErrorKind::NotFound && !path.is_empty()
}

// Whether a file was rejected for its kind, and not by the system.
fn is_of_wrong_kind(error: &io::Error) -> bool {
    error.kind() == io::ErrorKind::InvalidInput && error.raw_os_error().is_none()
}

fn opened_at<S: System>(
    system: &mut S,
    path: &str,
    access: Access,
) -> io::Result<OpenedFile<S::File>>
    ensures opens { IfOk result (WasOpened S.File.models S.File.stands S.File.place S.File.past (may_create access)) }
    ensures place { IsTrue S.File.models → OpensPlace S.number S.known S.which S.File.stands (may_create access)
        path.now result (S.at system.old) (S.at system.new) (S.holds system.old) (S.holds system.new) }
{
    let before = found_at(system, path).ok();
    if let Some(found) = before {
        require_kind(found.kind, access)?;
    }
    let file = system.open(path, opening(access))?;
    let found = Found::new(&system.stat(&file)?);
    require_kind(found.kind, access)?;
    Ok(OpenedFile {
        file,
        found,
        was_there: before.is_some(),
    })
}

// How the file is opened. What is only read is not opened for more.
fn opening(access: Access) -> Opening
    ensures writes { opens_to_write result ≡ may_write access }
    ensures creates { creates result ≡ may_create access }
{
    match access {
        Access::Forward => Opening::Read,
        Access::AnyPlace => Opening::Read,
        Access::InPlace => Opening::Write,
        Access::Create => Opening::Create,
        Access::CreateFile => Opening::Create,
        Access::Spool => Opening::CreateAndRead,
    }
}

fn require_kind(kind: Kind, access: Access) -> io::Result<()> {
    if kind == Kind::Folder {
        return Err(io::Error::from_raw_os_error(IS_A_FOLDER));
    }
    let is_file = kind == Kind::File;
    let is_block = kind == Kind::Block;
    let fits = match access {
        Access::Forward => true,
        Access::Create => true,
        Access::AnyPlace => is_file || is_block,
        Access::InPlace => is_file || is_block,
        Access::CreateFile => is_file,
        Access::Spool => is_file,
    };
    if fits {
        Ok(())
    } else {
        Err(io::Error::from(io::ErrorKind::InvalidInput))
    }
}
