//! Which numbered files a folder has: `PREFIX.1` and so on.

ghost use Rattle.std.specs.Prelude.{◌≡◌, ◌≢◌, ◌∷◌, ℕ, List, None, Some, IsTrue, IfOk, IfErr, is_some};
ghost use Rattle.std.specs.IoError.{error_kind};
ghost use Rattle.sys_disk.specs.LeftOver.{IsNextLeft};
ghost use Rattle.sys_numbered_names.specs.Numbers.{NamesNumbers, HasNoNumber, IsLeastSoFar, PutsNumbersIn};
ghost use Rattle.sys_refusals.specs.Paths.{numbered};

use crate::names::{lesser, number_behind};
use std::alloc::AllocError;
use std::io;
use std::io::ErrorKind;
use sys_file::System;

/// The least number above this one at which a file exists, after the path of its prefix and a point. If the system does
/// not list the folder, only the next number is examined.
pub fn next_number<S: System>(
    system: &S,
    prefix: &str,
    behind: u32,
) -> Result<Option<u32>, AllocError>
    ensures { IsTrue S.File.models → IfOk result (IsNextLeft (λ n. S.at system.now (numbered prefix.now (Some n)))
        behind) }
{
    match least_number(system, prefix, behind) {
        Ok(least) => Ok(least),
        Err(error) if error.kind() == ErrorKind::OutOfMemory => Err(AllocError),
        Err(_) => only_next(system, prefix, behind),
    }
}

fn least_number<S: System>(system: &S, prefix: &str, behind: u32) -> io::Result<Option<u32>>
    ensures least { IsTrue S.File.models → IfOk result (IsNextLeft (λ n. S.at system.now (numbered prefix.now (Some n)))
        behind) }
    ensures none { IsTrue S.File.models → IfErr result (λ e. error_kind e ≢ ErrorKind.OutOfMemory
        → HasNoNumber (λ n. S.at system.now (numbered prefix.now (Some n)))) }
{
    let (folder, name) = folder_and_name(prefix);
    let mut names = match system.names(folder) {
        Ok(names) => names,
        Err(error) => return Err(error),
    };
    least_of(system, &mut names, prefix, name, behind)
}

// The folder of a path, and what comes after its last slash.
fn folder_and_name(prefix: &str) -> (&str, &str)
    ensures { PutsNumbersIn result.0.now result.1.now prefix.now }
{
    match prefix.rsplit_once('/') {
        Some((folder, name)) if folder.is_empty() => ("/", name),
        Some((folder, name)) => (folder, name),
        None => (".", prefix),
    }
}

// The least number of a list of names that has each one at which a file is.
fn least_of<S: System>(
    system: &S,
    names: &mut S::Names,
    prefix: &str,
    name: &str,
    behind: u32,
) -> io::Result<Option<u32>>
    requires { IsTrue S.File.models → NamesNumbers (λ n. S.at system.now (numbered prefix.now (Some n))) name.now
        (S.to_come names.old) }
    ensures least { IsTrue S.File.models → IfOk result (IsNextLeft (λ n. S.at system.now (numbered prefix.now (Some n)))
        behind) }
    ensures failed { IsTrue S.File.models → IfErr result (λ e. error_kind e ≡ ErrorKind.OutOfMemory) }
{
    let mut least = None;
    for _ in 0..u64::MAX {
        let found = match system.next_name(names) {
            Some(Ok(found)) => found,
            Some(Err(error)) if error.kind() == ErrorKind::InvalidFilename => continue,
            Some(Err(error)) => return Err(error),
            None => return Ok(least),
        };
        match with_name(system, prefix, name, behind, least, found.as_str()) {
            Ok(less) => least = less,
            Err(error) => return Err(error),
        }
    }
    // No folder has so many names.
    Err(io::Error::from(ErrorKind::OutOfMemory))
}

// The least number, once one name more is known.
fn with_name<S: System>(
    system: &S,
    prefix: &str,
    name: &str,
    behind: u32,
    least: Option<u32>,
    found: &str,
) -> io::Result<Option<u32>>
    ensures least { IsTrue S.File.models → IfOk result (λ less. (rest : List (List ℕ)) → IsLeastSoFar
        (λ n. S.at system.now (numbered prefix.now (Some n))) name.now behind (found.now ∷ rest) least
        → IsLeastSoFar (λ n. S.at system.now (numbered prefix.now (Some n))) name.now behind rest less) }
    ensures failed { IfErr result (λ e. error_kind e ≡ ErrorKind.OutOfMemory) }
{
    let less = lesser(least, behind, number_behind(found, name));
    let Some(number) = less else {
        return Ok(least);
    };
    if is_least(least, number) {
        return Ok(least);
    }
    match is_there(system, prefix, number) {
        Ok(true) => Ok(less),
        Ok(false) => Ok(least),
        Err(_) => Err(io::Error::from(ErrorKind::OutOfMemory)),
    }
}

// Whether this number is the least so far.
fn is_least(least: Option<u32>, number: u32) -> bool
    ensures { IsTrue result → least ≡ Some number }
{
    match least {
        Some(least) => least == number,
        None => false,
    }
}

// Whether something has this number.
fn is_there<S: System>(system: &S, prefix: &str, number: u32) -> Result<bool, AllocError>
    ensures { IsTrue S.File.models → IfOk result (λ is. is ≡ is_some (S.at system.now (numbered prefix.now
        (Some number)))) }
{
    let path = format!(in system.alloc(); "{prefix}.{number}")?;
    match system.look(path.as_str()) {
        Ok(_) => Ok(true),
        Err(_) => Ok(false),
    }
}

fn only_next<S: System>(system: &S, prefix: &str, behind: u32) -> Result<Option<u32>, AllocError>
    requires { IsTrue S.File.models → HasNoNumber (λ n. S.at system.now (numbered prefix.now (Some n))) }
    ensures { IsTrue S.File.models → IfOk result (IsNextLeft (λ n. S.at system.now (numbered prefix.now (Some n)))
        behind) }
{
    let Some(next) = behind.checked_add(1) else {
        return Ok(None);
    };
    match is_there(system, prefix, next) {
        Ok(true) => Ok(Some(next)),
        Ok(false) => Ok(None),
        Err(error) => Err(error),
    }
}
