//! Words `@FILE`, which are replaced by the lines of a file.

ghost use Rattle.std.specs.Prelude.{◌≡◌, ◌⊎◌, [], IsTrue, IfOk, IfErr, OnOk, map, string_bytes};
ghost use Rattle.sys_disk.specs.Counts.{call};
ghost use Rattle.sys_disk.specs.World.{HasFailed};
ghost use Rattle.sys_refusals.specs.Paths.{path_in};
ghost use Rattle.sys_refusals.specs.declared.refusal.HostFault.TheVariants.{Memory};
ghost use Rattle.cmd_common_sparse.specs.ImagePath.{image_path};
ghost use Rattle.words_program.specs.WordFiles.{ReadsNext, ReadsWordFiles};

use std::alloc::Global;
use sys_disk::Disk;
use sys_refusals::{FileArg, HostRefusal};
use words_values::file_of;

/// The texts of the files that these words name, in order. They are read, so no output may be one of them.
pub fn read_word_files<'a, D: Disk>(
    disk: &mut D,
    words: &'a [String],
    alloc: Global,
) -> Result<Vec<String>, HostRefusal<'a>>
    requires first { IsTrue D.models → (D.held disk.old).begun ≡ [] }
    // the texts are the contents of the files, in order, and no other file was opened
    ensures texts { IsTrue D.models → IfOk result (λ texts. ReadsWordFiles (map string_bytes words.now)
        (map string_bytes texts.items) (D.world disk.old) (D.held disk.old) (D.held disk.new)) }
    // every file stays as it is
    ensures world { IsTrue D.models → D.world disk.new ≡ D.world disk.old }
    // it fails if a file could not be read, or an allocation failed
    ensures refused { IsTrue D.models → IfErr result (λ refusal.
        HasFailed (call refusal.fault) (D.held disk.old) (D.held disk.new) ⊎ (refusal.fault ≡ Memory)) }
{
    let mut texts = Vec::new(alloc);
    for word in words {
        match read_next(disk, word.as_str(), &mut texts) {
            Ok(()) => {}
            Err(refusal) => return Err(refusal),
        }
    }
    Ok(texts)
}

// One word more: its text is the last, if it names a file.
fn read_next<'a, D: Disk>(
    disk: &mut D,
    word: &'a str,
    texts: &mut Vec<String>,
) -> Result<(), HostRefusal<'a>>
    requires first { IsTrue D.models → (D.held disk.old).begun ≡ [] }
    ensures texts { IsTrue D.models → OnOk result (ReadsNext word.now (map string_bytes texts.old.items)
        (map string_bytes texts.new.items) (D.world disk.old) (D.held disk.old) (D.held disk.new)) }
    ensures world { IsTrue D.models → D.world disk.new ≡ D.world disk.old }
    ensures refused { IsTrue D.models → IfErr result (λ refusal.
        HasFailed (call refusal.fault) (D.held disk.old) (D.held disk.new) ⊎ (refusal.fault ≡ Memory)) }
{
    let Some(path) = file_of(word) else {
        return Ok(());
    };
    let text = match disk.text(word_file(path)) {
        Ok(text) => text,
        Err(refusal) => return Err(refusal),
    };
    match texts.push(text) {
        Ok(()) => Ok(()),
        Err(_) => Err(HostRefusal::memory()),
    }
}

// The file after an `@`: `@-` is standard input.
fn word_file<'a>(path: &'a str) -> FileArg<'a>
    ensures { path_in result ≡ image_path path.now }
{
    FileArg {
        role: "@FILE",
        folder: None,
        name: path,
        number: None,
    }
}
