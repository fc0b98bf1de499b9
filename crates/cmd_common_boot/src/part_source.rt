//! The source of a part of an image: a file, or a range of one.

ghost use Rattle.std.specs.Prelude.{◌≡◌, ◌<◌, ◌≤◌, ◌+◌, ◌^◌, Some, None, IsTrue};
ghost use Rattle.std.specs.Prelude.{length, option_map};
ghost use Rattle.cmd_common_boot.specs.Ranges.{ReadsIn, range_bytes, count_in, long_in};
ghost use Rattle.cmd_common_boot.specs.RangesLaws.{part_bytes, part_sized};

use abt_io::{DeviceFault, Source, Tally};
use sys_disk::Lasting;
use sys_refusals::FileArg;

/// A range of a file, or no bytes. It models its contents where its file does.
#[derive(Drop)]
pub struct PartSource<'a, S: Source + Lasting> {
    pub file: Option<S>,
    /// Where it begins in the file.
    pub at: u64,
    /// How many bytes it has.
    pub size: u64,
    /// The file of which it is all, or a range.
    pub place: Option<FileArg<'a>>,
    is_whole: bool,
    has_failed: bool,
    calls: Tally,
    pub ghost lies: { IsTrue S.models → at + size ≤ long_in (option_map S.content file) },
    pub ghost short: { IsTrue S.models → long_in (option_map S.content file) < 2 ^ 64 },
    pub ghost all: { IsTrue S.models → IsTrue is_whole → long_in (option_map S.content file) ≤ size },
}

impl<'a, S: Source + Lasting> PartSource<'a, S> {
    /// No bytes.
    pub fn empty() -> PartSource<'a, S>
        ensures size { result.size ≡ 0 }
        ensures file { result.file ≡ None }
    {
        PartSource {
            file: None,
            at: 0,
            size: 0,
            place: None,
            is_whole: false,
            has_failed: false,
            calls: Tally::new(),
        }
    }

    /// All of a file.
    pub fn whole(file: S, place: FileArg<'a>) -> PartSource<'a, S>
        ensures file { result.file ≡ Some file }
        ensures at { result.at ≡ 0 }
        ensures size { IsTrue S.models → result.size ≡ length (S.content file) }
    {
        let size = file.length();
        PartSource {
            file: Some(file),
            at: 0,
            size,
            place: Some(place),
            is_whole: true,
            has_failed: false,
            calls: Tally::new(),
        }
    }

    /// This many bytes of a file from a position on, all of which it has.
    pub fn range(file: S, place: FileArg<'a>, at: u64, size: u64) -> PartSource<'a, S>
        requires { IsTrue S.models → at + size ≤ length (S.content file) }
        ensures file { result.file ≡ Some file }
        ensures at { result.at ≡ at }
        ensures size { result.size ≡ size }
    {
        let _whole = file.length();
        PartSource {
            file: Some(file),
            at,
            size,
            place: Some(place),
            is_whole: false,
            has_failed: false,
            calls: Tally::new(),
        }
    }

    /// Whether a fault of packing may come from this part: it was not read as found, or no section has room for it.
    pub fn is_at_fault(&self) -> bool {
        self.has_failed || self.size > u32::MAX as u64
    }
}

// Reads from a file that may be none.
fn read_in<S: Source>(file: &mut Option<S>, at: u64, out: &mut [u8]) -> Result<usize, DeviceFault>
    requires { length out.old ≤ 65536 }
    ensures { ReadsIn S.Source result file.old file.new at out.new }
{
    match file {
        Some(file) => file.read_at(at, out),
        None => Ok(0),
    }
}

// How long a file is now, or 0.
fn length_in<S: Source + Lasting>(file: &mut Option<S>) -> u64
    ensures length { IsTrue S.models → result ≡ long_in (option_map S.content file.old) }
    ensures content { IsTrue S.models → option_map S.content file.new ≡ option_map S.content file.old }
    ensures given { option_map S.given file.new ≡ option_map S.given file.old }
    ensures faults { option_map S.read_faults file.new ≡ option_map S.read_faults file.old }
{
    match file {
        Some(file) => file.length_now(),
        None => 0,
    }
}

impl<S: Source + Lasting> Source for PartSource<'_, S> {
    ghost models = { S.models };

    ghost content = { λ p. range_bytes (option_map S.content p.file) p.at p.size };

    ghost size = { λ p. p.size };

    ghost reads = { λ p. p.calls.number };

    ghost given = { λ p. count_in (option_map S.given p.file) };

    ghost read_faults = { λ p. count_in (option_map S.read_faults p.file) };

    ghost sized = { λ p t. part_sized (option_map S.content p.file) p.at p.size (p.lies t) };

    ghost are_bytes = { λ p t. part_bytes S.content p.file p.at p.size (λ s. S.are_bytes s t) };

    fn length(&self) -> u64 {
        self.size
    }

    fn read_at(&mut self, at: u64, out: &mut [u8]) -> Result<usize, DeviceFault> {
        self.calls.add(1);
        let left = self.size.saturating_sub(at);
        let room = left.min(out.len() as u64) as usize;
        let from = self.at.saturating_add(at);
        let answer = read_in(&mut self.file, from, &mut out[..room]);
        let came = answer.unwrap_or(0);
        self.has_failed = self.has_failed || came == 0 && room > 0;
        if self.is_whole && came as u64 == left {
            self.ask_length();
        }
        answer
    }
}

impl<S: Source + Lasting> PartSource<'_, S> {
    // Takes the file's length once more, so that a file that grew is no longer as long as it was.
    fn ask_length(&mut self)
        requires { IsTrue self.old.is_whole }
        ensures content { IsTrue S.models → option_map S.content self.new.file ≡ option_map S.content self.old.file }
        ensures at { self.new.at ≡ self.old.at }
        ensures size { IsTrue S.models → self.new.size ≡ self.old.size }
        ensures calls { self.new.calls ≡ self.old.calls }
        ensures given { option_map S.given self.new.file ≡ option_map S.given self.old.file }
        ensures faults { option_map S.read_faults self.new.file ≡ option_map S.read_faults self.old.file }
    {
        let length = length_in(&mut self.file);
        self.has_failed = self.has_failed || length != self.size;
        self.size = length;
    }
}
