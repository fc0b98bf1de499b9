//! What fills the buffer of an input: a file that has a position, or a stream.

ghost use Rattle.std.proofs.Props.{props};
ghost use Rattle.std.specs.Prelude.{◌≡◌, ◌≤◌, ◌-◌, ◌^◌, false, length, drop, min, IsTrue, IfSome, IfOk, option_and_then};
ghost use Rattle.sys_host.specs.Forward.{known, fixed_size, GoesPast};
ghost use Rattle.sys_host.specs.Opens.{WasOpened};

use crate::open_file::OpenedFile;
use std::io;
use std::io::Read;
use sys_file::{SystemFile, read};

/// The length of a file.
#[derive(Clone, Copy, Drop)]
pub(crate) enum Size {
    /// A regular file, which reports its length and may change.
    Told,
    /// A block device, whose length does not change.
    Fixed(u64),
}

/// The offset of the next byte of a file, and the file's length.
#[derive(Clone, Copy, Drop)]
pub(crate) struct Placed {
    at: u64,
    size: Size,
}

/// A reader that keeps the reason of its last failure.
#[derive(Drop)]
pub struct Origin<F: SystemFile + Drop> {
    pub(crate) file: F,
    placed: Option<Placed>,
    pub(crate) why: Option<i32>,
    ghost at: { IsTrue F.models → IfSome placed (λ p. p.at ≡ min (F.place file) (2 ^ 64 - 1)) } by { Prim.hlevel props },
    ghost sized: { IsTrue F.models → IfSome (option_and_then (λ p. fixed_size p.size) placed)
        (λ n. n ≡ length (F.stands file)) } by { Prim.hlevel props },
}

impl<F: SystemFile + Drop> Origin<F> {
    /// A stream, such as a pipe.
    pub(crate) fn stream(file: F) -> Origin<F>
        ensures { result.file ≡ file }
    {
        Origin {
            file,
            placed: None,
            why: None,
        }
    }

    /// A file that was just opened. A regular file and a block device have a position, which is 0.
    pub(crate) fn of_opened(opened: OpenedFile<F>) -> io::Result<Origin<F>>
        requires { WasOpened F.models F.stands F.place F.past false opened }
        ensures { IsTrue F.models → IfOk result (λ origin. (F.stands origin.file ≡ F.stands opened.file)
            × (F.place origin.file ≡ 0)) }
    {
        let OpenedFile { file, found, .. } = opened;
        let mut file = file;
        let size = if found.is_file() {
            Size::Told
        } else if found.is_block() {
            let size = file.length()?;
            file.go_to(0)?;
            Size::Fixed(size)
        } else {
            return Ok(Origin::stream(file));
        };
        Ok(Origin {
            file,
            placed: Some(Placed { at: 0, size }),
            why: None,
        })
    }

    /// Skips at most this many bytes, none of them beyond the end. It returns how many: none if only a read can tell.
    pub(crate) fn pass(&mut self, most: usize) -> usize
        ensures { GoesPast F.models result most (F.stands self.old.file) (F.stands self.new.file)
            (F.place self.old.file)
            (F.place self.new.file) }
    {
        let Some(placed) = self.placed else {
            return 0;
        };
        let left = size_of(&self.file, placed.size).saturating_sub(placed.at);
        let n = left.min(most as u64);
        if n == 0 {
            return 0;
        }
        let behind = placed.at + n;
        match self.file.go_to(behind) {
            Ok(()) => {
                self.placed = Some(Placed {
                    at: behind,
                    size: placed.size,
                });
                n as usize
            }
            Err(_) => 0,
        }
    }
}

fn size_of<F: SystemFile>(file: &F, size: Size) -> u64
    requires { IsTrue F.models → IfSome (fixed_size size) (λ n. n ≡ length (F.stands file.now)) }
    ensures { IsTrue F.models → result ≤ length (F.stands file.now) }
{
    match size {
        Size::Fixed(bytes) => bytes,
        Size::Told => match file.stamp() {
            Some(stamp) => stamp.length,
            None => 0,
        },
    }
}

impl<F: SystemFile + Drop> Read for Origin<F> {
    ghost remaining = { λ o. known F.models (drop (F.place o.file) (F.stands o.file)) };

    fn read(&mut self, bytes: &mut [u8]) -> io::Result<usize> {
        match read(&mut self.file, bytes) {
            Ok(n) => {
                if let Some(placed) = self.placed {
                    self.placed = Some(Placed {
                        at: placed.at.saturating_add(n as u64),
                        size: placed.size,
                    });
                }
                Ok(n)
            }
            Err(error) => {
                self.why = error.raw_os_error();
                Err(error)
            }
        }
    }
}
