//! The jobs, and the size of each.

use crate::comparing::compare;
use crate::cutting::{cut_file, cut_single};
use crate::digest::Digest;
use crate::flashing::deliver_mixed;
use crate::raw::write_raw;
use crate::reading::read_all;
use abt_io::{Meter, Window};
use anyhow::{Context, Result, bail};
use std::alloc::Global;
use std::fs::File;
use sys_devices::FileSource;
use sys_std::OsFile;

/// The size of a job.
#[derive(Clone, Copy, Drop)]
pub struct Size {
    /// How many images or limits it goes through.
    pub rounds: u32,
    /// How many chunks or runs an image has.
    pub chunks: u32,
}

const SMALL: Size = Size {
    rounds: 2,
    chunks: 40,
};

// A job takes a second or two.
fn size_of(job: &str) -> Size {
    match job {
        "pieces" => Size {
            rounds: 40,
            chunks: 6_000,
        },
        "single" => Size {
            rounds: 8,
            chunks: 400_000,
        },
        "read" => Size {
            rounds: 30,
            chunks: 10_000,
        },
        "raw" | "raw_once" => Size {
            rounds: 20,
            chunks: 400,
        },
        "compare" => Size {
            rounds: 30,
            chunks: 6_000,
        },
        _ => SMALL,
    }
}

fn number(text: &str) -> Result<u64> {
    let number = text.parse::<u32>().context("SEED")?;
    Ok(u64::from(number))
}

fn show(rt: HostRuntime, job: &str, digest: &Digest) -> Result<()> {
    let Digest { sum, placed } = *digest;
    println!(rt; "{job} {sum:016x} {placed:016x}")?;
    Ok(())
}

fn digest_of(
    alloc: Global,
    job: &str,
    seed: u64,
    size: Size,
    w: &mut Window,
    m: &mut Meter,
) -> Result<Digest> {
    match job {
        "pieces" => deliver_mixed(alloc, seed, size, w, m),
        "single" => cut_single(alloc, seed, size, w, m),
        "read" => read_all(alloc, seed, size, w, m),
        "raw" => write_raw(alloc, seed, size, false, w, m),
        "raw_once" => write_raw(alloc, seed, size, true, w, m),
        "compare" => compare(alloc, seed, size, w, m),
        _ => bail!("no such job"),
    }
}

/// Does a job that makes its own images.
pub fn done(rt: HostRuntime, job: &str, seed: &str, w: &mut Window, m: &mut Meter) -> Result<()> {
    let seed = number(seed)?;
    let digest = digest_of(rt.alloc(), job, seed, size_of(job), w, m)?;
    show(rt, job, &digest)
}

/// Cuts the sparse image of a file at many limits.
pub fn done_with_file(
    rt: HostRuntime,
    job: &str,
    file: &str,
    seed: &str,
    w: &mut Window,
    m: &mut Meter,
) -> Result<()> {
    let seed = number(seed)?;
    let file = File::open(&rt, file)?;
    let Ok(mut source) = FileSource::new(OsFile::File(file)) else {
        bail!("the file was not opened");
    };
    let digest = cut_file(&mut source, seed, w, m)?;
    show(rt, job, &digest)
}

/// Does each job on small images.
pub fn small(rt: HostRuntime, w: &mut Window, m: &mut Meter) -> Result<()> {
    for job in ["pieces", "single", "read", "raw", "raw_once", "compare"].iter() {
        let digest = digest_of(rt.alloc(), job, 1, SMALL, w, m)?;
        show(rt, job, &digest)?;
    }
    Ok(())
}
