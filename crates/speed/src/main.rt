//! The jobs that users wait for, on images of real shapes, for `bench/run`. Each job prints one line of digests: of all
//! that the calls of the libraries returned and wrote. The words are a job, the file of an image if the job reads one,
//! and a number. Each number gives other images or other limits. Without words each job is done on a small image.
//!
//! | file | has |
//! |---|---|
//! | `main.rt`, `jobs.rt` | which job the words name, and the size of each job |
//! | `images.rt`, `random.rt` | the images |
//! | `devices.rt`, `digest.rt` | devices in memory that keep a digest of what is written |
//! | `cutting.rt`, `flashing.rt`, `reading.rt`, `raw.rt`, `comparing.rt` | the jobs |
#![tactic(auto)]

mod comparing;
mod cutting;
mod devices;
mod digest;
mod flashing;
mod images;
mod jobs;
mod random;
mod raw;
mod reading;

use abt_io::{Meter, Window};
use anyhow::Result;
use jobs::{done, done_with_file, small};
use std::env;

fn main(rt: HostRuntime) -> Result<()> {
    let mut window = Box::new(rt.alloc(), Window::new())?;
    let w = &mut *window;
    let mut m = Meter::new();
    let args = env::args(&rt)?.collect::<Vec<String>>(rt.alloc())?;
    match args.as_slice() {
        [_, job, seed] => done(rt, job.as_str(), seed.as_str(), w, &mut m),
        [_, job, file, seed] => {
            done_with_file(rt, job.as_str(), file.as_str(), seed.as_str(), w, &mut m)
        }
        _ => small(rt, w, &mut m),
    }
}
