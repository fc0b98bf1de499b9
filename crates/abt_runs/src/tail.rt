//! A raw image as classed blocks, where a last block that is not whole may be raw whatever its bytes are.
ghost use Rattle.std.specs.Prelude.{◌≡◌, ◌+◌, ◌-◌, ◌*◌, length};
ghost use Rattle.abt_runs.specs.Raw.{RawPlace, RawPlace-prop, raw_charge, raw_padding, raw_before, raw_held};
ghost use Rattle.abt_runs.specs.RawLaws.{raw_left, own_size, raw_passed, raw_copied_fits};
ghost use Rattle.abt_runs.specs.RawLaws.{raw_held_grows, raw_place_afresh, raw_afresh, raw_spared, raw_economy};
ghost use Rattle.abt_runs.specs.RawLaws.{raw_padded, raw_inside};
ghost use Rattle.abt_runs.specs.Tail.{raw_list};
ghost use Rattle.abt_runs.specs.TailLaws.{list_long, list_are_blocks};

use crate::raw::RawRuns;
use crate::{BlockRuns, Cursor, Run, RunFault, RunKind};
use abt_io::{Meter, Source, Window};

/// A raw image, and what a last block is that is filled up with zeros.
#[derive(Drop)]
pub struct TailRuns {
    pub raw: RawRuns,
    /// Whether it is raw, whatever its bytes are.
    pub is_tail_raw: bool,
}

impl BlockRuns for TailRuns {
    ghost size = { λ s. s.raw.size };

    ghost count = { λ s. s.raw.blocks };

    ghost image = { λ s. s.raw.length };

    ghost source_size = { λ s. s.raw.length };

    ghost opened = { λ s x. s.raw.length ≡ length x };

    ghost list = { λ s x. raw_list s.is_tail_raw s.raw.size x };

    ghost within = { λ s c. RawPlace s.raw.blocks s.raw.size c };

    ghost within_alike = { λ s c. RawPlace-prop s.raw.blocks s.raw.size c };

    ghost place = { λ s x c. RawPlace s.raw.blocks s.raw.size c };

    ghost left = { λ s c. s.raw.blocks - c.block };

    ghost charge = { λ s c. raw_charge s.raw.length s.raw.blocks s.raw.size c };

    ghost pass = { λ s. 2 * s.raw.length };

    ghost one = { λ s. s.raw.size };

    ghost opening = { λ s. 0 };

    ghost taken = { λ s c. c.block * (s.raw.size + 16) };

    ghost most_taken = { λ s. s.raw.blocks * (s.raw.size + 16) };

    ghost padding = { λ s c. raw_padding s.raw.blocks s.raw.size c };

    ghost reach = { λ s c. (s.raw.blocks - c.block) * s.raw.size };

    ghost together = { λ s x c. s.raw.blocks - c.block };

    ghost copied = { λ s c. raw_before s.raw.length s.raw.size c };

    ghost held = { λ s c n. raw_held s.raw.length s.raw.size c n };

    ghost inside = { λ s. raw_inside s.raw.length };

    ghost source_long = { λ s x e. e };

    ghost long = { λ s x e. list_long s.is_tail_raw s.raw.length s.raw.blocks s.raw.size x s.raw.some s.raw.covers
        s.raw.last e };

    ghost are_blocks = { λ s x e. list_are_blocks s.is_tail_raw s.raw.length s.raw.blocks s.raw.size x s.raw.some
        s.raw.covers s.raw.last e };

    ghost sized = { λ s. (s.raw.some, s.raw.words) };

    ghost one_fits = { λ s. own_size s.raw.size };

    ghost bounded = { λ s c h. h.within };

    ghost left_fits = { λ s c h. raw_left s.raw.blocks c s.raw.fits };

    ghost passed = { λ s c h. raw_passed s.raw.length s.raw.blocks s.raw.size c s.raw.some s.raw.covers s.raw.last h };

    ghost copied_fits = { λ s c h. raw_copied_fits s.raw.length s.raw.size c };

    ghost held_grows = { λ s c m n. raw_held_grows s.raw.length s.raw.size c m n };

    ghost afresh_within = { λ s c h. raw_afresh s.raw.length s.raw.blocks s.raw.size c h };

    ghost afresh_place = { λ s x c h. raw_place_afresh s.raw.blocks s.raw.size c h };

    ghost spared = { λ s. raw_spared s.raw.length s.raw.blocks s.raw.size s.raw.some s.raw.last };

    ghost economy = { λ s. raw_economy s.raw.length };

    ghost padded = { λ s c. raw_padded s.raw.blocks s.raw.size c };

    fn block_size(&self) -> u32 {
        self.raw.size
    }

    fn blocks(&self) -> u32 {
        self.raw.blocks
    }

    fn start(&self) -> Cursor {
        Cursor {
            block: 0,
            at: 0,
            chunk: 0,
            used: 0,
            ask: 1,
        }
    }

    fn next_part<S: Source>(
        &self,
        source: &mut S,
        from: Cursor,
        cap: u32,
        w: &mut Window,
        m: &mut Meter,
    ) -> Result<Run, RunFault> {
        self.raw
            .part_from(self.is_tail_raw, source, from, cap, w, m)
    }

    fn next_raw<S: Source>(
        &self,
        _source: &mut S,
        from: Cursor,
        cap: u32,
        _w: &mut Window,
        m: &mut Meter,
    ) -> Result<Run, RunFault> {
        m.close_step(0);
        Ok(Run {
            kind: RunKind::Raw,
            blocks: cap,
            here: Cursor { ask: 1, ..from },
            next: Cursor {
                block: from.block + cap,
                ask: 1,
                ..from
            },
        })
    }

    fn copy<S: Source>(
        &self,
        source: &mut S,
        here: Cursor,
        at: u64,
        out: &mut [u8],
        m: &mut Meter,
    ) -> Result<usize, RunFault> {
        self.raw.copy_from(source, here, at, out, m)
    }
}
