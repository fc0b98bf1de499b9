//! The steps of an opening.
ghost use Rattle.std.specs.Prelude.{◌≡◌, ◌≤◌, ℕ, List, IfErr, OnOk, Result, Err, length, take, false};
ghost use Rattle.abt_sparse.specs.Chunk.{Header};
ghost use Rattle.abt_sparse.specs.Reading.{outcome};
ghost use Rattle.abt_sparse.specs.declared.fault.SparseFault.{SparseFault as SparseFaults};
ghost use Rattle.abt_runs.specs.Stage.{OpeningLeaves, IsOpeningOver, is_opening_done, is_more};
ghost use Rattle.abt_runs.specs.Verdict.{ComesTo, IsFormat, ends};
ghost use Rattle.abt_runs.specs.Advance.{AtChunk, Takes, TakesChunk, StepsOpening};
ghost use Rattle.abt_runs.specs.Head.{chunk_header_of};

use crate::head::{CHUNK_HEADER, head_at};
use crate::reading::load;
use crate::{OpeningProgress, OpeningStage, RunFault, SparseOpening};
use abt_io::{Meter, Source, Window};
use abt_sparse::{
    ChunkHeader, SparseFault, SparseHeader, counted_blocks, data_length, header_of, u16_at,
};

/// How long an image's header is, but for extra bytes.
const FILE_HEADER: usize = 28;

impl SparseOpening {
    /// An opening that has done nothing yet.
    pub fn begin() -> SparseOpening
        ensures fresh { result.stage ≡ OpeningStage.Header }
        ensures told { (x : List ℕ) → ComesTo result x (ends (outcome x)) }
    {
        SparseOpening {
            stage: OpeningStage::Header,
            header: SparseHeader {
                minor: 0,
                file_hdr_sz: 28,
                chunk_hdr_sz: 12,
                blk_sz: 4,
                total_blks: 0,
                total_chunks: 0,
                image_checksum: 0,
            },
            length: 0,
            index: 0,
            have: 0,
            at: 0,
        }
    }

    /// Whether the image is opened.
    pub fn done(&self) -> bool
        ensures { result ≡ is_opening_done self.now.stage }
    {
        match self.stage {
            OpeningStage::Done => true,
            OpeningStage::Header | OpeningStage::Chunks | OpeningStage::Failed(_) => false,
        }
    }

    /// Ends with a fault.
    fn fail(&mut self, fault: RunFault) -> Result<OpeningProgress, RunFault>
        ensures answer { result ≡ Err fault }
        ensures failed { self.new.stage ≡ OpeningStage.Failed fault }
    {
        self.stage = OpeningStage::Failed(fault);
        Err(fault)
    }

    /// The step over the bytes of the image's header, of a source that is so long.
    fn take_header(&mut self, bytes: &[u8], size: u64) -> Result<OpeningProgress, RunFault>
        requires here { self.old.stage ≡ OpeningStage.Header }
        requires whole { length bytes.now ≡ 28 }
        requires long { 28 ≤ size }
        ensures keeps { (x : List ℕ) → length x ≡ size → bytes.now ≡ take 28 x → (v : Result (Header × ℕ) SparseFaults)
            → ComesTo self.old x v → ComesTo self.new x v }
        ensures takes { Takes 28 result self.old self.new }
    {
        match header_of(bytes) {
            Ok(header) => {
                if size < u64::from(header.file_hdr_sz) {
                    return self.fail(RunFault::Sparse(SparseFault::Truncated { at: size }));
                }
                *self = SparseOpening {
                    stage: OpeningStage::Chunks,
                    header,
                    length: size,
                    index: 0,
                    have: 0,
                    at: u64::from(header.file_hdr_sz),
                };
                Ok(OpeningProgress::More)
            }
            Err(fault) => self.fail(RunFault::Sparse(fault)),
        }
    }

    /// The step over the bytes of a chunk's header.
    #[inline(always)]
    fn take_chunk(&mut self, bytes: &[u8]) -> Result<OpeningProgress, RunFault>
        requires chunk { AtChunk self.old bytes.now }
        ensures takes { TakesChunk bytes.now result self.old self.new }
    {
        match head_at(bytes) {
            Some(chunk) => self.take_known(bytes, chunk),
            None => self.fail(RunFault::Sparse(SparseFault::ChunkType {
                chunk: self.index,
                kind: u16_at(bytes, 0),
            })),
        }
    }

    /// The same where the type is known.
    #[inline(always)]
    fn take_known(&mut self, bytes: &[u8], chunk: ChunkHeader) -> Result<OpeningProgress, RunFault>
        requires chunk { AtChunk self.old bytes.now }
        requires known { chunk_header_of bytes.now ≡ Some chunk }
        ensures takes { TakesChunk bytes.now result self.old self.new }
    {
        let header = self.header;
        let data = data_length(header.blk_sz, chunk.kind, chunk.blocks);
        if u64::from(chunk.total) != u64::from(header.chunk_hdr_sz) + data {
            return self.fail(RunFault::Sparse(SparseFault::ChunkLength { chunk: self.index }));
        }
        let counts = counted_blocks(chunk.kind, chunk.blocks);
        if u64::from(header.total_blks) < u64::from(self.have) + u64::from(counts) {
            return self.fail(RunFault::Sparse(SparseFault::TooManyBlocks { chunk: self.index }));
        }
        if self.length - self.at < u64::from(chunk.total) {
            return self.fail(RunFault::Sparse(SparseFault::Truncated { at: self.length }));
        }
        *self = SparseOpening {
            stage: OpeningStage::Chunks,
            header,
            length: self.length,
            index: self.index + 1,
            have: self.have + counts,
            at: self.at + u64::from(chunk.total),
        };
        Ok(OpeningProgress::More)
    }

    /// The step after the last chunk.
    fn end(&mut self) -> Result<OpeningProgress, RunFault>
        requires here { self.old.stage ≡ OpeningStage.Chunks }
        requires last { self.old.header.total_chunks ≤ self.old.index }
        ensures keeps { (x : List ℕ) (v : Result (Header × ℕ) SparseFaults) → ComesTo self.old x v →
            ComesTo self.new x v }
        ensures leaves { OpeningLeaves result self.new.stage }
        ensures over { OnOk result ((is_more result ≡ false) × (self.new.at ≡ self.old.at)) }
        ensures own { IfErr result IsFormat }
    {
        if self.have != self.header.total_blks {
            return self.fail(RunFault::Sparse(SparseFault::TooFewBlocks { have: self.have }));
        }
        self.stage = OpeningStage::Done;
        Ok(OpeningProgress::Done)
    }

    /// Reads the image's header.
    fn read_header<S: Source>(
        &mut self,
        source: &mut S,
        w: &mut Window,
        m: &mut Meter,
    ) -> Result<OpeningProgress, RunFault>
        requires here { self.old.stage ≡ OpeningStage.Header }
        ensures step { StepsOpening result S.Source source.old source.new self.old self.new m.old m.new }
    {
        let size = source.length();
        if size < FILE_HEADER as u64 {
            m.close_step(0);
            return self.fail(RunFault::Sparse(SparseFault::Truncated { at: size }));
        }
        let loaded = load(source, 0, FILE_HEADER, w, m);
        let answer = match loaded.fault {
            Some(fault) => self.fail(fault),
            None => self.take_header(w.part(0, FILE_HEADER), size),
        };
        m.close_step(loaded.received);
        answer
    }

    /// Reads the next chunk's header.
    #[inline(always)]
    fn read_chunk<S: Source>(
        &mut self,
        source: &mut S,
        w: &mut Window,
        m: &mut Meter,
    ) -> Result<OpeningProgress, RunFault>
        requires here { self.old.stage ≡ OpeningStage.Chunks }
        ensures step { StepsOpening result S.Source source.old source.new self.old self.new m.old m.new }
    {
        if self.index == self.header.total_chunks {
            m.close_step(0);
            return self.end();
        }
        if source.length() != self.length {
            m.close_step(0);
            return self.fail(RunFault::SourceChanged);
        }
        if self.length - self.at < CHUNK_HEADER as u64 {
            m.close_step(0);
            return self.fail(RunFault::Sparse(SparseFault::Truncated { at: self.length }));
        }
        let loaded = load(source, self.at, CHUNK_HEADER, w, m);
        let answer = match loaded.fault {
            Some(fault) => self.fail(fault),
            None => self.take_chunk(w.part(0, CHUNK_HEADER)),
        };
        m.close_step(loaded.received);
        answer
    }

    /// One step: reads one header and tests it. It returns `More` until all chunks were passed and
    /// their blocks counted, and `Done` or its fault again from then on, without a call of the
    /// source.
    ///
    /// It refuses with 1 to 10 where the bytes are no sparse image, by the first fault from left to
    /// right; with `Read` where the source has failed; and with `SourceChanged` where the source's
    /// length is another than at the first step, or it gives nothing below it.
    pub fn opening_step<S: Source>(
        &mut self,
        source: &mut S,
        w: &mut Window,
        m: &mut Meter,
    ) -> Result<OpeningProgress, RunFault>
        ensures step { StepsOpening result S.Source source.old source.new self.old self.new m.old m.new }
        ensures again { IsOpeningOver self.old.stage → (self.new ≡ self.old) × (source.new ≡ source.old) }
    {
        match self.stage {
            OpeningStage::Header => self.read_header(source, w, m),
            OpeningStage::Chunks => self.read_chunk(source, w, m),
            OpeningStage::Done => {
                m.close_step(0);
                Ok(OpeningProgress::Done)
            }
            OpeningStage::Failed(fault) => {
                m.close_step(0);
                Err(fault)
            }
        }
    }
}
