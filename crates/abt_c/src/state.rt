//! The state of a reader as C keeps it, and what is reported to C. All fields are numbers, so every value of their
//! bytes is allowed.

/// A reader between two calls, 120 bytes. C keeps it and looks at none of it.
#[repr(C)]
#[derive(Clone, Copy, Drop)]
pub struct AbtSparse {
    pub position: u64,
    pub raw: u64,
    pub words: u64,
    pub detail: u64,
    pub phase: u32,
    pub fault: u32,
    pub blk_sz: u32,
    pub total_blks: u32,
    pub total_chunks: u32,
    pub image_checksum: u32,
    pub blocks: u32,
    pub index: u32,
    pub have: u32,
    pub extra: u32,
    pub minor: u16,
    pub file_hdr_sz: u16,
    pub chunk_hdr_sz: u16,
    pub kind: u16,
    pub due: u32,
    pub count: u32,
    pub word: [u8; 4],
    pub held: [u8; 28],
}

/// A part of an image.
#[repr(C)]
#[derive(Clone, Copy, Drop)]
pub struct AbtPart {
    /// Where its first byte lies in the expanded image.
    pub position: u64,
    /// How many bytes of the expanded image it has.
    pub length: u64,
    /// How many bytes of the input were used.
    pub used: usize,
    /// Raw bytes begin here in the input.
    pub offset: usize,
    /// The detail of the fault beside its number.
    pub detail: u64,
    pub kind: u32,
    pub fault: u32,
    /// The word of a fill, in the order of its bytes.
    pub word: [u8; 4],
}

/// How large an image is.
#[repr(C)]
#[derive(Clone, Copy, Drop)]
pub struct AbtSize {
    /// How many bytes it has when it is expanded.
    pub bytes: u64,
    /// How many bytes a block has, 0 where the header has not been read.
    pub block_size: u32,
    pub blocks: u32,
    pub chunks: u32,
}
