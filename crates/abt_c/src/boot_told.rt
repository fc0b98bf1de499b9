//! What is reported to C of a boot image.

/// Where a section is.
#[repr(C)]
#[derive(Clone, Copy, Drop)]
pub struct AbtSection {
    /// What is stored there.
    pub kind: u32,
    /// How many bytes it has, without padding.
    pub size: u32,
    /// The offset of its first byte in the image.
    pub at: u64,
}

/// What a boot header or a vendor boot header says.
#[repr(C)]
#[derive(Clone, Copy, Drop)]
pub struct AbtBoot {
    pub fault: u32,
    /// The detail of the fault beside its number; of fault 25 how many bytes the header needs.
    pub detail: u32,
    /// 1 of a boot image, 2 of a vendor boot image.
    pub kind: u32,
    pub version: u32,
    pub page_size: u32,
    pub header_size: u32,
    /// How many sections there are, empty ones too.
    pub count: u32,
    pub reserved: u32,
    pub sections: [AbtSection; 5],
}
