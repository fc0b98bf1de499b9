//! The fields that version 4 adds to the vendor boot header.

ghost use Rattle.std.specs.Prelude.{◌≡◌, ◌*◌};

/// What version 4 adds, as `vendor_boot_img_hdr_v4` of `bootimg.h` does: the sizes of the vendor
/// ramdisk table and of the bootconfig. The table consists of whole entries of 108 bytes.
#[derive(Clone, Copy, Debug, PartialEq, Eq)]
pub struct VendorTail {
    /// `vendor_ramdisk_table_size`: the size of the table, in bytes.
    pub table_size: u32,

    /// `vendor_ramdisk_table_entry_num`: how many entries the table has.
    pub entry_num: u32,

    /// `vendor_ramdisk_table_entry_size`: the size of an entry, 108 bytes.
    pub entry_size: u32,

    /// The size of the bootconfig, in bytes.
    pub bootconfig_size: u32,
    pub ghost entries: { entry_size ≡ 108 },
    pub ghost whole: { table_size ≡ 108 * entry_num },
}
