//! The parts from which an image is packed: the option that sets each, and the section that it fills.

ghost use Rattle.std.specs.Prelude.{◌≡◌, length, map};
ghost use Rattle.std.specs.List.{All};
ghost use Rattle.cmd_common_fields.specs.Options.{option_of};
ghost use Rattle.cmd_common_boot.specs.Parts.{part_sections, row_count};

use abt_headers::Section;
use cmd_common_fields::ImageKind;

/// A part: the option that sets it, and the section that it fills.
#[derive(Clone, Copy)]
pub struct PartRow {
    pub option: &'static str,
    pub section: Section,
}

const KERNEL: PartRow = PartRow {
    option: "kernel",
    section: Section::Kernel,
};

const RAMDISK: PartRow = PartRow {
    option: "ramdisk",
    section: Section::Ramdisk,
};

const SECOND: PartRow = PartRow {
    option: "second",
    section: Section::Second,
};

const RECOVERY_DTBO: PartRow = PartRow {
    option: "recovery-dtbo",
    section: Section::RecoveryDtbo,
};

const DTB: PartRow = PartRow {
    option: "dtb",
    section: Section::Dtb,
};

const SIGNATURE: PartRow = PartRow {
    option: "signature",
    section: Section::Signature,
};

const VENDOR_RAMDISK: PartRow = PartRow {
    option: "ramdisk",
    section: Section::VendorRamdisk,
};

const BOOTCONFIG: PartRow = PartRow {
    option: "bootconfig",
    section: Section::Bootconfig,
};

// Those of boot images, versions 0 to 2, 3 and 4, and of vendor boot images: each version has a run of one of these.
const BOOT: &[PartRow] = &[KERNEL, RAMDISK, SECOND, RECOVERY_DTBO, DTB];

const SIGNED: &[PartRow] = &[KERNEL, RAMDISK, SIGNATURE];

const VENDOR: &[PartRow] = &[VENDOR_RAMDISK, DTB, BOOTCONFIG];

/// The parts of an image of this kind, in the order of its sections. The ramdisk fragments of a vendor boot image of
/// version 4 are not part of this list.
pub fn rows_of(kind: ImageKind) -> &'static [PartRow]
    ensures sections { map (λ row. row.section) result.now ≡ part_sections kind }
    ensures options { All (λ row. row.option.now ≡ option_of row.section) result.now }
    ensures counted { length result.now ≡ row_count kind }
{
    match kind {
        ImageKind::Boot(0) => &BOOT[..3],
        ImageKind::Boot(1) => &BOOT[..4],
        ImageKind::Boot(2) => BOOT,
        ImageKind::Boot(3) => &SIGNED[..2],
        ImageKind::Boot(_) => SIGNED,
        ImageKind::Vendor(3) => &VENDOR[..2],
        ImageKind::Vendor(_) => &VENDOR[1..],
    }
}
