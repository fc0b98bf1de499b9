//! The values of an image's header, as unpack_bootimg prints them.

ghost use Rattle.std.specs.Prelude.{◌≡◌};
ghost use Rattle.abt_headers.specs.declared.boot.BootHeader.TheVariants.{V1, V2, V4};
ghost use Rattle.abt_headers.specs.Vendor.{vendor_view};
ghost use Rattle.sys_text.specs.Printed.{Prints};
ghost use Rattle.cmd_unpack_aosp_texts.specs.Info as spec;

use crate::files::fragment_front;
use crate::rows::{
    put_decimal_row, put_high_row, put_low, put_low_row, put_os_rows, put_short_row, put_text_row,
};
use abt_headers::{
    BootFront, BootHeader, DtbFields, DtboFields, RamdiskEntry, ShortFront, VendorFront,
    VendorHeader,
};
use abt_io::Output;
use sys_text::Text;

/// Adds the lines of a boot image's header.
pub(crate) fn boot_rows<O: Output>(header: &BootHeader, text: &mut Text<'_, O>)
    ensures { Prints O.written O.write_faults text.old text.new (spec.boot_rows header.now) }
{
    match header {
        BootHeader::V0(front) => front_rows(front, 0, text),
        BootHeader::V1(front, dtbo) => second_rows(front, dtbo, text),
        BootHeader::V2(front, dtbo, dtb) => third_rows(front, dtbo, dtb, text),
        BootHeader::V3(front) => short_rows(front, 3, text),
        BootHeader::V4(front, signature) => signed_rows(front, *signature, text),
    }
}

// Those of version 1.
fn second_rows<O: Output>(front: &BootFront, dtbo: &DtboFields, text: &mut Text<'_, O>)
    ensures { Prints O.written O.write_faults text.old text.new (spec.boot_rows (V1 front.now dtbo.now)) }
{
    front_rows(front, 1, text);
    dtbo_rows(dtbo, text);
}

// Those of version 2.
fn third_rows<O: Output>(
    front: &BootFront,
    dtbo: &DtboFields,
    dtb: &DtbFields,
    text: &mut Text<'_, O>,
)
    ensures { Prints O.written O.write_faults text.old text.new (spec.boot_rows (V2 front.now dtbo.now dtb.now)) }
{
    front_rows(front, 2, text);
    dtbo_rows(dtbo, text);
    dtb_rows(dtb, text);
}

// Those of version 4.
fn signed_rows<O: Output>(front: &ShortFront, signature: u32, text: &mut Text<'_, O>)
    ensures { Prints O.written O.write_faults text.old text.new (spec.boot_rows (V4 front.now signature)) }
{
    short_rows(front, 4, text);
    put_decimal_row("boot.img signature size", signature as u64, text);
}

fn front_rows<O: Output>(front: &BootFront, version: u32, text: &mut Text<'_, O>)
    ensures { Prints O.written O.write_faults text.old text.new (spec.front_rows version front.now) }
{
    text.word("boot magic: ANDROID!\n");
    put_decimal_row("kernel_size", front.kernel_size as u64, text);
    put_low_row("kernel load address", front.kernel_addr, text);
    put_decimal_row("ramdisk size", front.ramdisk_size as u64, text);
    put_low_row("ramdisk load address", front.ramdisk_addr, text);
    put_decimal_row("second bootloader size", front.second_size as u64, text);
    put_low_row("second bootloader load address", front.second_addr, text);
    put_low_row("kernel tags load address", front.tags_addr, text);
    put_decimal_row("page size", front.page_size.bytes() as u64, text);
    put_os_rows(front.os_version, text);
    put_decimal_row("boot image header version", version as u64, text);
    put_text_row("product name", &front.name, text);
    put_text_row("command line args", &front.cmdline, text);
    put_text_row("additional command line args", &front.extra_cmdline, text);
}

fn dtbo_rows<O: Output>(dtbo: &DtboFields, text: &mut Text<'_, O>)
    ensures { Prints O.written O.write_faults text.old text.new (spec.dtbo_rows dtbo.now) }
{
    put_decimal_row("recovery dtbo size", dtbo.recovery_dtbo_size as u64, text);
    put_high_row("recovery dtbo offset", dtbo.recovery_dtbo_offset, text);
    put_decimal_row("boot header size", dtbo.header_size as u64, text);
}

fn dtb_rows<O: Output>(dtb: &DtbFields, text: &mut Text<'_, O>)
    ensures { Prints O.written O.write_faults text.old text.new (spec.dtb_rows dtb.now) }
{
    put_decimal_row("dtb size", dtb.dtb_size as u64, text);
    put_high_row("dtb address", dtb.dtb_addr, text);
}

fn short_rows<O: Output>(front: &ShortFront, version: u32, text: &mut Text<'_, O>)
    ensures { Prints O.written O.write_faults text.old text.new (spec.short_rows version front.now) }
{
    text.word("boot magic: ANDROID!\n");
    put_decimal_row("kernel_size", front.kernel_size as u64, text);
    put_decimal_row("ramdisk size", front.ramdisk_size as u64, text);
    put_os_rows(front.os_version, text);
    put_decimal_row("boot image header version", version as u64, text);
    put_text_row("command line args", &front.cmdline, text);
}

/// Adds the lines of a vendor boot image's header, up to the fragments.
pub(crate) fn vendor_rows<O: Output>(header: &VendorHeader, text: &mut Text<'_, O>)
    ensures { Prints O.written O.write_faults text.old text.new (spec.vendor_rows (vendor_view header.now)) }
{
    match header {
        VendorHeader::V3(front) => vendor_front_rows(front, 3, "vendor ramdisk size", text),
        VendorHeader::V4(front, tail) => table_rows(front, tail.table_size, text),
    }
}

// Those of version 4.
fn table_rows<O: Output>(front: &VendorFront, size: u32, text: &mut Text<'_, O>)
    ensures { Prints O.written O.write_faults text.old text.new (spec.table_rows front.now size) }
{
    vendor_front_rows(front, 4, "vendor ramdisk total size", text);
    put_decimal_row("vendor ramdisk table size", size as u64, text);
    text.word("vendor ramdisk table: [\n");
}

fn vendor_front_rows<O: Output>(
    front: &VendorFront,
    version: u32,
    ramdisk: &str,
    text: &mut Text<'_, O>,
)
    ensures { Prints O.written O.write_faults text.old text.new (spec.vendor_front_rows version ramdisk.now front.now) }
{
    text.word("boot magic: VNDRBOOT\n");
    put_decimal_row("vendor boot image header version", version as u64, text);
    put_low_row("page size", front.page_size.bytes(), text);
    put_low_row("kernel load address", front.kernel_addr, text);
    put_low_row("ramdisk load address", front.ramdisk_addr, text);
    put_decimal_row(ramdisk, front.vendor_ramdisk_size as u64, text);
    put_text_row("vendor command line args", &front.cmdline, text);
    put_low_row("kernel tags load address", front.tags_addr, text);
    put_text_row("product name", &front.name, text);
    put_decimal_row(
        "vendor boot image header size",
        front.header_size as u64,
        text,
    );
    put_decimal_row("dtb size", front.dtb_size as u64, text);
    put_high_row("dtb address", front.dtb_addr, text);
}

/// Adds the lines after the fragments.
pub(crate) fn vendor_end<O: Output>(header: &VendorHeader, text: &mut Text<'_, O>)
    ensures { Prints O.written O.write_faults text.old text.new (spec.vendor_last (vendor_view header.now)) }
{
    match header {
        VendorHeader::V3(_) => {}
        VendorHeader::V4(_, tail) => table_end(tail.bootconfig_size, text),
    }
}

fn table_end<O: Output>(size: u32, text: &mut Text<'_, O>)
    ensures { Prints O.written O.write_faults text.old text.new (spec.table_end size) }
{
    text.word("]\n");
    put_decimal_row("vendor bootconfig size", size as u64, text);
}

/// Adds the lines of a fragment before its board id.
pub(crate) fn entry_rows<O: Output>(index: u32, entry: &RamdiskEntry, text: &mut Text<'_, O>)
    ensures { Prints O.written O.write_faults text.old text.new (spec.entry_rows index entry.now) }
{
    text.word("    ");
    text.word(fragment_front(index));
    text.number(index as u64);
    text.word(": {\n");
    put_decimal_row("        size", entry.ramdisk_size as u64, text);
    put_decimal_row("        offset", entry.ramdisk_offset as u64, text);
    put_short_row("        type", entry.ramdisk_type, text);
    put_text_row("        name", &entry.name, text);
    text.word("        board_id: [\n");
}

/// Adds a number of a board id: four are in a line.
pub(crate) fn board_cell<O: Output>(place: u32, number: u32, text: &mut Text<'_, O>)
    ensures { Prints O.written O.write_faults text.old text.new (spec.board_cell place number) }
{
    text.word(before_cell(place));
    put_low(number, text);
    text.word(behind_cell(place));
}

fn before_cell(place: u32) -> &'static str
    ensures { result.now ≡ spec.before_cell place }
{
    if place % 4 == 0 { "            " } else { " " }
}

fn behind_cell(place: u32) -> &'static str
    ensures { result.now ≡ spec.behind_cell place }
{
    if place % 4 == 3 { ",\n" } else { "," }
}

/// Adds the text after a board id.
pub(crate) fn entry_end<O: Output>(text: &mut Text<'_, O>)
    ensures { Prints O.written O.write_faults text.old text.new spec.entry_end }
{
    text.word("        ]\n    }\n");
}
