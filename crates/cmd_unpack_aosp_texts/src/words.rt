//! The arguments of mkbootimg that make an image again.

ghost use Rattle.std.specs.Prelude.{◌≡◌, codes};
ghost use Rattle.abt_headers.specs.declared.boot.BootHeader.TheVariants.{V0, V1, V2};
ghost use Rattle.abt_headers.specs.Vendor.{vendor_view};
ghost use Rattle.sys_text.specs.Printed.{Prints};
ghost use Rattle.cmd_unpack_aosp_texts.specs.Words as spec;

use crate::options::{
    Ending, put_board_option, put_field_option, put_fields_option, put_file_option, put_first_word,
    put_fragment_option, put_high_option, put_low_option, put_number_option, put_number_value,
    put_os_options,
};
use abt_headers::{
    BootFront, BootHeader, DtbFields, DtboFields, OsVersion, RamdiskEntry, ShortFront, VendorFront,
    VendorHeader,
};
use abt_io::Output;
use sys_text::Text;

/// Adds the arguments of a boot image.
pub(crate) fn boot_words<O: Output>(
    header: &BootHeader,
    folder: &str,
    ending: Ending,
    text: &mut Text<'_, O>,
)
    ensures { Prints O.written O.write_faults text.old text.new (spec.boot_words ending folder.now header.now) }
{
    match header {
        BootHeader::V0(front) => first_words(front, folder, ending, text),
        BootHeader::V1(front, dtbo) => second_words(front, dtbo, folder, ending, text),
        BootHeader::V2(front, dtbo, dtb) => third_words(front, dtbo, dtb, folder, ending, text),
        BootHeader::V3(front) => short_words(3, front, folder, ending, text),
        BootHeader::V4(front, _) => short_words(4, front, folder, ending, text),
    }
}

// Those of version 0.
fn first_words<O: Output>(front: &BootFront, folder: &str, ending: Ending, text: &mut Text<'_, O>)
    ensures { Prints O.written O.write_faults text.old text.new (spec.boot_words ending folder.now (V0 front.now)) }
{
    opening_words(0, front.os_version, folder, ending, text);
    part_option(
        "--second",
        front.second_size,
        folder,
        "second",
        ending,
        text,
    );
    load_words(front, ending, text);
    name_words(front, ending, text);
}

// Those of version 1.
fn second_words<O: Output>(
    front: &BootFront,
    dtbo: &DtboFields,
    folder: &str,
    ending: Ending,
    text: &mut Text<'_, O>,
)
    ensures { Prints O.written O.write_faults text.old text.new
        (spec.boot_words ending folder.now (V1 front.now dtbo.now)) }
{
    opening_words(1, front.os_version, folder, ending, text);
    part_option(
        "--second",
        front.second_size,
        folder,
        "second",
        ending,
        text,
    );
    dtbo_option(dtbo.recovery_dtbo_size, folder, ending, text);
    load_words(front, ending, text);
    name_words(front, ending, text);
}

// Those of version 2.
fn third_words<O: Output>(
    front: &BootFront,
    dtbo: &DtboFields,
    dtb: &DtbFields,
    folder: &str,
    ending: Ending,
    text: &mut Text<'_, O>,
)
    ensures { Prints O.written O.write_faults text.old text.new
        (spec.boot_words ending folder.now (V2 front.now dtbo.now dtb.now)) }
{
    opening_words(2, front.os_version, folder, ending, text);
    part_option(
        "--second",
        front.second_size,
        folder,
        "second",
        ending,
        text,
    );
    dtbo_option(dtbo.recovery_dtbo_size, folder, ending, text);
    part_option("--dtb", dtb.dtb_size, folder, "dtb", ending, text);
    load_words(front, ending, text);
    put_high_option("--dtb_offset", dtb.dtb_addr, ending, text);
    name_words(front, ending, text);
}

// The arguments of each version.
fn opening_words<O: Output>(
    version: u32,
    os: OsVersion,
    folder: &str,
    ending: Ending,
    text: &mut Text<'_, O>,
)
    ensures { Prints O.written O.write_faults text.old text.new (spec.opening_words ending folder.now version os.number) }
{
    put_first_word("--header_version", ending, text);
    put_number_value(version as u64, ending, text);
    put_os_options(os, ending, text);
    put_file_option("--kernel", folder, "kernel", ending, text);
    put_file_option("--ramdisk", folder, "ramdisk", ending, text);
}

// The argument of a part, where it is not empty.
fn part_option<O: Output>(
    name: &str,
    size: u32,
    folder: &str,
    file: &str,
    ending: Ending,
    text: &mut Text<'_, O>,
)
    ensures { Prints O.written O.write_faults text.old text.new
        (spec.part_option ending folder.now name.now file.now size) }
{
    if size == 0 {
        return;
    }
    put_file_option(name, folder, file, ending, text);
}

fn dtbo_option<O: Output>(size: u32, folder: &str, ending: Ending, text: &mut Text<'_, O>)
    ensures { Prints O.written O.write_faults text.old text.new
        (spec.part_option ending folder.now (codes "--recovery_dtbo") (codes "recovery_dtbo") size) }
{
    part_option(
        "--recovery_dtbo",
        size,
        folder,
        "recovery_dtbo",
        ending,
        text,
    );
}

// The page size and the addresses, whose base is 0.
fn load_words<O: Output>(front: &BootFront, ending: Ending, text: &mut Text<'_, O>)
    ensures { Prints O.written O.write_faults text.old text.new (spec.load_words ending front.now) }
{
    put_low_option("--pagesize", front.page_size.bytes(), ending, text);
    put_low_option("--base", 0, ending, text);
    put_low_option("--kernel_offset", front.kernel_addr, ending, text);
    put_low_option("--ramdisk_offset", front.ramdisk_addr, ending, text);
    put_low_option("--second_offset", front.second_addr, ending, text);
    put_low_option("--tags_offset", front.tags_addr, ending, text);
}

fn name_words<O: Output>(front: &BootFront, ending: Ending, text: &mut Text<'_, O>)
    ensures { Prints O.written O.write_faults text.old text.new (spec.name_options ending front.now) }
{
    put_field_option("--board", &front.name, ending, text);
    put_fields_option(
        "--cmdline",
        &front.cmdline,
        &front.extra_cmdline,
        ending,
        text,
    );
}

fn short_words<O: Output>(
    version: u32,
    front: &ShortFront,
    folder: &str,
    ending: Ending,
    text: &mut Text<'_, O>,
)
    ensures { Prints O.written O.write_faults text.old text.new (spec.short_words ending folder.now version front.now) }
{
    opening_words(version, front.os_version, folder, ending, text);
    put_field_option("--cmdline", &front.cmdline, ending, text);
}

/// Adds the arguments of a vendor boot image, except those of its fragments.
pub(crate) fn vendor_words<O: Output>(
    header: &VendorHeader,
    folder: &str,
    ending: Ending,
    text: &mut Text<'_, O>,
)
    ensures { Prints O.written O.write_faults text.old text.new
        (spec.vendor_words ending folder.now (vendor_view header.now)) }
{
    match header {
        VendorHeader::V3(front) => ramdisk_words(front, folder, ending, text),
        VendorHeader::V4(front, _) => bootconfig_words(front, folder, ending, text),
    }
}

// Those of version 3.
fn ramdisk_words<O: Output>(
    front: &VendorFront,
    folder: &str,
    ending: Ending,
    text: &mut Text<'_, O>,
)
    ensures { Prints O.written O.write_faults text.old text.new (spec.ramdisk_words ending folder.now front.now) }
{
    vendor_front_words(3, front, folder, ending, text);
    put_file_option("--vendor_ramdisk", folder, "vendor_ramdisk", ending, text);
}

// Those of version 4.
fn bootconfig_words<O: Output>(
    front: &VendorFront,
    folder: &str,
    ending: Ending,
    text: &mut Text<'_, O>,
)
    ensures { Prints O.written O.write_faults text.old text.new (spec.bootconfig_words ending folder.now front.now) }
{
    vendor_front_words(4, front, folder, ending, text);
    put_file_option("--vendor_bootconfig", folder, "bootconfig", ending, text);
}

fn vendor_front_words<O: Output>(
    version: u32,
    front: &VendorFront,
    folder: &str,
    ending: Ending,
    text: &mut Text<'_, O>,
)
    ensures { Prints O.written O.write_faults text.old text.new
        (spec.vendor_front_words ending folder.now version front.now) }
{
    put_first_word("--header_version", ending, text);
    put_number_value(version as u64, ending, text);
    put_low_option("--pagesize", front.page_size.bytes(), ending, text);
    put_low_option("--base", 0, ending, text);
    put_low_option("--kernel_offset", front.kernel_addr, ending, text);
    put_low_option("--ramdisk_offset", front.ramdisk_addr, ending, text);
    put_low_option("--tags_offset", front.tags_addr, ending, text);
    put_high_option("--dtb_offset", front.dtb_addr, ending, text);
    put_field_option("--vendor_cmdline", &front.cmdline, ending, text);
    put_field_option("--board", &front.name, ending, text);
    part_option("--dtb", front.dtb_size, folder, "dtb", ending, text);
}

/// Adds the arguments of a fragment before its board id.
pub(crate) fn entry_words<O: Output>(entry: &RamdiskEntry, ending: Ending, text: &mut Text<'_, O>)
    ensures { Prints O.written O.write_faults text.old text.new (spec.entry_options ending entry.now) }
{
    put_number_option("--ramdisk_type", entry.ramdisk_type as u64, ending, text);
    put_field_option("--ramdisk_name", &entry.name, ending, text);
}

/// Adds the arguments of a number of a board id, where it is not zero.
pub(crate) fn board_word<O: Output>(place: u32, number: u32, ending: Ending, text: &mut Text<'_, O>)
    ensures { Prints O.written O.write_faults text.old text.new (spec.board_id_word ending place number) }
{
    if number == 0 {
        return;
    }
    put_board_option(place, number, ending, text);
}

/// Adds the argument of a fragment's file, which comes after its other arguments.
pub(crate) fn entry_file<O: Output>(
    index: u32,
    folder: &str,
    ending: Ending,
    text: &mut Text<'_, O>,
)
    ensures { Prints O.written O.write_faults text.old text.new (spec.entry_file ending folder.now index) }
{
    put_fragment_option("--vendor_ramdisk_fragment", folder, index, ending, text);
}
