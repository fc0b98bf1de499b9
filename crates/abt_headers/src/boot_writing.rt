//! Writes the bytes of a boot header from its fields. The header is borrowed. Each text is copied directly to its
//! place in the borrowed array.

ghost use Rattle.std.specs.Prelude.{◌≡◌, ◌+◌, ◌≤◌, ◌<◌, ◌^◌, ◌++◌, length, drop};
ghost use Rattle.abt_headers.specs.Boot.{boot_record, boot_size, dtb_fields, dtbo_fields, front_fields};
ghost use Rattle.abt_headers.specs.Boot.{front_numbers, short_fields, short_numbers};
ghost use Rattle.abt_headers.specs.Field.{joined_fields};
ghost use Rattle.abt_headers.specs.Fits.{BootFits, DtbFits, DtboFits, FrontFits, ShortFits};

use crate::boot::{BOOT_MAGIC, BootFront, BootHeader, DtbFields, DtboFields, ShortFront};
use crate::field::{array_fits, number_fits, put};
use byteorder::{ByteOrder, LittleEndian};

/// The 48 bytes before the name, in versions 0 to 2.
fn front_head(version: u32, front: &BootFront) -> [u8; 48]
    ensures { result ≡ joined_fields (front_numbers version front.now) }
{
    let mut head = [0; 48];
    LittleEndian::write_u64(&mut head, BOOT_MAGIC);
    LittleEndian::write_u32(&mut head[8..], front.kernel_size);
    LittleEndian::write_u32(&mut head[12..], front.kernel_addr);
    LittleEndian::write_u32(&mut head[16..], front.ramdisk_size);
    LittleEndian::write_u32(&mut head[20..], front.ramdisk_addr);
    LittleEndian::write_u32(&mut head[24..], front.second_size);
    LittleEndian::write_u32(&mut head[28..], front.second_addr);
    LittleEndian::write_u32(&mut head[32..], front.tags_addr);
    LittleEndian::write_u32(&mut head[36..], front.page_size.bytes());
    LittleEndian::write_u32(&mut head[40..], version);
    LittleEndian::write_u32(&mut head[44..], front.os_version.number);
    head
}

/// Writes what versions 0 to 2 begin with.
fn put_front(out: &mut [u8], version: u32, front: &BootFront)
    requires { 1632 ≤ length out.old }
    ensures long { length (joined_fields (front_fields version front.now)) ≡ 1632 }
    ensures bytes { out.new ≡ joined_fields (front_fields version front.now) ++ drop 1632 out.old }
{
    put(out, 0, &front_head(version, front));
    put(out, 48, &front.name);
    put(out, 64, &front.cmdline);
    put(out, 576, &front.id);
    put(out, 608, &front.extra_cmdline);
}

fn dtbo_bytes(dtbo: &DtboFields) -> [u8; 16]
    ensures { result ≡ joined_fields (dtbo_fields dtbo.now) }
{
    let mut out = [0; 16];
    LittleEndian::write_u32(&mut out, dtbo.recovery_dtbo_size);
    LittleEndian::write_u64(&mut out[4..], dtbo.recovery_dtbo_offset);
    LittleEndian::write_u32(&mut out[12..], dtbo.header_size);
    out
}

fn dtb_bytes(dtb: &DtbFields) -> [u8; 12]
    ensures { result ≡ joined_fields (dtb_fields dtb.now) }
{
    let mut out = [0; 12];
    LittleEndian::write_u32(&mut out, dtb.dtb_size);
    LittleEndian::write_u64(&mut out[4..], dtb.dtb_addr);
    out
}

/// The 24 bytes before `reserved`, in versions 3 and 4.
fn short_head(front: &ShortFront) -> [u8; 24]
    ensures { result ≡ joined_fields (short_numbers front.now) }
{
    let mut head = [0; 24];
    LittleEndian::write_u64(&mut head, BOOT_MAGIC);
    LittleEndian::write_u32(&mut head[8..], front.kernel_size);
    LittleEndian::write_u32(&mut head[12..], front.ramdisk_size);
    LittleEndian::write_u32(&mut head[16..], front.os_version.number);
    LittleEndian::write_u32(&mut head[20..], front.header_size);
    head
}

/// Writes what versions 3 and 4 begin with.
fn put_short(out: &mut [u8], version: u32, front: &ShortFront)
    requires { 1580 ≤ length out.old }
    ensures long { length (joined_fields (short_fields version front.now)) ≡ 1580 }
    ensures bytes { out.new ≡ joined_fields (short_fields version front.now) ++ drop 1580 out.old }
{
    put(out, 0, &short_head(front));
    put(out, 24, &front.reserved);
    put(out, 40, &version.to_le_bytes());
    put(out, 44, &front.cmdline);
}

/// Writes the record of a header to the beginning, and returns its size.
#[tactic(auto, unfolding(crate::specs::Boot::boot_record))]
pub(crate) fn write_boot_header(header: &BootHeader, out: &mut [u8]) -> usize
    requires { 1660 ≤ length out.old }
    ensures size { result ≡ boot_size header.now }
    ensures bytes { out.new ≡ boot_record header.now ++ drop (boot_size header.now) out.old }
{
    match header {
        BootHeader::V0(front) => {
            put_front(out, 0, front);
            1632
        }
        BootHeader::V1(front, dtbo) => {
            put_front(out, 1, front);
            put(out, 1632, &dtbo_bytes(dtbo));
            1648
        }
        BootHeader::V2(front, dtbo, dtb) => {
            put_front(out, 2, front);
            put(out, 1632, &dtbo_bytes(dtbo));
            put(out, 1648, &dtb_bytes(dtb));
            1660
        }
        BootHeader::V3(front) => {
            put_short(out, 3, front);
            1580
        }
        BootHeader::V4(front, signature_size) => {
            put_short(out, 4, front);
            put(out, 1580, &signature_size.to_le_bytes());
            1584
        }
    }
}

fn front_fits(front: &BootFront)
    ensures { FrontFits front.now }
{
    number_fits(front.kernel_size);
    number_fits(front.kernel_addr);
    number_fits(front.ramdisk_size);
    number_fits(front.ramdisk_addr);
    number_fits(front.second_size);
    number_fits(front.second_addr);
    number_fits(front.tags_addr);
    number_fits(front.os_version.number);
    array_fits(&front.name);
    array_fits(&front.cmdline);
    array_fits(&front.id);
    array_fits(&front.extra_cmdline);
}

fn short_fits(front: &ShortFront)
    ensures { ShortFits front.now }
{
    number_fits(front.kernel_size);
    number_fits(front.ramdisk_size);
    number_fits(front.os_version.number);
    number_fits(front.header_size);
    array_fits(&front.reserved);
    array_fits(&front.cmdline);
}

fn dtbo_fits(dtbo: DtboFields)
    ensures { DtboFits dtbo }
{
    let _dtbo = dtbo;
}

fn dtb_fits(dtb: DtbFields)
    ensures { DtbFits dtb }
{
    let _dtb = dtb;
}

/// Says of a header's fields what their types say. It does nothing.
pub(crate) fn boot_header_fits(header: &BootHeader)
    ensures { BootFits header.now }
{
    match header {
        BootHeader::V0(front) => front_fits(front),
        BootHeader::V1(front, dtbo) => {
            front_fits(front);
            dtbo_fits(*dtbo);
        }
        BootHeader::V2(front, dtbo, dtb) => {
            front_fits(front);
            dtbo_fits(*dtbo);
            dtb_fits(*dtb);
        }
        BootHeader::V3(front) => short_fits(front),
        BootHeader::V4(front, signature_size) => {
            short_fits(front);
            number_fits(*signature_size);
        }
    }
}
