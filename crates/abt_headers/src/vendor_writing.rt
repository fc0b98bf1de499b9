//! Writes the bytes of a vendor boot header from its fields. The header is borrowed. Each text is copied directly to
//! its place in the borrowed array.

ghost use Rattle.std.specs.Prelude.{◌≡◌, ◌+◌, ◌≤◌, ◌++◌, length, drop};
ghost use Rattle.abt_headers.specs.Field.{joined_fields};
ghost use Rattle.abt_headers.specs.Vendor.{tail_fields, tail_view, vendor_end, vendor_field_list, vendor_head};
ghost use Rattle.abt_headers.specs.Vendor.{vendor_record, vendor_size, vendor_view};
ghost use Rattle.abt_headers.specs.VendorFits.{TailFits, VendorFits, VendorFrontFits};

use crate::field::{array_fits, long_number_fits, number_fits, put};
use crate::vendor::{VENDOR_MAGIC, VendorFront, VendorHeader};
use crate::vendor_tail::VendorTail;
use byteorder::{ByteOrder, LittleEndian};

/// The 28 bytes before the command line.
fn front_head(version: u32, front: &VendorFront) -> [u8; 28]
    ensures { result ≡ joined_fields (vendor_head version front.now) }
{
    let mut head = [0; 28];
    LittleEndian::write_u64(&mut head, VENDOR_MAGIC);
    LittleEndian::write_u32(&mut head[8..], version);
    LittleEndian::write_u32(&mut head[12..], front.page_size.bytes());
    LittleEndian::write_u32(&mut head[16..], front.kernel_addr);
    LittleEndian::write_u32(&mut head[20..], front.ramdisk_addr);
    LittleEndian::write_u32(&mut head[24..], front.vendor_ramdisk_size);
    head
}

/// The 16 bytes after the name.
fn front_end(front: &VendorFront) -> [u8; 16]
    ensures { result ≡ joined_fields (vendor_end front.now) }
{
    let mut end = [0; 16];
    LittleEndian::write_u32(&mut end, front.header_size);
    LittleEndian::write_u32(&mut end[4..], front.dtb_size);
    LittleEndian::write_u64(&mut end[8..], front.dtb_addr);
    end
}

fn tail_bytes(tail: &VendorTail) -> [u8; 16]
    ensures { result ≡ joined_fields (tail_fields (tail_view tail.now)) }
{
    let mut out = [0; 16];
    LittleEndian::write_u32(&mut out, tail.table_size);
    LittleEndian::write_u32(&mut out[4..], tail.entry_num);
    LittleEndian::write_u32(&mut out[8..], tail.entry_size);
    LittleEndian::write_u32(&mut out[12..], tail.bootconfig_size);
    out
}

/// Writes what both versions begin with.
fn put_front(out: &mut [u8], version: u32, front: &VendorFront)
    requires { 2112 ≤ length out.old }
    ensures long { length (joined_fields (vendor_field_list version front.now)) ≡ 2112 }
    ensures bytes { out.new ≡ joined_fields (vendor_field_list version front.now) ++ drop 2112 out.old }
{
    put(out, 0, &front_head(version, front));
    put(out, 28, &front.cmdline);
    put(out, 2076, &front.tags_addr.to_le_bytes());
    put(out, 2080, &front.name);
    put(out, 2096, &front_end(front));
}

/// Writes the record of a header to the beginning, and returns its size.
pub(crate) fn write_vendor_header(header: &VendorHeader, out: &mut [u8]) -> usize
    requires { 2128 ≤ length out.old }
    ensures size { result ≡ vendor_size (vendor_view header.now) }
    ensures bytes { out.new
        ≡ vendor_record (vendor_view header.now) ++ drop (vendor_size (vendor_view header.now)) out.old }
{
    match header {
        VendorHeader::V3(front) => {
            put_front(out, 3, front);
            2112
        }
        VendorHeader::V4(front, tail) => {
            put_front(out, 4, front);
            put(out, 2112, &tail_bytes(tail));
            2128
        }
    }
}

fn front_fits(front: &VendorFront)
    ensures { VendorFrontFits front.now }
{
    number_fits(front.kernel_addr);
    number_fits(front.ramdisk_addr);
    number_fits(front.vendor_ramdisk_size);
    array_fits(&front.cmdline);
    number_fits(front.tags_addr);
    array_fits(&front.name);
    number_fits(front.header_size);
    number_fits(front.dtb_size);
    long_number_fits(front.dtb_addr);
}

fn tail_fits(tail: VendorTail)
    ensures { TailFits (tail_view tail) }
{
    let _tail = tail;
}

/// Says of a header's fields what their types say. It does nothing.
pub(crate) fn vendor_header_fits(header: &VendorHeader)
    ensures { VendorFits (vendor_view header.now) }
{
    match header {
        VendorHeader::V3(front) => front_fits(front),
        VendorHeader::V4(front, tail) => {
            front_fits(front);
            tail_fits(*tail);
        }
    }
}
