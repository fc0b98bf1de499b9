//! What a boot header has beside the places of its sections: the calls on its fields and on the fragments of a
//! ramdisk.

ghost use Rattle.std.specs.Prelude.{◌≡◌, ◌≤◌, ◌<◌, ◌-◌, drop, length, take};
ghost use Rattle.abt_headers.specs.Boot.{boot_at};
ghost use Rattle.abt_headers.specs.Entry.{entry_at};
ghost use Rattle.abt_headers.specs.Vendor.{vendor_at, vendor_view};
ghost use Rattle.abt_c.specs.Fields.{FieldsAre, FieldsOfBoot, FieldsOfVendor, HasNoAddress, HasNoText, Lacks};
ghost use Rattle.abt_c.specs.Fields.{TellsFront, TellsShort, TellsVendorFront, fragment_told, no_os, os_told, zeros};

use crate::boot::detail;
use abt_headers::{
    BootFront, BootHeader, HeaderFault, OsVersion, RamdiskEntry, ShortFront, VendorFront,
    VendorHeader,
};

/// The fields of a header. What its version does not have is 0.
#[repr(C)]
#[derive(Clone, Copy, Drop)]
pub struct AbtFields {
    pub fault: u32,
    pub detail: u32,
    /// A sum of 1 kernel_addr, 2 ramdisk_addr, 4 second_addr, 8 tags_addr, 16 dtb_addr, 32 os, 64 name, 128 cmdline,
    /// 256 extra and 512 id: what the version has.
    pub has: u32,
    pub kernel_addr: u32,
    pub ramdisk_addr: u32,
    pub second_addr: u32,
    pub tags_addr: u32,
    /// How many fragments the vendor ramdisk has.
    pub fragments: u32,
    pub dtb_addr: u64,
    /// A, B and C of the OS version, and the year and month of its patch level.
    pub os: [u32; 5],
    pub reserved: u32,
    pub id: [u8; 32],
    pub name: [u8; 16],
    pub cmdline: [u8; 2048],
    pub extra: [u8; 1024],
}

/// A fragment of a vendor ramdisk.
#[repr(C)]
#[derive(Clone, Copy, Drop)]
pub struct AbtFragment {
    pub size: u32,
    /// The offset of its first byte in the vendor ramdisk.
    pub at: u32,
    /// 0 none, 1 platform, 2 recovery, 3 dlkm; other numbers have no name.
    pub kind: u32,
    pub name: [u8; 32],
    pub board_id: [u32; 16],
}

/// No field, but why.
fn none(fault: u32, detail: u32) -> AbtFields
    ensures fault { result.fault ≡ fault }
    ensures detail { result.detail ≡ detail }
    ensures has { result.has ≡ 0 }
    ensures fragments { result.fragments ≡ 0 }
    ensures reserved { result.reserved ≡ 0 }
    ensures addresses { HasNoAddress result }
    ensures os { result.os ≡ no_os }
    ensures texts { HasNoText result }
{
    AbtFields {
        fault,
        detail,
        has: 0,
        kernel_addr: 0,
        ramdisk_addr: 0,
        second_addr: 0,
        tags_addr: 0,
        fragments: 0,
        dtb_addr: 0,
        os: [0; 5],
        reserved: 0,
        id: [0; 32],
        name: [0; 16],
        cmdline: [0; 2048],
        extra: [0; 1024],
    }
}

/// A command line with zeros after it.
fn padded<const N: usize>(text: &[u8; N]) -> [u8; 2048]
    requires { N ≤ 2048 }
    ensures text { take N result ≡ text.now }
    ensures behind { drop N result ≡ zeros (2048 - N) }
{
    let mut all = [0; 2048];
    all[..N].copy_from_slice(text);
    all
}

fn os_parts(os: OsVersion) -> [u32; 5]
    ensures { result ≡ os_told os.number }
{
    let parts = os.parts();
    [parts.a, parts.b, parts.c, parts.year, parts.month]
}

/// The fields of boot 0 to 2.
fn front_told(front: &BootFront) -> AbtFields
    ensures models { TellsFront front.now 1007 result }
    ensures dtb { result.dtb_addr ≡ 0 }
{
    let mut told = none(0, 0);
    told.has = 1007;
    told.kernel_addr = front.kernel_addr;
    told.ramdisk_addr = front.ramdisk_addr;
    told.second_addr = front.second_addr;
    told.tags_addr = front.tags_addr;
    let os = os_parts(front.os_version);
    let id = front.id;
    let name = front.name;
    let cmdline = padded(&front.cmdline);
    let extra = front.extra_cmdline;
    told.os = os;
    told.id = id;
    told.name = name;
    told.cmdline = cmdline;
    told.extra = extra;
    told
}

/// The fields of boot 3 and 4.
fn short_told(front: &ShortFront) -> AbtFields
    ensures { TellsShort front.now result }
{
    let mut told = none(0, 0);
    told.has = 160;
    let os = os_parts(front.os_version);
    let cmdline = padded(&front.cmdline);
    told.os = os;
    told.cmdline = cmdline;
    told
}

fn boot_fields(header: &BootHeader) -> AbtFields
    ensures { FieldsOfBoot header.now result }
{
    match header {
        BootHeader::V0(front) => front_told(front),
        BootHeader::V1(front, _) => front_told(front),
        BootHeader::V2(front, _, dtb) => {
            let mut told = front_told(front);
            told.has = 1023;
            told.dtb_addr = dtb.dtb_addr;
            told
        }
        BootHeader::V3(front) => short_told(front),
        BootHeader::V4(front, _) => short_told(front),
    }
}

fn vendor_front_told(front: &VendorFront) -> AbtFields
    ensures models { TellsVendorFront front.now result }
    ensures fragments { result.fragments ≡ 0 }
{
    let mut told = none(0, 0);
    told.has = 219;
    told.kernel_addr = front.kernel_addr;
    told.ramdisk_addr = front.ramdisk_addr;
    told.tags_addr = front.tags_addr;
    told.dtb_addr = front.dtb_addr;
    let name = front.name;
    let cmdline = front.cmdline;
    told.name = name;
    told.cmdline = cmdline;
    told
}

fn vendor_fields(header: &VendorHeader) -> AbtFields
    ensures { FieldsOfVendor (vendor_view header.now) result }
{
    match header {
        VendorHeader::V3(front) => vendor_front_told(front),
        VendorHeader::V4(front, tail) => {
            let mut told = vendor_front_told(front);
            told.fragments = tail.entry_num;
            told
        }
    }
}

/// A fault and no field.
fn lacking(fault: HeaderFault) -> AbtFields
    ensures { Lacks fault result }
{
    none(fault.number(), detail(fault))
}

/// The fields of these bytes as a boot header and, where the magic is not its own, as a vendor boot header.
fn fields(head: &[u8]) -> AbtFields
    ensures { FieldsAre (boot_at head.now) (vendor_at head.now) result }
{
    match BootHeader::decode(head) {
        Ok(header) => boot_fields(&header),
        Err(HeaderFault::Magic) => match VendorHeader::decode(head) {
            Ok(header) => vendor_fields(&header),
            Err(fault) => lacking(fault),
        },
        Err(fault) => lacking(fault),
    }
}

/// What the header at the beginning of these bytes says beside its sections. 0, or the number of the fault.
#[unsafe(no_mangle)]
pub extern "C" fn abt_boot_fields(head: &[u8], out: &mut AbtFields) -> u32
    ensures told { FieldsAre (boot_at head.now) (vendor_at head.now) out.new }
    ensures fault { result ≡ out.new.fault }
{
    *out = fields(head);
    out.fault
}

/// The fragment whose entry of the table is at the beginning of these bytes. How many of them it took: 108, or 0 where
/// there are fewer, and `out` is left.
#[unsafe(no_mangle)]
pub extern "C" fn abt_boot_fragment(entry: &[u8], out: &mut AbtFragment) -> usize
    ensures told { result ≡ 108 → out.new ≡ fragment_told (entry_at (take 108 entry.now)) }
    ensures whole { 108 ≤ length entry.now → result ≡ 108 }
    ensures short { length entry.now < 108 → result ≡ 0 }
    ensures left { result ≡ 0 → out.new ≡ out.old }
{
    match entry.first_chunk::<108>() {
        None => 0,
        Some(bytes) => {
            let read = RamdiskEntry::decode(bytes);
            let name = read.name;
            let board_id = read.board_id;
            *out = AbtFragment {
                size: read.ramdisk_size,
                at: read.ramdisk_offset,
                kind: read.ramdisk_type,
                name,
                board_id,
            };
            108
        }
    }
}
