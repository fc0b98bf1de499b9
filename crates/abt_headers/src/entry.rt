//! An entry of the vendor ramdisk table.

ghost use Rattle.std.specs.Prelude.{◌≡◌, ◌+◌, ◌≤◌, ◌<◌, ◌^◌, ◌++◌, ℕ, length, drop, slice_index};
ghost use Rattle.abt_headers.specs.Entry.{EntryFits, entry_at, entry_numbers, entry_record, words_at, words_fields};
ghost use Rattle.abt_headers.specs.Field.{joined_fields};

use crate::field::{array_fits, bytes_at, number_fits, put, u32_at};
use byteorder::{ByteOrder, LittleEndian};

/// An entry of the vendor ramdisk table: one fragment of the vendor ramdisk, as
/// `vendor_ramdisk_table_entry_v4` of `bootimg.h` describes it.
#[derive(Clone, Copy, Debug, PartialEq, Eq)]
pub struct RamdiskEntry {
    /// The size of the fragment, in bytes.
    pub ramdisk_size: u32,

    /// The offset of its first byte in the vendor ramdisk.
    pub ramdisk_offset: u32,

    /// What it is for: 0 none, 1 platform, 2 recovery, 3 dlkm (loadable kernel modules). Any
    /// other number is kept as read.
    pub ramdisk_type: u32,

    /// Its name, a text that ends in a zero byte.
    pub name: [u8; 32],

    /// The boards, SoCs or platforms that it is meant for.
    pub board_id: [u32; 16],
}

/// The sixteen numbers from place 44 on.
fn words_from(bytes: &[u8; 108]) -> [u32; 16]
    ensures { result ≡ words_at 44 16 bytes.now }
{
    let mut words = [0; 16];
    LittleEndian::read_u32_into(&bytes[44..], &mut words);
    words
}

/// The bytes of sixteen numbers.
fn words_bytes(words: &[u32; 16]) -> [u8; 64]
    ensures { result ≡ joined_fields (words_fields words.now) }
{
    let mut out = [0; 64];
    LittleEndian::write_u32_into(words, &mut out);
    out
}

#[tactic(auto, unfolding(crate::specs::Entry::entry_at))]
fn entry_from(bytes: &[u8; 108]) -> RamdiskEntry
    ensures { result ≡ entry_at bytes.now }
{
    RamdiskEntry {
        ramdisk_size: u32_at(bytes, 0),
        ramdisk_offset: u32_at(bytes, 4),
        ramdisk_type: u32_at(bytes, 8),
        name: bytes_at(bytes, 12),
        board_id: words_from(bytes),
    }
}

/// The 12 bytes before the name.
fn entry_head(entry: &RamdiskEntry) -> [u8; 12]
    ensures { result ≡ joined_fields (entry_numbers entry.now) }
{
    let mut head = [0; 12];
    LittleEndian::write_u32(&mut head, entry.ramdisk_size);
    LittleEndian::write_u32(&mut head[4..], entry.ramdisk_offset);
    LittleEndian::write_u32(&mut head[8..], entry.ramdisk_type);
    head
}

fn entry_bytes(entry: &RamdiskEntry) -> [u8; 108]
    ensures { result ≡ entry_record entry.now }
{
    let mut out = [0; 108];
    put(&mut out, 0, &entry_head(entry));
    put(&mut out, 12, &entry.name);
    put(&mut out, 44, &words_bytes(&entry.board_id));
    out
}

/// Says of numbers what their type says. It does nothing.
fn words_fit(words: &[u32])
    ensures { (i : ℕ) → slice_index words.now i < 2 ^ 32 }
{}

/// Says of an entry's fields what their types say. It does nothing.
fn entry_fits(entry: &RamdiskEntry)
    ensures { EntryFits entry.now }
{
    number_fits(entry.ramdisk_size);
    number_fits(entry.ramdisk_offset);
    number_fits(entry.ramdisk_type);
    array_fits(&entry.name);
    array_fits(&entry.board_id);
    words_fit(&entry.board_id);
}

impl RamdiskEntry {
    /// The entry that these bytes are. Any bytes are one.
    pub fn decode(bytes: &[u8; 108]) -> RamdiskEntry
        ensures value { result ≡ entry_at bytes.now }
        ensures back { entry_record result ≡ bytes.now }
    {
        entry_from(bytes)
    }

    /// The record of the entry.
    pub fn encode(&self) -> [u8; 108]
        ensures bytes { result ≡ entry_record self.now }
        ensures again { entry_at result ≡ self.now }
    {
        entry_fits(self);
        entry_bytes(self)
    }
}

/// Every entry whose fields fit is read from the record that it is written as.
pub fn entry_again()
    ensures { (e : RamdiskEntry) → EntryFits e → entry_at (entry_record e) ≡ e }
{}

/// The record of an entry whose fields fit has 108 bytes.
pub fn entry_long()
    ensures { (e : RamdiskEntry) → EntryFits e → length (entry_record e) ≡ 108 }
{}
