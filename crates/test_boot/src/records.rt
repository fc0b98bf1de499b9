//! What no clause states: bytes that another program wrote, examples of each layout with positions that were computed
//! by hand, the order of faults on real lengths, and texts.

use crate::samples::front;
use crate::vectors;
use abt_headers::{
    BootFront, BootHeader, DtbFields, DtboFields, HeaderFault, OsParts, OsVersion, PageSize,
    RamdiskEntry, Section, SectionPlace, Sections, ShortFront, VendorFront, VendorHeader,
    VendorTail, boot_again, boot_long, entry_again, entry_long, front_decides, pages, vendor_again,
    vendor_front_decides, vendor_long,
};

/// Writes a run of bytes from a position on, as much of it as there is room for.
fn lay(record: &mut [u8], place: usize, run: &[u8]) {
    if place > record.len() {
        return;
    }
    for i in 0..run.len().min(record.len() - place) {
        record[place + i] = run[i];
    }
}

/// A record of `N` bytes with these runs of bytes, and zeros between them.
fn record<const N: usize>(runs: &[(usize, &[u8])]) -> [u8; N] {
    let mut record = [0; N];
    for i in 0..runs.len() {
        let (place, run) = runs[i];
        lay(&mut record, place, run);
    }
    record
}

/// A text field: the text, and then zeros.
fn text<const N: usize>(text: &[u8]) -> [u8; N] {
    record(&[(0, text)])
}

/// The record decodes to this header, which encodes to the record.
fn decodes_to(record: &[u8], header: &BootHeader) -> bool {
    let mut out = [0xee; 1660];
    let size = header.encode(&mut out);
    BootHeader::decode(record) == Ok(*header)
        && size == header.size()
        && record == front(&out, size)
        && out.ends_with(front(&[0xee; 80], 1660usize.saturating_sub(size)))
}

/// The same of a vendor boot header.
fn decodes_to_vendor(record: &[u8], header: &VendorHeader) -> bool {
    let mut out = [0xee; 2128];
    let size = header.encode(&mut out);
    VendorHeader::decode(record) == Ok(*header)
        && size == header.size()
        && record == front(&out, size)
        && out.ends_with(front(&[0xee; 16], 2128usize.saturating_sub(size)))
}

/// The arguments of `mkbootimg` for a record of version 0, 1 or 2; the kernel has 8 bytes and the ramdisk 11.
struct Given {
    runs: &'static [(usize, &'static [u8])],
    page_size: PageSize,
    page: u32,
    second_size: u32,
    second_addr: u32,
    os: [u32; 5],
    name: &'static [u8],
    cmdline: &'static [u8],
    id: &'static [u8],
}

const GIVEN: [Given; 3] = [
    Given {
        runs: &vectors::BOOT_0,
        page_size: PageSize::Of2048,
        page: 2048,
        second_size: 6,
        second_addr: 0x10f0_0000,
        os: [13, 0, 0, 2023, 5],
        name: b"board0",
        cmdline: b"console=ttyS0 quiet",
        id: b"\xdcU\xf0k{\x12\x7f\x17\xfd\x9f\xa6\xe1\xca\x91\xd0$\x97\x82<\xa1",
    },
    Given {
        runs: &vectors::BOOT_1,
        page_size: PageSize::Of4096,
        page: 4096,
        second_size: 0,
        second_addr: 0,
        os: [9, 8, 7, 2018, 12],
        name: b"board1",
        cmdline: b"androidboot.slot=a",
        id: b"SaXu\x81n6\x15\x91\x8e\x99\xa0\x155\xe5\xf3\x19/\x164",
    },
    Given {
        runs: &vectors::BOOT_2,
        page_size: PageSize::Of16384,
        page: 16384,
        second_size: 6,
        second_addr: 0x10f0_0000,
        os: [127, 127, 127, 2127, 11],
        name: b"fifteen_letters",
        cmdline: b"loglevel=4",
        id: b"0\x16\xad\x5c\xf5q\xc7\xf1u\xa4\xddv\x0b\xb3\xca\x5c_Ds8",
    },
];

fn front_of(given: &Given, os_version: OsVersion) -> BootFront {
    BootFront {
        kernel_size: 8,
        kernel_addr: 0x1000_8000,
        ramdisk_size: 11,
        ramdisk_addr: 0x1100_0000,
        second_size: given.second_size,
        second_addr: given.second_addr,
        tags_addr: 0x1000_0100,
        page_size: given.page_size,
        os_version,
        name: text(given.name),
        cmdline: text(given.cmdline),
        id: text(given.id),
        extra_cmdline: [0; 1024],
    }
}

/// The header of version `i` with these first fields, as `mkbootimg` filled it.
fn header_of(i: usize, front: BootFront) -> BootHeader {
    let dtbo = DtboFields {
        recovery_dtbo_size: 13,
        recovery_dtbo_offset: 3 * 4096,
        header_size: 1648,
    };
    let no_dtbo = DtboFields {
        recovery_dtbo_size: 0,
        recovery_dtbo_offset: 0,
        header_size: 1660,
    };
    let dtb = DtbFields {
        dtb_size: 11,
        dtb_addr: 0x1_11f0_0000,
    };
    match i {
        0 => BootHeader::V0(front),
        1 => BootHeader::V1(front, dtbo),
        _ => BootHeader::V2(front, no_dtbo, dtb),
    }
}

/// The version of an Android release and its patch level, of which the test knows that they are in range.
fn os(parts: [u32; 5]) -> Result<OsVersion, HeaderFault> {
    OsVersion::new(parts[0], parts[1], parts[2], parts[3], parts[4])
}

#[test]
fn boot_records_of_mkbootimg_with_ids_are_read(rt: HostRuntime) {
    for i in 0..3 {
        let given = &GIVEN[i];
        let os = os(given.os).expect(&rt, "is a version");
        let header = header_of(i, front_of(given, os));
        let bytes = record::<1660>(given.runs);
        assert!(rt;
            decodes_to(front(&bytes, header.size()), &header),
            "version {i}"
        );
        assert!(rt; header.size() == [1632, 1648, 1660][i]);
        assert!(rt; header.version() as usize == i);
        assert!(rt; header.page_size() == given.page);
    }
}

// This `mkbootimg` writes 1,596 as the header's size, and 2,108 below: they are kept as read.
#[test]
fn the_boot_3_record_of_mkbootimg_is_read(rt: HostRuntime) {
    let os_version = os([11, 0, 0, 2020, 9]).expect(&rt, "is a version");
    let header = BootHeader::V3(ShortFront {
        kernel_size: 8,
        ramdisk_size: 11,
        os_version,
        header_size: 1596,
        reserved: [0; 16],
        cmdline: text(b"init=/init"),
    });
    assert!(rt; decodes_to(&record::<1580>(&vectors::BOOT_3), &header));
    assert!(rt; header.version() == 3);
    assert!(rt; header.page_size() == 4096);
}

#[test]
fn the_vendor_3_record_of_mkbootimg_is_read(rt: HostRuntime) {
    let header = VendorHeader::V3(VendorFront {
        page_size: PageSize::Of2048,
        kernel_addr: 0x1000_8000,
        ramdisk_addr: 0x1100_0000,
        vendor_ramdisk_size: 18,
        cmdline: text(b"firmware_class.path=/vendor"),
        tags_addr: 0x1000_0100,
        name: text(b"board3"),
        header_size: 2108,
        dtb_size: 11,
        dtb_addr: 0x11f0_0000,
    });
    assert!(rt; decodes_to_vendor(&record::<2112>(&vectors::VENDOR_3), &header));
    assert!(rt; header.version() == 3);
    assert!(rt; header.page_size() == 2048);
}

/// A boot header of versions 0 to 2 with these sizes.
fn boot_front(
    page_size: PageSize,
    kernel_size: u32,
    ramdisk_size: u32,
    second_size: u32,
) -> BootFront {
    BootFront {
        kernel_size,
        kernel_addr: 0,
        ramdisk_size,
        ramdisk_addr: 0,
        second_size,
        second_addr: 0,
        tags_addr: 0,
        page_size,
        os_version: OsVersion::from_raw(0),
        name: [0; 16],
        cmdline: [0; 512],
        id: [0; 32],
        extra_cmdline: [0; 1024],
    }
}

fn dtbo(recovery_dtbo_size: u32) -> DtboFields {
    DtboFields {
        recovery_dtbo_size,
        recovery_dtbo_offset: 0,
        header_size: 0,
    }
}

fn short_front(kernel_size: u32, ramdisk_size: u32) -> ShortFront {
    ShortFront {
        kernel_size,
        ramdisk_size,
        os_version: OsVersion::from_raw(0),
        header_size: 0,
        reserved: [7; 16],
        cmdline: [0; 1536],
    }
}

fn vendor_front(page_size: PageSize, vendor_ramdisk_size: u32, dtb_size: u32) -> VendorFront {
    VendorFront {
        page_size,
        kernel_addr: 0,
        ramdisk_addr: 0,
        vendor_ramdisk_size,
        cmdline: [0; 2048],
        tags_addr: 0,
        name: [0; 16],
        header_size: 0,
        dtb_size,
        dtb_addr: 0,
    }
}

/// The sections are these, at these places.
fn stand_at(sections: &Sections, places: &[(Section, u64, u32)]) -> bool {
    for (i, (kind, at, size)) in places.iter().enumerate() {
        if i >= sections.count()
            || sections.place(i)
                != (SectionPlace {
                    kind: *kind,
                    at: *at,
                    size: *size,
                })
        {
            return false;
        }
    }
    sections.count() == places.len()
}

#[test]
fn sections_of_a_boot_image_stand_at_page_boundaries(rt: HostRuntime) {
    let one = BootHeader::V0(boot_front(PageSize::Of2048, 1, 0, 0));
    let places = [
        (Section::Kernel, 2048, 1),
        (Section::Ramdisk, 4096, 0),
        (Section::Second, 4096, 0),
    ];
    assert!(rt; stand_at(&one.sections(), &places));

    let dtb = DtbFields {
        dtb_size: 2049,
        dtb_addr: 0,
    };
    let five = BootHeader::V2(boot_front(PageSize::Of2048, 3000, 1, 0), dtbo(5), dtb);
    let places = [
        (Section::Kernel, 2048, 3000),
        (Section::Ramdisk, 6144, 1),
        (Section::Second, 8192, 0),
        (Section::RecoveryDtbo, 8192, 5),
        (Section::Dtb, 10240, 2049),
    ];
    assert!(rt; stand_at(&five.sections(), &places));

    // A size that is a whole number of pages takes no page more.
    let whole = BootHeader::V3(short_front(8192, 4096));
    let places = [
        (Section::Kernel, 4096, 8192),
        (Section::Ramdisk, 12288, 4096),
    ];
    assert!(rt; stand_at(&whole.sections(), &places));

    let init_boot = BootHeader::V4(short_front(0, 5), 3);
    let places = [
        (Section::Kernel, 4096, 0),
        (Section::Ramdisk, 4096, 5),
        (Section::Signature, 8192, 3),
    ];
    assert!(rt; stand_at(&init_boot.sections(), &places));
}

#[test]
fn places_may_lie_above_32_bits(rt: HostRuntime) {
    let most = u32::MAX;
    let large = BootHeader::V1(boot_front(PageSize::Of131072, most, most, most), dtbo(most));
    let places = [
        (Section::Kernel, 131_072, most),
        (Section::Ramdisk, 4_295_098_368, most),
        (Section::Second, 8_590_065_664, most),
        (Section::RecoveryDtbo, 12_885_032_960, most),
    ];
    assert!(rt; stand_at(&large.sections(), &places));
}

#[test]
fn sections_of_a_vendor_image_stand_at_page_boundaries(rt: HostRuntime) {
    // The header takes two pages.
    let three = VendorHeader::V3(vendor_front(PageSize::Of2048, 10, 3));
    let places = [(Section::VendorRamdisk, 4096, 10), (Section::Dtb, 6144, 3)];
    assert!(rt; stand_at(&three.sections(), &places));

    let tail = VendorTail {
        table_size: 216,
        entry_num: 2,
        entry_size: 108,
        bootconfig_size: 2,
    };
    let four = VendorHeader::V4(vendor_front(PageSize::Of4096, 12, 1), tail);
    let places = [
        (Section::VendorRamdisk, 4096, 12),
        (Section::Dtb, 8192, 1),
        (Section::Table, 12288, 216),
        (Section::Bootconfig, 16384, 2),
    ];
    assert!(rt; stand_at(&four.sections(), &places));
    assert!(rt; four.version() == 4);
    assert!(rt; four.page_size() == 4096);

    let small_pages = VendorHeader::V4(vendor_front(PageSize::Of2048, 12, 1), tail);
    let places = [
        (Section::VendorRamdisk, 4096, 12),
        (Section::Dtb, 6144, 1),
        (Section::Table, 8192, 216),
        (Section::Bootconfig, 10240, 2),
    ];
    assert!(rt; stand_at(&small_pages.sections(), &places));

    let none = VendorTail {
        table_size: 0,
        entry_num: 0,
        entry_size: 108,
        bootconfig_size: 0,
    };
    let empty = VendorHeader::V4(vendor_front(PageSize::Of4096, 0, 0), none);
    let places = [
        (Section::VendorRamdisk, 4096, 0),
        (Section::Dtb, 4096, 0),
        (Section::Table, 4096, 0),
        (Section::Bootconfig, 4096, 0),
    ];
    assert!(rt; stand_at(&empty.sections(), &places));
}

/// A record's magic, its version, its page, how many bytes are there, and the fault.
type Refusal = (&'static [u8], u32, u32, usize, HeaderFault);

#[rattlefmt::skip]
const REFUSALS: [Refusal; 30] = [
    (b"ANDROID!", 0, 0, 7, HeaderFault::Short { need: 8 }),
    (b"ANDROID!", 0, 0, 43, HeaderFault::Short { need: 44 }),
    (b"ANDROID!", 0, 0, 44, HeaderFault::Short { need: 1632 }),
    (b"ANDROID!", 0, 0, 1631, HeaderFault::Short { need: 1632 }),
    (b"ANDROID!", 1, 0, 44, HeaderFault::Short { need: 1648 }),
    (b"ANDROID!", 1, 0, 1647, HeaderFault::Short { need: 1648 }),
    (b"ANDROID!", 2, 0, 44, HeaderFault::Short { need: 1660 }),
    (b"ANDROID!", 2, 0, 1659, HeaderFault::Short { need: 1660 }),
    (b"ANDROID!", 3, 0, 44, HeaderFault::Short { need: 1580 }),
    (b"ANDROID!", 3, 0, 1579, HeaderFault::Short { need: 1580 }),
    (b"ANDROID!", 4, 0, 44, HeaderFault::Short { need: 1584 }),
    (b"ANDROID!", 4, 0, 1583, HeaderFault::Short { need: 1584 }),
    (b"ANDROID!", 5, 0, 44, HeaderFault::Version(5)),
    (b"ANDROID!", 0x0100_0005, 0, 1660, HeaderFault::Version(0x0100_0005)),
    (b"ANDROID!", 0, 0, 1632, HeaderFault::PageSize(0)),
    (b"ANDROID!", 0, 1, 1632, HeaderFault::PageSize(1)),
    (b"ANDROID!", 0, 1024, 1632, HeaderFault::PageSize(1024)),
    (b"ANDROID!", 0, 2047, 1632, HeaderFault::PageSize(2047)),
    (b"ANDROID!", 0, 3000, 1632, HeaderFault::PageSize(3000)),
    (b"ANDROID!", 2, 4097, 1660, HeaderFault::PageSize(4097)),
    (b"ANDROID!", 0, 262_144, 1632, HeaderFault::PageSize(262_144)),
    (b"ANDROID!", 0, 0x8000_0800, 1632, HeaderFault::PageSize(0x8000_0800)),
    (b"ANDROIDX", 0, 0, 7, HeaderFault::Short { need: 8 }),
    (b"ANDROIDX", 0, 0, 8, HeaderFault::Magic),
    (b"ANDROIDX", 5, 0, 1660, HeaderFault::Magic),
    (b"VNDRBOOT", 3, 2048, 1660, HeaderFault::Magic),
    (b"", 0, 0, 0, HeaderFault::Short { need: 8 }),
    (b"", 0, 0, 8, HeaderFault::Magic),
    (b"", 5, 0, 44, HeaderFault::Magic),
    (b"", 0, 2048, 1660, HeaderFault::Magic),
];

#[test]
fn a_boot_record_is_refused_for_its_first_fault(rt: HostRuntime) {
    for (magic, version, page, long, fault) in REFUSALS {
        let (version, page) = (version.to_le_bytes(), page.to_le_bytes());
        let bytes = record::<1660>(&[(0, magic), (36, &page), (40, &version)]);
        assert!(rt;
            BootHeader::decode(front(&bytes, long)) == Err(fault),
            "{fault}"
        );
    }
}

#[rattlefmt::skip]
const VENDOR_REFUSALS: [Refusal; 10] = [
    (b"VNDRBOOT", 3, 2048, 7, HeaderFault::Short { need: 8 }),
    (b"VNDRBOOT", 3, 2048, 11, HeaderFault::Short { need: 12 }),
    (b"VNDRBOOT", 0, 2048, 12, HeaderFault::Version(0)),
    (b"VNDRBOOT", 2, 2048, 12, HeaderFault::Version(2)),
    (b"VNDRBOOT", 5, 2048, 12, HeaderFault::Version(5)),
    (b"VNDRBOOT", 3, 0, 2111, HeaderFault::Short { need: 2112 }),
    (b"VNDRBOOT", 3, 0, 2112, HeaderFault::PageSize(0)),
    (b"VNDRBOOT", 4, 0, 2127, HeaderFault::Short { need: 2128 }),
    (b"VNDRBOOT", 4, 0, 2128, HeaderFault::PageSize(0)),
    (b"ANDROID!", 3, 2048, 2128, HeaderFault::Magic),
];

#[test]
fn a_vendor_record_is_refused_for_its_first_fault(rt: HostRuntime) {
    for (magic, version, page, long, fault) in VENDOR_REFUSALS {
        let (version, page) = (version.to_le_bytes(), page.to_le_bytes());
        let bytes = record::<2128>(&[(0, magic), (8, &version), (12, &page)]);
        assert!(rt;
            VendorHeader::decode(front(&bytes, long)) == Err(fault),
            "{fault}"
        );
    }
}

#[test]
fn seven_page_sizes_are_accepted(rt: HostRuntime) {
    for page in [2048u32, 4096, 8192, 16384, 32768, 65536, 131_072] {
        let bytes = record::<1660>(&[(0, b"ANDROID!"), (36, &page.to_le_bytes())]);
        let header = BootHeader::decode(&bytes).expect(&rt, "is a header");
        assert!(rt; header.page_size() == page, "{page}");
    }
    assert!(rt; PageSize::from_bytes(3000) == None);
    assert!(rt; pages(0, 2048) == 0);
    assert!(rt; pages(2048, 2048) == 1);
    assert!(rt; pages(2049, 2048) == 2);
    assert!(rt; pages(u64::MAX, 2) == 0x8000_0000_0000_0000);
}

/// A vendor boot header of version 4 with these numbers for its table: its length, how many entries, the length of one.
fn with_table(size: u32, entries: u32, entry_size: u32) -> [u8; 2128] {
    let size = size.to_le_bytes();
    let entries = entries.to_le_bytes();
    let entry_size = entry_size.to_le_bytes();
    record(&[
        (0, b"VNDRBOOT\x04\x00\x00\x00\x00\x08"),
        (2112, &size),
        (2116, &entries),
        (2120, &entry_size),
    ])
}

#[test]
fn a_table_has_whole_entries(rt: HostRuntime) {
    let tail = VendorTail {
        table_size: 216,
        entry_num: 2,
        entry_size: 108,
        bootconfig_size: 0,
    };
    let header = VendorHeader::V4(vendor_front(PageSize::Of2048, 0, 0), tail);
    assert!(rt; decodes_to_vendor(&with_table(216, 2, 108), &header));
    for (size, entries, entry_size) in [
        (216, 2, 107),
        (215, 2, 108),
        (216, 3, 108),
        (108, 0, 108),
        // 108 times this number of entries is 2^32 + 32.
        (32, 39_768_216, 108),
    ] {
        let bytes = with_table(size, entries, entry_size);
        assert!(rt;
            VendorHeader::decode(&bytes) == Err(HeaderFault::Table),
            "{size}"
        );
    }
}

#[test]
fn an_entry_of_a_ramdisk_table_is_read_and_written(rt: HostRuntime) {
    let bytes = record::<108>(&[
        (0, b"\x05\x00\x00\x00\x07\x00\x00\x01\x02"),
        (12, b"recovery"),
        (44, b"\x11"),
        (107, b"\x22"),
    ]);
    let mut board_id = [0; 16];
    board_id[0] = 0x11;
    board_id[15] = 0x2200_0000;
    let entry = RamdiskEntry {
        ramdisk_size: 5,
        ramdisk_offset: 0x0100_0007,
        ramdisk_type: 2,
        name: text(b"recovery"),
        board_id,
    };
    assert!(rt; RamdiskEntry::decode(&bytes) == entry);
    assert!(rt; entry.encode() == bytes);
}

const NO_VERSIONS: [[u32; 5]; 7] = [
    [128, 0, 0, 2023, 5],
    [1, 128, 0, 2023, 5],
    [1, 0, 128, 2023, 5],
    [1, 0, 0, 1999, 5],
    [1, 0, 0, 2128, 5],
    [1, 0, 0, 2023, 0],
    [1, 0, 0, 2023, 13],
];

#[test]
fn an_os_version_is_its_bits(rt: HostRuntime) {
    let os_version = os([13, 0, 0, 2023, 5]).expect(&rt, "is a version");
    assert!(rt; os_version.raw() == 436_207_989);
    assert!(rt; os_version.raw().to_le_bytes() == [0x75, 0x01, 0x00, 0x1a]);
    let parts = OsParts {
        a: 13,
        b: 0,
        c: 0,
        year: 2023,
        month: 5,
    };
    assert!(rt; OsVersion::from_raw(436_207_989).parts() == parts);
    let all_ones = OsParts {
        a: 127,
        b: 127,
        c: 127,
        year: 2127,
        month: 15,
    };
    assert!(rt; OsVersion::from_raw(u32::MAX).parts() == all_ones);
    for parts in NO_VERSIONS {
        assert!(rt; os(parts) == Err(HeaderFault::Os), "{parts:?}");
    }
}

const FAULTS: [(HeaderFault, u32, &'static str); 6] = [
    (HeaderFault::Magic, 20, "20 Magic"),
    (HeaderFault::Version(5), 21, "21 Version 5"),
    (HeaderFault::PageSize(1024), 22, "22 PageSize 1024"),
    (HeaderFault::Table, 23, "23 Table"),
    (HeaderFault::Short { need: 44 }, 25, "25 Short need 44"),
    (HeaderFault::Os, 28, "28 Os"),
];

const SECTIONS: [(Section, &'static str); 3] = [
    (Section::Kernel, "[kernel  ]"),
    (Section::RecoveryDtbo, "[recovery_dtbo]"),
    (Section::VendorRamdisk, "[vendor_ramdisk]"),
];

#[test]
fn each_fault_and_section_has_its_text(rt: HostRuntime) {
    for (fault, number, want) in FAULTS {
        assert!(rt; fault.number() == number);
        let shown = format!(in rt.alloc(); "{fault}").expect(&rt, "is written");
        assert!(rt; shown.as_str() == want);
    }
    for (section, want) in SECTIONS {
        let shown = format!(in rt.alloc(); "[{section:<8}]").expect(&rt, "is written");
        assert!(rt; shown.as_str() == want);
    }
}

// These have contracts and do nothing.
#[test]
fn each_law_is_called_and_does_nothing() {
    front_decides();
    vendor_front_decides();
    boot_again();
    boot_long();
    vendor_again();
    vendor_long();
    entry_again();
    entry_long();
}
