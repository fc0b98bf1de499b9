//! The records at the beginning of Android boot images, in the layout of AOSP's `bootimg.h`: boot headers of versions
//! 0 to 4, vendor boot headers of versions 3 and 4, and the entries of the vendor ramdisk table.
//!
//! The contract for the crates above:
//!
//! - `decode` returns the header whose record is at the beginning of the bytes, or the first fault in a fixed order.
//! - `encode` writes exactly that record. Each of the two undoes the other.
//! - `sections` returns where each section of the image is.
//!
//! No call allocates memory. A call that only looks at a header borrows it.
//!
//! | file | content |
//! |---|---|
//! | `boot.rt` | the boot header: its parts by version, and its public calls |
//! | `boot_reading.rt`, `boot_writing.rt` | its record to its fields, and back |
//! | `vendor.rt`, `vendor_reading.rt`, `vendor_writing.rt` | the same for the vendor boot header |
//! | `vendor_tail.rt` | the fields that version 4 adds to the vendor boot header |
//! | `entry.rt` | an entry of the vendor ramdisk table |
//! | `os.rt`, `page.rt` | the OS version and the patch level in one number; the page sizes that a header may have |
//! | `sections.rt` | the names of sections, and their places in an image |
//! | `fault.rt` | the reasons for which bytes are not a header |
//! | `field.rt` | fields at their places in a record |
//!
//! In `specs/`, `Boot`, `Vendor` and `Entry` define the records, field by field, and what reading them gives.
//! `Places` and `Page` define the layout of an image, `Os` the bits of an OS version, `Field`, `Fits` and
//! `VendorFits` the fields and their values, and `Fault` the faults.
#![tactic(auto)]

mod boot;
mod boot_reading;
mod boot_writing;
mod entry;
mod fault;
mod field;
mod os;
mod page;
mod sections;
mod vendor;
mod vendor_reading;
mod vendor_tail;
mod vendor_writing;

pub use boot::{
    BootFront, BootHeader, DtbFields, DtboFields, ShortFront, boot_again, boot_long, front_decides,
};
pub use entry::{RamdiskEntry, entry_again, entry_long};
pub use fault::HeaderFault;
pub use os::{OsParts, OsVersion};
pub use page::PageSize;
pub use sections::{Section, SectionPlace, Sections, pages};
pub use vendor::{
    VENDOR_MAGIC, VendorFront, VendorHeader, vendor_again, vendor_front_decides, vendor_long,
};
pub use vendor_tail::VendorTail;
