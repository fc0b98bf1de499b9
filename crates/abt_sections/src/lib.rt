//! Android boot and vendor boot images (`bootimg.h`, `mkbootimg`): packs them from parts, opens them, takes them
//! apart again, and checks them.
//!
//! An image is a header record and sections after it. Each section begins at a page boundary. The layer above uses
//! these contracts. `pack_boot` and `pack_vendor` write the one canonical image of the fields and parts
//! (`specs/BootCanon`, `specs/VendorCanon`). `pack_boot_once` reads each part once; its output must be one whose
//! written bytes can be overwritten. `open` accepts exactly the images of `specs/Open`. `unpack` writes the bytes of
//! a section. After any refusal the output holds a beginning of what would have been written.
//!
//! No call allocates memory. All bytes pass through the borrowed `Window`, in requests of up to its size. An `Image`
//! is a header and a length.
//!
//! | file | content |
//! |---|---|
//! | `fault.rt` | the reasons for which an image is refused, by number and text |
//! | `spec.rt` | the fields that an image is packed from |
//! | `texts.rt`, `sizes.rt` | names and command lines; the sizes of parts, tested before anything is written |
//! | `boot_header.rt`, `vendor_header.rt` | the header that fields and sizes give |
//! | `reading.rt`, `hashing.rt` | one request to a source; the id |
//! | `write_padded.rt`, `packing.rt`, `vendor_packing.rt` | records and parts with their padding; whole images |
//! | `moving.rt`, `packing_once.rt` | the same in one pass |
//! | `image.rt`, `open_image.rt`, `fragment_table.rt` | an opened image, its sections and its ramdisk fragments |
//! | `unpacking.rt`, `checking.rt` | takes parts out; compares an image with what the packer writes |
#![tactic(auto)]

mod boot_header;
mod checking;
mod fault;
mod fragment_table;
mod hashing;
mod image;
mod moving;
mod open_image;
mod packing;
mod packing_once;
mod reading;
mod sizes;
mod spec;
mod texts;
mod unpacking;
mod vendor_header;
mod vendor_packing;
mod write_padded;

pub use boot_header::dtbo_offset;
pub use checking::{Verdict, check};
pub use fault::SectionFault;
pub use fragment_table::{fragment, fragments};
pub use hashing::image_id;
pub use image::{Image, ImageHeader, section, sections};
pub use open_image::open;
pub use packing::pack_boot;
pub use packing_once::pack_boot_once;
pub use spec::{BootSpec, FragmentSpec, Packed, VendorSpec};
pub use unpacking::{unpack, unpack_fragment};
pub use vendor_packing::pack_vendor;
