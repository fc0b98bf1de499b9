//! Laws about definitions, each a function without a body whose contract is the law.

ghost use Rattle.std.specs.Prelude.{◌≡◌, ◌<◌, ◌++◌, ◌↔◌, ℕ, List, length};
ghost use Rattle.abt_io.specs.Bytes.{AreBytes};
ghost use Rattle.abt_sections.specs.BootCanon.{boot_canon};
ghost use Rattle.abt_sections.specs.Broken.{HasNoMagic, OpensAsNothing};
ghost use Rattle.abt_sections.specs.Canonical.{IsBootInput, IsVendorInput, StartsAsPacked};
ghost use Rattle.abt_sections.specs.Check.{IsCanonical};
ghost use Rattle.abt_sections.specs.Fields.{BootFields, VendorFields};
ghost use Rattle.abt_sections.specs.Header.{Header, OfVendor, HeaderFits, IsImage, page_of, record_of, sections_of};
ghost use Rattle.abt_sections.specs.Layout.{Sized, laid_out};
ghost use Rattle.abt_sections.specs.Open.{HasImage, IsReadFault, IsWholeImage, RefusedAs};
ghost use Rattle.abt_sections.specs.Unpacked.{HoldsBoot, HoldsFragment, HoldsVendor};
ghost use Rattle.abt_sections.specs.VendorCanon.{VendorParts, vendor_canon, vendor_header_of};

use abt_sections::SectionFault;

/// What is packed of a header and parts of its sizes is an image of that header and these parts, whatever follows it.
pub fn packed_is_image()
    ensures { (h : Header) (parts : List (List ℕ)) (rest : List ℕ) → HeaderFits h → Sized (sections_of h) parts →
        IsImage (laid_out (page_of h) (record_of h) parts ++ rest) h parts }
{}

/// An image is canonical exactly if it begins with one that the packer writes of some fields and parts that it takes;
/// and every image that the packer writes of what it takes is opened and is canonical.
pub fn canonical_is_packed()
    ensures exact { (x : List ℕ) (h : Header) → AreBytes x → HasImage x h → (IsCanonical x h ↔ StartsAsPacked x) }
    ensures opens { (x : List ℕ) → StartsAsPacked x → (h : Header) × HasImage x h × IsCanonical x h }
{}

/// Opening requires that the bytes are an image of a header and some parts, each whole at its place, and that every
/// ramdisk fragment ends within the vendor ramdisk. If opening fails, the bytes are no image, or a device failed.
pub fn image_is_whole()
    ensures exact { (x : List ℕ) (h : Header) → AreBytes x → (HasImage x h ↔ IsWholeImage x h) }
    ensures refused { (x : List ℕ) (f : SectionFault) (h : Header) → RefusedAs x f → HasImage x h → IsReadFault f }
{}

/// What is packed of fields and parts that the packer takes is an image of exactly these, whatever follows it: it is
/// opened as their header, and its sections hold the parts; in version 4 of a vendor boot image ramdisk fragment i is
/// ramdisk i, and entry i of the table is that of fragment i. So unpacking gives back each part.
pub fn packed_holds_parts()
    ensures boot { (s : BootFields) (parts : List (List ℕ)) (rest : List ℕ) → IsBootInput s parts →
        HoldsBoot (boot_canon s parts ++ rest) s parts }
    ensures vendor { (s : VendorFields) (p : VendorParts) (rest : List ℕ) → IsVendorInput s p →
        HoldsVendor (vendor_canon s p ++ rest) s p }
    ensures fragments { (s : VendorFields) (p : VendorParts) (rest : List ℕ) (i : ℕ) → IsVendorInput s p →
        s.version ≡ 4 → i < length p.ramdisks → HoldsFragment (vendor_canon s p ++ rest)
        (OfVendor (vendor_header_of s p)) p.fragments p.ramdisks i }
{}

/// Bytes with a zero where an image has its magic are no prefix of an image, whatever follows them.
pub fn no_magic_is_no_image()
    ensures { (x : List ℕ) → HasNoMagic x → OpensAsNothing x }
{}
