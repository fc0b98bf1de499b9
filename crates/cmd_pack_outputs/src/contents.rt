//! The data from which an image is written.

ghost use Rattle.std.specs.Prelude.{◌≡◌, length};
ghost use Rattle.cmd_common_fields.specs.Kind.{version_of};
ghost use Rattle.cmd_common_boot.specs.Parts.{row_count};

use abt_sections::{BootSpec, FragmentSpec};
use cmd_common_fields::ImageKind;

/// The fields of an image, and the sources of its parts.
#[derive(Drop)]
pub struct ImageContents<'f, P: Drop> {
    pub kind: ImageKind,
    pub fields: BootSpec<'f>,
    pub parts: Vec<P>,
    /// The ramdisk fragments of a vendor boot image of version 4, and what each is read from.
    pub specs: Vec<FragmentSpec>,
    pub sources: Vec<P>,
    /// No bytes, in the place of what a vendor boot image of version 3 hasn't.
    pub nothing: P,
    /// The bytes after the image.
    pub trailing: P,
    pub ghost versioned: { fields.version ≡ version_of kind },
    pub ghost counted: { length parts.items ≡ row_count kind },
    pub ghost paired: { length specs.items ≡ length sources.items },
}
