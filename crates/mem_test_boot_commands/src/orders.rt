//! The arguments of `pack` and `repack`.

use cmd_common_boot::{OptionText, PackCommand, PackTexts};
use std::alloc::{AllocError, Global};
use words_values::{Row, Value, WordPlace};

static KERNEL: Row = Row {
    name: "kernel",
    place: WordPlace::Option,
    value: Value::File,
    value_name: "FILE",
    is_required: false,
    default: None,
    needs: None,
    excludes: None,
    boot: &[0, 1, 2, 3, 4],
    vendor: &[],
    help: "The kernel",
};

/// A boot image of this version whose kernel is IN's file, written to OUT.
pub(crate) fn kernel_alone(
    alloc: Global,
    version: u32,
) -> Result<PackCommand<'static>, AllocError> {
    let mut options = Vec::new(alloc);
    let kernel = OptionText {
        row: &KERNEL,
        name: "kernel",
        word: "in",
        number: 0,
        bytes: Vec::from_slice(alloc, b"in")?,
    };
    if options.push(kernel).is_err() {
        return Err(AllocError);
    }
    Ok(command(alloc, version, options))
}

/// The image that IN has, as OUT.
pub(crate) fn nothing_given(alloc: Global) -> PackCommand<'static> {
    command(alloc, 0, Vec::new(alloc))
}

fn command(alloc: Global, version: u32, options: Vec<OptionText<'static>>) -> PackCommand<'static> {
    PackCommand {
        alloc,
        output: "out",
        is_vendor: false,
        version,
        page: None,
        texts: PackTexts {
            options,
            fragments: Vec::new(alloc),
            is_front_ended: false,
        },
        board_ids: Vec::new(alloc),
        keeps_trailing: false,
    }
}
