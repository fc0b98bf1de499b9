//! The parser of a tool's words, which clap makes of its table.

use crate::hyphens::are_values;
use crate::tools::Tool;
use clap::Command;
use std::alloc::{AllocError, Global};
use std::convert::AsStr;
use words_orders::with_rows;

/// The parser of a tool's words. If each value of mkbootimg with a hyphen is one by the rules of argparse, it takes them
/// all.
#[inline(never)]
pub(crate) fn tool_program<'a, S: AsStr>(
    alloc: Global,
    tool: Tool,
    words: &[S],
) -> Result<Command<'a>, AllocError> {
    let takes_hyphens = match tool {
        Tool::Mkbootimg => are_values(tool.rows(), words),
        _ => false,
    };
    let name: &'a str = tool.name();
    let about: &'a str = tool.about();
    // it takes a prefix of an option for the option, if no other begins so, and the last of its values
    let program = Command::new(alloc, name)
        .about(about)
        .infer_long_args(true)
        .args_override_self(true);
    with_rows(alloc, program, tool.rows(), takes_hyphens)
}
