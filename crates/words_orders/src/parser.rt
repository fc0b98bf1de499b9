//! The parser of the words, which clap makes of the table.

use crate::rows::CommandRow;
use crate::table::{ABOUT, AFTER_HELP, PROGRAM, VERSION, commands, telling};
use clap::builder::ValueParser;
use clap::{Arg, ArgAction, Command};
use std::alloc::{AllocError, Global};
use words_values::{Row, Value, WordPlace};

/// The parser of all commands.
pub(crate) fn program<'a>(alloc: Global) -> Result<Command<'a>, AllocError> {
    let program = Command::new(alloc, PROGRAM)
        .version(VERSION)
        .about(ABOUT)
        .after_help(AFTER_HELP)
        .subcommand_required(true);
    let mut program = with_rows(alloc, program, telling(), false)?;
    for row in commands() {
        program = program.subcommand(command(alloc, row)?)?;
    }
    Ok(program)
}

fn command<'a>(alloc: Global, row: &'static CommandRow) -> Result<Command<'a>, AllocError> {
    let command = Command::new(alloc, row.name)
        .about(row.about)
        .after_help(row.after_help);
    let command = with_rows(alloc, command, row.own_rows(), false)?;
    let command = with_rows(alloc, command, row.filling_rows(), false)?;
    with_rows(alloc, command, row.shared_rows(), false)
}

/// The parser with an argument for each of these rows. With `takes_hyphens` the value of an option may begin with a
/// hyphen.
pub fn with_rows<'a>(
    alloc: Global,
    command: Command<'a>,
    rows: &'static [Row],
    takes_hyphens: bool,
) -> Result<Command<'a>, AllocError> {
    let mut command = command;
    for row in rows {
        command = command.arg(argument(alloc, row, takes_hyphens)?)?;
    }
    Ok(command)
}

fn argument<'a>(
    alloc: Global,
    row: &'static Row,
    takes_hyphens: bool,
) -> Result<Arg<'a>, AllocError> {
    let is_option = match row.place {
        WordPlace::Option | WordPlace::Letter => true,
        _ => false,
    };
    let arg = Arg::new(alloc, row.name)
        .help(row.help)
        .required(row.is_required)
        .allow_hyphen_values(takes_hyphens && is_option);
    let arg = with_value(placed(arg, row), row);
    if let Some(other) = row.needs {
        return arg.requires_arg(other);
    }
    if let Some(other) = row.excludes {
        return arg.conflicts_with(other);
    }
    Ok(arg)
}

// The argument with its position.
fn placed<'a>(arg: Arg<'a>, row: &'static Row) -> Arg<'a> {
    let arg = named(arg, row).action(action_of(row.place));
    match row.place {
        WordPlace::Words => arg.num_args(1..),
        WordPlace::LastWords => arg.num_args(0..),
        _ => arg,
    }
}

// The argument with the name of its option or flag, if it is one.
fn named<'a>(arg: Arg<'a>, row: &'static Row) -> Arg<'a> {
    match row.place {
        WordPlace::Option | WordPlace::Options => arg.long(row.name).value_name(row.value_name),
        WordPlace::Flag => arg.long(row.name),
        WordPlace::ShortFlag(letter) => arg.short(letter).long(row.name),
        WordPlace::Letter => match row.name.chars().next() {
            Some(letter) => arg.short(letter).value_name(row.value_name),
            None => arg,
        },
        _ => arg,
    }
}

fn action_of(place: WordPlace) -> ArgAction {
    match place {
        WordPlace::Word | WordPlace::Words | WordPlace::Option | WordPlace::Letter =>
            ArgAction::Set,
        WordPlace::LastWords | WordPlace::Options => ArgAction::Append,
        WordPlace::Flag | WordPlace::ShortFlag(_) => ArgAction::SetTrue,
    }
}

// The argument with what its value may be.
fn with_value<'a>(arg: Arg<'a>, row: &'static Row) -> Arg<'a> {
    let arg = match row.default {
        Some(word) => arg.default_value(word),
        None => arg,
    };
    match row.value {
        Value::Count(least) => {
            arg.value_parser(ValueParser::signed(least as i64, u32::MAX as i64))
        }
        Value::Name(names) => arg.value_parser(ValueParser::Names(names)),
        Value::CommandLine => arg.allow_hyphen_values(true),
        // `-0` is a number
        Value::PythonNumber | Value::LongPythonNumber => arg.allow_negative_numbers(true),
        _ => arg,
    }
}
