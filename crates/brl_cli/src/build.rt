//! The command line that `clap` gets, made of the pages.

use crate::pages::{
    ABOUT, Argument, LINE_PAGES, LIST_PAGES, PATH, Page, RULE_PAGES, STATUSES, TEXT_PAGES, Takes,
};
use clap::{Arg, ArgAction, Command, value_parser};
use std::alloc::{AllocError, Global};

/// The program's version, which `--version` prints.
const VERSION: &str = "0.1.0";

/// The command line of `brl`.
pub fn command_line<'a>(alloc: Global) -> Result<Command<'a>, AllocError> {
    Command::new(alloc, "brl")
        .version(VERSION)
        .about(ABOUT)
        .after_help(STATUSES)
        .subcommand_required(true)
        .arg_required_else_help(true)
        .subcommands(text_commands(alloc)?)?
        .subcommands(list_commands(alloc)?)?
        .subcommands(line_commands(alloc)?)?
        .subcommands(rule_commands(alloc)?)
}

/// The commands on texts and on all texts. Each list has a function of its own, since the prover's
/// steps don't suffice for one that names them all.
fn text_commands<'a>(alloc: Global) -> Result<Vec<Command<'a>>, AllocError> {
    commands(alloc, &TEXT_PAGES)
}

/// The command that lists clashes.
fn list_commands<'a>(alloc: Global) -> Result<Vec<Command<'a>>, AllocError> {
    commands(alloc, &LIST_PAGES)
}

/// The commands on the lines of tables.
fn line_commands<'a>(alloc: Global) -> Result<Vec<Command<'a>>, AllocError> {
    commands(alloc, &LINE_PAGES)
}

/// The commands on the rules of a table.
fn rule_commands<'a>(alloc: Global) -> Result<Vec<Command<'a>>, AllocError> {
    commands(alloc, &RULE_PAGES)
}

/// The command lines of the commands of these pages.
fn commands<'a>(alloc: Global, pages: &[Page]) -> Result<Vec<Command<'a>>, AllocError> {
    let mut commands = Vec::new(alloc);
    for page in pages {
        commands.push(command(alloc, page)?)?;
    }
    Ok(commands)
}

/// The command line of the command of a page.
fn command<'a>(alloc: Global, page: &Page) -> Result<Command<'a>, AllocError> {
    let mut arguments = Vec::new(alloc);
    for row in page.arguments {
        arguments.push(argument(alloc, *row)?)?;
    }
    arguments.push(argument(alloc, PATH)?)?;
    Command::new(alloc, page.name)
        .about(page.about)
        .long_about(page.long_about)
        .after_help(page.example)
        .args(arguments)
}

/// The operand or option of a row.
fn argument<'a>(alloc: Global, row: Argument) -> Result<Arg<'a>, AllocError> {
    let Argument(name, takes, help) = row;
    let argument = Arg::new(alloc, name).help(help);
    Ok(match takes {
        Takes::Operand => argument.required(true),
        Takes::Operands => repeated(argument.required(true)),
        Takes::Numbers => repeated(argument).value_parser(value_parser!(u32)),
        Takes::Switch => switch(argument, name),
        Takes::SwitchBeside(needed, barred) => switch(argument, name)
            .requires_arg(needed)?
            .conflicts_with(barred)?,
        Takes::SwitchBut(barred) => switch(argument, name).conflicts_with(barred)?,
        Takes::Text(value) => text(argument, name, value),
        Takes::TextBut(value, barred) => text(argument, name, value).conflicts_with(barred)?,
        Takes::Texts(value) => text(argument, name, value).action(ArgAction::Append),
        Takes::Number(usual) => argument
            .long(name)
            .value_name("N")
            .value_parser(value_parser!(u32))
            .default_value(usual),
        Takes::MaybeNumber => argument
            .long(name)
            .value_name("N")
            .value_parser(value_parser!(u32)),
        Takes::MaybeName(value, names) => argument
            .long(name)
            .value_name(value)
            .value_parser(names.as_slice()),
        Takes::Name(value, names) => argument
            .long(name)
            .value_name(value)
            .value_parser(names.as_slice())
            .default_value(names[0]),
    })
}

/// An operand of one word or more.
fn repeated(operand: Arg<'_>) -> Arg<'_> {
    operand.num_args(1..).action(ArgAction::Append)
}

/// An option with a text, whose value the help calls so.
fn text<'a>(option: Arg<'a>, name: &'static str, value: &'static str) -> Arg<'a> {
    option.long(name).value_name(value)
}

/// An option without a value.
fn switch<'a>(option: Arg<'a>, name: &'static str) -> Arg<'a> {
    option.long(name).action(ArgAction::SetTrue)
}
