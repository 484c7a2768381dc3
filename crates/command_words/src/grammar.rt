//! The grammar by which `clap` takes the words apart.

use crate::help::{HELP, argument_help, help_of};
use crate::request::VERSION;
use crate::table::{Argument, COMMANDS, CommandWords, own_usage};
use clap::{Arg, ArgAction};
use std::alloc::{AllocError, Global};

/// A word.
fn word<'a>(alloc: Global, command: &str, name: &'static str) -> Arg<'a> {
    Arg::new(alloc, name).help(argument_help(command, name))
}

/// A word that may look like a number below 0.
fn number<'a>(alloc: Global, command: &str, name: &'static str) -> Arg<'a> {
    word(alloc, command, name).allow_negative_numbers(true)
}

/// An option.
fn option<'a>(alloc: Global, command: &str, name: &'static str) -> Arg<'a> {
    word(alloc, command, name).long(name)
}

/// An option without a value.
fn flag<'a>(alloc: Global, command: &str, name: &'static str) -> Arg<'a> {
    option(alloc, command, name).action(ArgAction::SetTrue)
}

/// An option with a file behind it.
fn file<'a>(alloc: Global, command: &str, name: &'static str) -> Arg<'a> {
    option(alloc, command, name).value_name("FILE")
}

/// An option with the name of a map and elements behind it.
fn elements<'a>(alloc: Global, command: &str, name: &'static str) -> Arg<'a> {
    option(alloc, command, name)
        .value_names(&["NAME", "KEY=VALUE"])
        .num_args(2..)
        .action(ArgAction::Append)
}

/// What `clap` knows of an argument of a command.
fn argument<'a>(alloc: Global, command: &str, argument: Argument) -> Result<Arg<'a>, AllocError> {
    match argument {
        Argument::Word(name) => Ok(word(alloc, command, name).required(true)),
        Argument::Number(name) => Ok(number(alloc, command, name).required(true)),
        Argument::Optional(name) => Ok(number(alloc, command, name)),
        Argument::Flag(name) => Ok(flag(alloc, command, name)),
        Argument::FlagWithout(name, other) => flag(alloc, command, name).conflicts_with(other),
        Argument::File(name) => Ok(file(alloc, command, name)),
        Argument::FileWithout(name, other) => file(alloc, command, name).conflicts_with(other),
        Argument::Elements(name) => Ok(elements(alloc, command, name)),
    }
}

/// A command with what its help says before the arguments, and behind them.
fn command_about<'a>(
    alloc: Global,
    name: &'static str,
    about: &'static str,
    help: &'static str,
) -> clap::Command<'a> {
    clap::Command::new(alloc, name)
        .about(about)
        .after_help(help)
}

/// The grammar of the words of a command.
fn grammar_of<'a>(alloc: Global, words: &CommandWords) -> Result<clap::Command<'a>, AllocError> {
    let mut command = command_about(alloc, words.name, words.about, help_of(words.name));
    if let Some(usage) = own_usage(words.name) {
        command = command.override_usage(usage);
    }
    for word in words.arguments {
        command = command.arg(argument(alloc, words.name, *word)?)?;
    }
    Ok(command)
}

/// The grammar of the words.
pub(crate) fn grammar<'a>(alloc: Global) -> Result<clap::Command<'a>, AllocError> {
    let about = "An eBPF runtime with proved contracts";
    let mut program = command_about(alloc, "bpfrt", about, HELP)
        .version(VERSION)
        .subcommand_required(true);
    for words in COMMANDS {
        program = program.subcommand(grammar_of(alloc, words)?)?;
    }
    Ok(program)
}
