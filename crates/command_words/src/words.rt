//! The command that the words of the command line ask for.

use crate::faults::words_fault;
use crate::grammar::grammar;
use crate::request::{AsmForm, BpfrtCommand, Checking, WordsFault};
use crate::values::Values;
use clap::ArgMatches;
use clap::error::ErrorKind;
use classic::Data;
use std::alloc::Global;

/// How `check` is to check.
fn checking_of(matches: &ArgMatches<'_>) -> Checking {
    Checking {
        asm: matches.get_flag("asm"),
        log: matches.get_flag("log"),
        explain: matches.get_flag("explain"),
        json: matches.get_flag("json"),
    }
}

/// What `asm` is to write.
fn form_of(matches: &ArgMatches<'_>) -> AsmForm {
    if matches.get_flag("file") {
        AsmForm::File
    } else if matches.get_flag("plain") {
        AsmForm::Plain
    } else {
        AsmForm::Bytes
    }
}

/// Which data the classic program of `filter` judges.
fn data_of(matches: &ArgMatches<'_>) -> Data {
    if matches.get_flag("seccomp") {
        Data::Seccomp
    } else {
        Data::Packet
    }
}

/// The command `pool`. Its numbers are judged before the file is read.
fn pool_of(values: &Values<'_, '_>) -> Result<BpfrtCommand, WordsFault> {
    Ok(BpfrtCommand::Pool {
        workers: values.number("WORKERS", "<WORKERS>")?,
        count: values.number("COUNT", "<COUNT>")?,
        file: values.file()?,
        contexts: values.contexts()?,
        explain: values.matches.get_flag("explain"),
    })
}

/// The command whose words these are. `clap` refuses all others before.
fn command_of(values: &Values<'_, '_>) -> Result<BpfrtCommand, WordsFault> {
    let matches = values.matches;
    let explain = matches.get_flag("explain");
    let file = match values.command {
        "script" => return Ok(BpfrtCommand::Script { explain }),
        "pool" => return pool_of(values),
        _ => values.file()?,
    };
    Ok(match values.command {
        "check" => BpfrtCommand::Check {
            file,
            how: checking_of(matches),
        },
        "disasm" => BpfrtCommand::Disasm { file },
        "asm" => BpfrtCommand::Asm {
            file,
            form: form_of(matches),
            explain,
        },
        "run" => BpfrtCommand::Run {
            file,
            single: values.single()?,
        },
        "trace" => BpfrtCommand::Trace {
            file,
            single: values.single()?,
        },
        _ => BpfrtCommand::Filter {
            file,
            kind: data_of(matches),
            explain,
        },
    })
}

/// The command that `clap` has found.
fn found_command(alloc: Global, matches: &ArgMatches<'_>) -> Result<BpfrtCommand, WordsFault> {
    let (command, matches) = match matches.subcommand() {
        Some(found) => found,
        None => return Err(WordsFault::Usage(String::from_str(alloc, "a command is missing")?)),
    };
    command_of(&Values {
        alloc,
        command,
        matches,
    })
}

/// The command that the words ask for. The first word is the program's own name.
///
/// Errors: `Usage` where the words are no command, with why, or with the help that they ask for, which is no command to
/// run. The version is one. `Memory` where memory runs out.
pub fn parse_words<'a>(alloc: Global, words: &'a [String]) -> Result<BpfrtCommand, WordsFault> {
    match grammar(alloc)?.try_get_matches_from(words) {
        Ok(matches) => found_command(alloc, &matches),
        Err(error) if error.kind() == ErrorKind::DisplayVersion => Ok(BpfrtCommand::Version),
        Err(error) => Err(words_fault(alloc, &error, words)?),
    }
}
