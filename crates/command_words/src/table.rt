//! The commands and their words, as data.

use crate::table::Argument::{
    Elements, File, FileWithout, Flag, FlagWithout, Number, Optional, Word,
};

/// A word of a command, or an option, by its name.
#[derive(Clone, Copy)]
pub(crate) enum Argument {
    /// A word that has to stand.
    Word(&'static str),
    /// A word that has to stand, and may look like a number below 0.
    Number(&'static str),
    /// A word that may be left out, and may look like a number below 0.
    Optional(&'static str),
    /// An option without a value.
    Flag(&'static str),
    /// An option without a value that does not stand beside another one.
    FlagWithout(&'static str, &'static str),
    /// An option with a file behind it.
    File(&'static str),
    /// An option with a file behind it that does not stand beside another one.
    FileWithout(&'static str, &'static str),
    /// An option that may stand again and again, with the name of a map and elements behind it.
    Elements(&'static str),
}

/// A command: its name, what its help says before the arguments, and these in the order of the help.
#[derive(Clone, Copy)]
pub(crate) struct CommandWords {
    pub name: &'static str,
    pub about: &'static str,
    pub arguments: &'static [Argument],
}

/// How the option `--map` is shown.
pub(crate) const MAP_OPTION: &str = "--map <NAME> <KEY=VALUE>...";

/// The words of `pool`, in their order.
pub(crate) const POOL_USAGE: &str = "bpfrt pool [OPTIONS] <WORKERS> <FILE> <COUNT>";

/// The words of a command, in their order, where `clap` is not to make its usage.
pub(crate) fn own_usage(command: &str) -> Option<&'static str> {
    match command {
        "run" => Some("bpfrt run <FILE> [CTX] [--map <NAME> <KEY=VALUE>...]... [OPTIONS]"),
        "trace" => Some("bpfrt trace <FILE> [CTX] [--map <NAME> <KEY=VALUE>...]... [OPTIONS]"),
        _ => None,
    }
}

/// What one run is made on, and how it is told.
const RUN_ARGUMENTS: &[Argument] = &[
    Word("FILE"),
    Optional("CTX"),
    Elements("map"),
    Flag("dump"),
    Flag("explain"),
    Flag("json"),
];

/// The commands, in the order of the help.
pub(crate) const COMMANDS: &[CommandWords] = &[
    CommandWords {
        name: "check",
        about: "Verifies the program in FILE",
        arguments: &[
            Word("FILE"),
            Flag("asm"),
            Flag("log"),
            Flag("explain"),
            FlagWithout("json", "asm"),
        ],
    },
    CommandWords {
        name: "disasm",
        about: "Writes the text of the program in FILE, one instruction a line",
        arguments: &[Word("FILE")],
    },
    CommandWords {
        name: "asm",
        about: "Writes the bytes of the program whose text is in FILE",
        arguments: &[
            Word("FILE"),
            FlagWithout("file", "plain"),
            Flag("plain"),
            Flag("explain"),
        ],
    },
    CommandWords {
        name: "script",
        about: "Answers the script on standard input",
        arguments: &[Flag("explain")],
    },
    CommandWords {
        name: "pool",
        about: "Runs the program in FILE so many times by a pool of workers",
        arguments: &[
            Number("WORKERS"),
            Word("FILE"),
            Number("COUNT"),
            FileWithout("contexts", "packed"),
            File("packed"),
            Flag("explain"),
        ],
    },
    CommandWords {
        name: "run",
        about: "Runs the program in FILE once",
        arguments: RUN_ARGUMENTS,
    },
    CommandWords {
        name: "trace",
        about: "Runs the program in FILE once, and tells each step",
        arguments: RUN_ARGUMENTS,
    },
    CommandWords {
        name: "filter",
        about: "Translates the classic program in FILE, and writes a program file",
        arguments: &[Word("FILE"), Flag("seccomp"), Flag("explain")],
    },
];
