//! What the program can be asked to do.
ghost use Rattle.std.specs.Prelude.{◌≡◌};
ghost use Rattle.command_words.specs.declared.request.WordsFault.TheVariants.{Memory};

use classic::Data;
use std::alloc::{AllocError, AllocFailed};
use thiserror::Error;

/// The version of the program. `docs/CHANGELOG.md` says what each has.
pub const VERSION: &str = "0.1.0";

/// An element that is put into the map of a name.
#[derive(Debug, Drop)]
pub struct MapElement {
    pub map: String,
    pub key: Vec<u8>,
    pub value: Vec<u8>,
}

/// What one run is made on, and how it is told.
#[derive(Debug, Drop)]
pub struct SingleRun {
    /// The bytes of its context.
    pub context: Vec<u8>,
    /// What is put into its maps before it, in this order.
    pub elements: Vec<MapElement>,
    /// Whether the maps' elements are written behind it.
    pub dump: bool,
    /// Whether a refusal is told in words, too.
    pub explain: bool,
    /// Whether the answer is a JSON object.
    pub json: bool,
}

/// How a program is checked: whether the file is a text of instructions, as `asm` reads one; whether what is known before each
/// instruction is told, whether a refusal is told in words too, and whether the answer is a JSON object.
#[derive(Clone, Copy, Debug, PartialEq, Eq, Drop)]
pub struct Checking {
    pub asm: bool,
    pub log: bool,
    pub explain: bool,
    pub json: bool,
}

/// What a command reads.
#[derive(Debug, Drop)]
pub enum InputFile {
    StandardInput,
    Path(String),
}

/// How contexts stand in a file.
#[derive(Clone, Copy, Debug, PartialEq, Eq, Drop)]
pub enum ContextForm {
    /// A line of hexadecimal digits for each.
    Lines,
    /// Their bytes, one context behind another.
    Packed,
}

/// The file that has the contexts of a pool's jobs.
#[derive(Debug, Drop)]
pub struct ContextsFile {
    pub file: InputFile,
    pub form: ContextForm,
}

/// What is written of a text of instructions.
#[derive(Clone, Copy, Debug, PartialEq, Eq, Drop)]
pub enum AsmForm {
    /// The bytes of its program.
    Bytes,
    /// A program file of its head and these bytes.
    File,
    /// Its lines without names, as `disasm` writes instructions.
    Plain,
}

/// What the program is asked to do.
#[derive(Debug, Drop)]
pub enum BpfrtCommand {
    /// Verify the program in a file and say how long it is; or why it is refused.
    Check {
        file: InputFile,
        how: Checking,
    },
    /// Write the text of the program in a file.
    Disasm {
        file: InputFile,
    },
    /// Write the bytes of the program whose text is in a file, or what else is made of it; or say why it is refused, in
    /// words too.
    Asm {
        file: InputFile,
        form: AsmForm,
        explain: bool,
    },
    /// Answer the script on standard input; or say why a line is no command, in words too.
    Script {
        explain: bool,
    },
    /// Say which version of the program this is.
    Version,
    /// Run the program in a file so many times by so many workers, on the contexts of another file where there is one, or on
    /// zeros; or say why it is refused, in words too.
    Pool {
        workers: u64,
        file: InputFile,
        count: u64,
        contexts: Option<ContextsFile>,
        explain: bool,
    },
    /// Run the program in a file once by itself.
    Run {
        file: InputFile,
        single: SingleRun,
    },
    /// Run the program in a file once by itself, and tell each of its steps.
    Trace {
        file: InputFile,
        single: SingleRun,
    },
    /// Write the program file of the classic program in a file, a filter of packets or a policy of system calls; or say why
    /// there is none, in words too.
    Filter {
        file: InputFile,
        kind: Data,
        explain: bool,
    },
}

/// Why the words are no command.
#[derive(Debug, Drop, Error)]
pub enum WordsFault {
    /// The words are refused; the text says why, or is the help that was asked for.
    #[error("{0}")]
    Usage(String),
    /// A word is not UTF-8.
    #[error("a word is not UTF-8 text")]
    NotText,
    /// An allocation failed.
    #[error("out of memory")]
    Memory,
}

impl From<AllocError> for WordsFault {
    ghost from_gives = { λ _ e. e ≡ Memory };

    fn from(_: AllocError) -> WordsFault {
        WordsFault::Memory
    }
}

impl<T: Drop> From<AllocFailed<T>> for WordsFault {
    ghost from_gives = { λ _ e. e ≡ Memory };

    fn from(_: AllocFailed<T>) -> WordsFault {
        WordsFault::Memory
    }
}

/// What FILE of `filter` is, of a classic program that judges such data.
pub(crate) fn classic_file(kind: Data) -> &'static str {
    match kind {
        Data::Packet => "FILE is what `tcpdump -ddd EXPRESSION` writes",
        Data::Seccomp => "FILE is a policy of system calls, as libseccomp exports it",
    }
}

impl BpfrtCommand {
    /// What the file is that the command reads, in words, where it is no program file and no text.
    pub fn other_file(&self) -> Option<&'static str> {
        match self {
            BpfrtCommand::Filter { kind, .. } => Some(classic_file(*kind)),
            _ => None,
        }
    }

    /// The file of contexts that the command reads beside its file; none where it reads none.
    pub fn contexts_file(&self) -> Option<&InputFile> {
        match self {
            BpfrtCommand::Pool {
                contexts: Some(contexts),
                ..
            } => Some(&contexts.file),
            _ => None,
        }
    }

    /// The file that the command reads; none where it has no such word, and reads standard input or nothing.
    pub fn file(&self) -> Option<&InputFile> {
        match self {
            BpfrtCommand::Check { file, .. }
            | BpfrtCommand::Disasm { file }
            | BpfrtCommand::Asm { file, .. }
            | BpfrtCommand::Pool { file, .. }
            | BpfrtCommand::Run { file, .. }
            | BpfrtCommand::Trace { file, .. }
            | BpfrtCommand::Filter { file, .. } => Some(file),
            BpfrtCommand::Script { .. } | BpfrtCommand::Version => None,
        }
    }
}
