//! The words of the command line.
ghost use Rattle.std.specs.Prelude.{◌≡◌, ◌<◌, ◌≤◌, ◌↔◌, [], IfOk, Ok};
ghost use Rattle.std.specs.Str.Parse.{digits_value, without_leading_plus};
ghost use Rattle.bpf_model.specs.declared.limits.TheConstants.{CTX_BYTES};
ghost use Rattle.bench.specs.declared.command.BenchCommand.TheVariants.{Samples};
ghost use Rattle.bench.specs.declared.command.WorldCommand.TheVariants.{Answers};
ghost use Rattle.bench.specs.Words.{IsAsked, IsAskedBy, word_of};

use bpf_model::CTX_BYTES;
use thiserror::Error;
use world_bench::Subject;

/// What the words ask for.
#[derive(Clone, Copy)]
pub enum Command<'a> {
    /// Something of the program itself.
    Bench(BenchCommand<'a>),
    /// Something of worlds: the words behind `world`.
    World(WorldCommand<'a>),
    /// Something of a table without a lock: the words behind `read`.
    Read(ReadCommand<'a>),
}

/// What the program itself is asked to do.
#[derive(Clone, Copy)]
pub enum BenchCommand<'a> {
    /// Run the programs that are built in, and go through the activities of worlds, and print what they came to.
    Samples,
    /// Measure the program in a file on a context of this many bytes, at most `CTX_BYTES`.
    Run {
        file: &'a str,
        ctx_len: usize,
    },
    /// Do one thing so many times with the program in a file, for a context of this many bytes, at most
    /// `CTX_BYTES`, and nothing more, so that a tool which counts instructions can count it.
    Repeat {
        deed: Repeated,
        file: &'a str,
        ctx_len: usize,
        times: u32,
    },
}

/// What is done again and again.
#[derive(Clone, Copy, Debug, PartialEq, Eq)]
pub enum Repeated {
    /// A run of the program, to its exit.
    Runs,
    /// A verification of the program.
    Verifications,
}

/// What is asked of worlds.
#[derive(Clone, Copy)]
pub enum WorldCommand<'a> {
    /// Print what the events of each activity are answered.
    Answers,
    /// Print how long each thing of a subject takes.
    Times(Subject),
    /// Do what has this name so many times, and no more, so that a tool which counts instructions can count it: an
    /// activity, the dump of a map, or a crew of one worker. Print its answers, bytes or calls.
    Repeat { activity: &'a str, times: u32 },
}

/// What is asked of a table without a lock.
#[derive(Clone, Copy)]
pub enum ReadCommand<'a> {
    /// Print how long calls take, in threads and beside the writer.
    Times,
    /// Make so many rounds of the calls of this name in one thread, and no more, so that a tool which counts instructions
    /// can count them; print the sum of what they found.
    Repeat { name: &'a str, times: u32 },
}

/// Why the words are no command.
#[derive(Debug, Drop, Error)]
pub enum BenchWordsFault {
    #[error("usage: bench [run FILE CTX_LEN | (repeat | verify) FILE CTX_LEN TIMES | world [[shared | pool | script] time | repeat ACTIVITY TIMES] | read (time | repeat NAME TIMES)]")]
    Words,
    #[error("usage: bench world [[shared | pool | script] time | repeat ACTIVITY TIMES]")]
    WorldWords,
    #[error("usage: bench read (time | repeat NAME TIMES)")]
    ReadWords,
    #[error("CTX_LEN is not a number from 0 to 256")]
    Length,
    #[error("TIMES is not a number from 1 to 4294967295")]
    Times,
}

/// The length of a context, in decimal digits.
fn context_length(word: &str) -> Result<usize, BenchWordsFault>
    ensures value { IfOk result (λ n. digits_value 10 (without_leading_plus word.now) ≡ n) }
    ensures limit { IfOk result (λ n. n ≤ CTX_BYTES) }
{
    match word.parse::<usize>() {
        Ok(length) if length <= CTX_BYTES => Ok(length),
        _ => Err(BenchWordsFault::Length),
    }
}

/// A number of times, in decimal digits: from 1 to 4,294,967,295.
fn times_of(word: &str) -> Result<u32, BenchWordsFault>
    ensures value { IfOk result (λ n. digits_value 10 (without_leading_plus word.now) ≡ n) }
    ensures some { IfOk result (λ n. 0 < n) }
{
    match word.parse::<u32>() {
        Ok(times) if times > 0 => Ok(times),
        _ => Err(BenchWordsFault::Times),
    }
}

/// What the first of four words asks to be done again and again.
fn deed_of(verb: &str) -> Result<Repeated, BenchWordsFault>
    ensures { IfOk result (λ deed. word_of deed ≡ verb.now) }
{
    match verb {
        "repeat" => Ok(Repeated::Runs),
        "verify" => Ok(Repeated::Verifications),
        _ => Err(BenchWordsFault::Words),
    }
}

/// The command of the program itself that words ask for: none, `run FILE CTX_LEN`, or
/// `repeat FILE CTX_LEN TIMES` or `verify FILE CTX_LEN TIMES`.
fn parse_words<'a>(words: &'a [String]) -> Result<BenchCommand<'a>, BenchWordsFault>
    ensures samples { (words.now ≡ []) ↔ (result ≡ Ok Samples) }
    ensures asked { IfOk result (λ c. IsAskedBy words.now c) }
{
    match words {
        [] => Ok(BenchCommand::Samples),
        [verb, file, length] if verb.as_str() == "run" => Ok(BenchCommand::Run {
            file: file.as_str(),
            ctx_len: context_length(length.as_str())?,
        }),
        [verb, file, length, times] => Ok(BenchCommand::Repeat {
            deed: deed_of(verb.as_str())?,
            file: file.as_str(),
            ctx_len: context_length(length.as_str())?,
            times: times_of(times.as_str())?,
        }),
        _ => Err(BenchWordsFault::Words),
    }
}

/// What the word before `time` asks to be timed.
fn subject_of(word: &str) -> Result<Subject, BenchWordsFault> {
    match word {
        "shared" => Ok(Subject::Crews),
        "pool" => Ok(Subject::Pools),
        "script" => Ok(Subject::Script),
        _ => Err(BenchWordsFault::WorldWords),
    }
}

/// The command that the words after `bench world` ask for: none, `time`, `time` after `shared`, `pool` or
/// `script`, or `repeat ACTIVITY TIMES`.
fn parse_world_words<'a>(words: &'a [String]) -> Result<WorldCommand<'a>, BenchWordsFault>
    ensures answers { (words.now ≡ []) ↔ (result ≡ Ok Answers) }
{
    match words {
        [] => Ok(WorldCommand::Answers),
        [word] if word.as_str() == "time" => Ok(WorldCommand::Times(Subject::Activities)),
        [subject, word] if word.as_str() == "time" => {
            Ok(WorldCommand::Times(subject_of(subject.as_str())?))
        }
        [word, activity, times] if word.as_str() == "repeat" => Ok(WorldCommand::Repeat {
            activity: activity.as_str(),
            times: times_of(times.as_str())?,
        }),
        _ => Err(BenchWordsFault::WorldWords),
    }
}

/// The command that the words after `bench read` ask for: `time`, or `repeat NAME TIMES`.
fn parse_read_words<'a>(words: &'a [String]) -> Result<ReadCommand<'a>, BenchWordsFault> {
    match words {
        [word] if word.as_str() == "time" => Ok(ReadCommand::Times),
        [word, name, times] if word.as_str() == "repeat" => Ok(ReadCommand::Repeat {
            name: name.as_str(),
            times: times_of(times.as_str())?,
        }),
        _ => Err(BenchWordsFault::ReadWords),
    }
}

/// The command that the words after the program's own ask for.
pub fn parse_command<'a>(words: &'a [String]) -> Result<Command<'a>, BenchWordsFault>
    ensures { IfOk result (λ c. IsAsked words.now c) }
{
    match words {
        [first, rest @ ..] if first.as_str() == "world" => {
            Ok(Command::World(parse_world_words(rest)?))
        }
        [first, rest @ ..] if first.as_str() == "read" => Ok(Command::Read(parse_read_words(
            rest,
        )?)),
        _ => Ok(Command::Bench(parse_words(words)?)),
    }
}
