//! Commands out of lines.
ghost use Rattle.std.specs.Prelude.{◌≡◌, [], bytes_eq, codes};
ghost use Rattle.script_lines.specs.Words.{words_of, count_in};
ghost use Rattle.script_lines.specs.Grammar.{hash_shape_in, array_shape_in, shape_in, map_command, load_command, put_command, get_command, del_command, start_command, step_command, drop_command, dump_command, alone, arguments_for, command_of};
ghost use Rattle.script_lines.specs.Lines.{is_silent as says_nothing, has_outer_space as has_space_outside, line_says};

use crate::bytes::bytes_of;
use crate::code::Code;
use crate::command::{BadLine, ScriptCommand, ShapeNumbers};
use crate::name::Name;
use crate::names::Names;
use crate::number::number_of;
use crate::verb::{Verb, verb_of};
use crate::words::Words;
use bpf_model::{INDEX_BYTES, MapKind};
use script_stream::LINE_BYTES;

/// The most steps that one `step` asks for.
pub const MAX_COUNT: u64 = 4096;

/// The number of steps that the word writes, 1 to `MAX_COUNT`.
fn count_of(word: &[u8]) -> Option<u64>
    ensures { result ≡ count_in word.now }
{
    let count = number_of(word)?;
    if 1 <= count && count <= MAX_COUNT {
        Some(count)
    } else {
        None
    }
}

/// Whether the word is `array`.
fn is_array(word: &[u8]) -> bool
    ensures { result ≡ bytes_eq word.now (codes "array") }
{
    word == b"array".as_slice()
}

/// The shape of a hash map whose keys have the length that the first word writes.
fn hash_shape(key_len: &[u8], mut words: Words<'_>) -> Option<ShapeNumbers>
    ensures { result ≡ hash_shape_in key_len.now words.entry }
{
    let value_len = words.next()?;
    let entries = words.next()?;
    let spare = words.next()?;
    let reuse_limit = words.next()?;
    words.end()?;
    Some(ShapeNumbers {
        kind: MapKind::Hash,
        key_len: number_of(key_len)?,
        value_len: number_of(value_len)?,
        entries: number_of(entries)?,
        spare: number_of(spare)?,
        reuse_limit: number_of(reuse_limit)?,
    })
}

/// The shape of an array.
fn array_shape(mut words: Words<'_>) -> Option<ShapeNumbers>
    ensures { result ≡ array_shape_in words.entry }
{
    let value_len = words.next()?;
    let entries = words.next()?;
    words.end()?;
    Some(ShapeNumbers {
        kind: MapKind::Array,
        key_len: INDEX_BYTES as u64,
        value_len: number_of(value_len)?,
        entries: number_of(entries)?,
        spare: 0,
        reuse_limit: 1,
    })
}

/// The shape of a map.
fn shape(mut words: Words<'_>) -> Option<ShapeNumbers>
    ensures { result ≡ shape_in words.entry }
{
    let first = words.next()?;
    if is_array(first) {
        array_shape(words)
    } else {
        hash_shape(first, words)
    }
}

fn map<'a>(mut words: Words<'a>) -> Option<ScriptCommand<'a>>
    ensures { result ≡ map_command words.entry }
{
    let name = words.next()?;
    Some(ScriptCommand::Map {
        name: Name::new(name),
        shape: shape(words)?,
    })
}

fn load<'a>(mut words: Words<'a>) -> Option<ScriptCommand<'a>>
    ensures { result ≡ load_command words.entry }
{
    let ctx_len = words.next()?;
    let code = words.next()?;
    Some(ScriptCommand::Load {
        ctx_len: number_of(ctx_len)?,
        code: Code::new(code)?,
        maps: Names::new(words)?,
    })
}

fn put<'a>(mut words: Words<'a>) -> Option<ScriptCommand<'a>>
    ensures { result ≡ put_command words.entry }
{
    let map = words.next()?;
    let key = words.next()?;
    let value = words.next()?;
    let flags = words.next()?;
    words.end()?;
    Some(ScriptCommand::Put {
        map: Name::new(map),
        key: bytes_of(key)?,
        value: bytes_of(value)?,
        flags: number_of(flags)?,
    })
}

fn get<'a>(mut words: Words<'a>) -> Option<ScriptCommand<'a>>
    ensures { result ≡ get_command words.entry }
{
    let map = words.next()?;
    let key = words.next()?;
    words.end()?;
    Some(ScriptCommand::Get {
        map: Name::new(map),
        key: bytes_of(key)?,
    })
}

fn del<'a>(mut words: Words<'a>) -> Option<ScriptCommand<'a>>
    ensures { result ≡ del_command words.entry }
{
    let map = words.next()?;
    let key = words.next()?;
    words.end()?;
    Some(ScriptCommand::Del {
        map: Name::new(map),
        key: bytes_of(key)?,
    })
}

fn start<'a>(mut words: Words<'a>) -> Option<ScriptCommand<'a>>
    ensures { result ≡ start_command words.entry }
{
    let prog = words.next()?;
    let ctx = words.next()?;
    words.end()?;
    Some(ScriptCommand::Start {
        prog: number_of(prog)?,
        ctx: bytes_of(ctx)?,
    })
}

fn step<'a>(mut words: Words<'a>) -> Option<ScriptCommand<'a>>
    ensures { result ≡ step_command words.entry }
{
    let run = words.next()?;
    let Some(count) = words.next() else {
        return Some(ScriptCommand::Step {
            run: number_of(run)?,
            count: 1,
        });
    };
    words.end()?;
    Some(ScriptCommand::Step {
        run: number_of(run)?,
        count: count_of(count)?,
    })
}

fn drop_run<'a>(mut words: Words<'a>) -> Option<ScriptCommand<'a>>
    ensures { result ≡ drop_command words.entry }
{
    let run = words.next()?;
    words.end()?;
    Some(ScriptCommand::Drop {
        run: number_of(run)?,
    })
}

fn dump<'a>(mut words: Words<'a>) -> Option<ScriptCommand<'a>>
    ensures { result ≡ dump_command words.entry }
{
    let map = words.next()?;
    words.end()?;
    Some(ScriptCommand::Dump {
        map: Name::new(map),
    })
}

/// The command, where no word is left.
fn without_arguments<'a>(command: ScriptCommand<'a>, words: Words<'a>) -> Option<ScriptCommand<'a>>
    ensures { result ≡ alone command.entry words.entry }
{
    words.end()?;
    Some(command)
}

/// The command with this first word and these behind it.
fn with_arguments<'a>(verb: Verb, words: Words<'a>) -> Option<ScriptCommand<'a>>
    ensures { result ≡ arguments_for verb words.entry }
{
    match verb {
        Verb::Map => map(words),
        Verb::Load => load(words),
        Verb::Put => put(words),
        Verb::Get => get(words),
        Verb::Del => del(words),
        Verb::Start => start(words),
        Verb::Step => step(words),
        Verb::Advance => without_arguments(ScriptCommand::Advance, words),
        Verb::Reap => without_arguments(ScriptCommand::Reap, words),
        Verb::Drop => drop_run(words),
        Verb::Stat => without_arguments(ScriptCommand::Stat, words),
        Verb::Dump => dump(words),
    }
}

/// The command that the line's words are.
fn command_in<'a>(line: &'a [u8]) -> Option<ScriptCommand<'a>>
    ensures { result ≡ command_of (words_of line.now) }
{
    let mut words = Words::new(line);
    let word = words.next()?;
    let verb = verb_of(word)?;
    with_arguments(verb, words)
}

/// Whether the line is empty or begins with `#`.
fn is_silent(line: &[u8]) -> bool
    ensures { result ≡ says_nothing line.now }
{
    match line {
        [] => true,
        [first, ..] => *first == b'#',
    }
}

/// Whether a space is the line's first byte or its last.
fn has_outer_space(line: &[u8]) -> bool
    ensures { result ≡ has_space_outside line.now }
{
    if line.is_empty() {
        return false;
    }
    line[0] == b' ' || line[line.len() - 1] == b' '
}

/// What a line says, given without the line feed that ends it: `None` where it is empty or begins with `#`.
/// It takes no memory; what it finds is lent from the line.
///
/// # Errors
///
/// `BadLine`: the line is longer than `LINE_BYTES`; or it says something, and has a space at its beginning
/// or end or is no command.
pub fn parse_line<'a>(line: &'a [u8]) -> Result<Option<ScriptCommand<'a>>, BadLine>
    ensures { result ≡ line_says line.now }
{
    if line.len() > LINE_BYTES {
        return Err(BadLine);
    }
    if is_silent(line) {
        return Ok(None);
    }
    if has_outer_space(line) {
        return Err(BadLine);
    }
    match command_in(line) {
        Some(command) => Ok(Some(command)),
        None => Err(BadLine),
    }
}
