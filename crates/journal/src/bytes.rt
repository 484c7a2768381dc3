//! The bytes of keys, values and contexts, one after another.
ghost use Rattle.std.specs.Prelude.{◌≡◌, ◌+◌, ◌≤◌, ◌++◌, length, vec_len, vec_capacity};
ghost use Rattle.journal.specs.Rows.{answer_bytes, event_bytes, string_in};

use arrayvec::ArrayVec;
use bpf_model::{Answer, Event, array_of};

/// The string of so many bytes that begins at `start`.
pub(crate) fn string_at<const N: usize>(bytes: &[u8], start: usize, len: usize) -> ArrayVec<u8, N>
    requires inside { start + len ≤ length bytes.now }
    requires fits { len ≤ N }
    ensures { result ≡ string_in bytes.now start len }
{
    array_of(&bytes[start..start + len])
}

/// Adds a string where there is room for it.
fn add(bytes: &mut Vec<u8>, string: &[u8])
    requires { vec_len bytes.old + length string.now ≤ vec_capacity bytes.old }
    ensures items { bytes.new.items ≡ bytes.old.items ++ string.now }
    ensures len { vec_len bytes.new ≡ vec_len bytes.old + length string.now }
    ensures room { vec_capacity bytes.old ≤ vec_capacity bytes.new }
{
    match bytes.extend_from_slice(string) {
        Ok(()) => (),
        Err(_) => unreachable!(),
    }
}

/// Adds the strings of an event.
fn append_event(bytes: &mut Vec<u8>, event: &Event)
    requires { vec_len bytes.old + length (event_bytes event.now) ≤ vec_capacity bytes.old }
    ensures items { bytes.new.items ≡ bytes.old.items ++ event_bytes event.now }
    ensures len { vec_len bytes.new ≡ vec_len bytes.old + length (event_bytes event.now) }
    ensures room { vec_capacity bytes.old ≤ vec_capacity bytes.new }
{
    match event {
        Event::Start { ctx, .. } => add(bytes, ctx),
        Event::Update { key, value, .. } => {
            add(bytes, key);
            add(bytes, value);
        }
        Event::Delete { key, .. } => add(bytes, key),
        Event::Read { key, .. } => add(bytes, key),
        _ => (),
    }
}

/// Adds the string of an answer.
fn append_answer(bytes: &mut Vec<u8>, answer: &Answer)
    requires { vec_len bytes.old + length (answer_bytes answer.now) ≤ vec_capacity bytes.old }
    ensures { bytes.new.items ≡ bytes.old.items ++ answer_bytes answer.now }
{
    match answer {
        Answer::Found(Some(value)) => add(bytes, value),
        Answer::Reaped(Some(element)) => add(bytes, &element.key),
        _ => (),
    }
}

/// Adds the strings of an entry, which are those of its event and of its answer, where there is room for them.
pub(crate) fn append(bytes: &mut Vec<u8>, event: &Event, answer: &Answer)
    requires { vec_len bytes.old + length (event_bytes event.now ++ answer_bytes answer.now)
        ≤ vec_capacity bytes.old }
    ensures { bytes.new.items
        ≡ bytes.old.items ++ (event_bytes event.now ++ answer_bytes answer.now) }
{
    append_event(bytes, event);
    append_answer(bytes, answer);
}
