//! Events as lines of words, and answers as text. Bytes are hexadecimal digits, or `-` for none; maps, programs and runs
//! are named by their numbers.
use arrayvec::ArrayVec;
use bpf_model::{Answer, Event, Given, MapId, ProgId, ReapedElement, RunId};
use reference_store::ModelFault;
use std::alloc::{AllocError, Global};
use std::fmt::Write;

/// The number of a word; of one that is none the greatest number.
pub fn number(word: &str) -> usize {
    word.parse::<usize>().unwrap_or(usize::MAX)
}

/// The number of a hexadecimal digit; of another byte 0.
fn digit(byte: u8) -> u8 {
    match byte {
        b'0'..=b'9' => byte.wrapping_sub(b'0'),
        b'a'..=b'f' => byte.wrapping_sub(b'a' - 10),
        _ => 0,
    }
}

/// The bytes of a word; those that have no room are left out.
pub fn bytes<const N: usize>(word: &str) -> ArrayVec<u8, N> {
    let mut bytes = ArrayVec::new();
    for pair in word.as_bytes().chunks_exact(2) {
        if let [high, low] = pair {
            let _ = bytes.try_push(digit(*high).wrapping_mul(16).wrapping_add(digit(*low)));
        }
    }
    bytes
}

/// Items as an array of at most so many; those that have no room are left out.
pub fn array<T: Copy + Default, const N: usize>(items: &[T]) -> ArrayVec<T, N> {
    let mut kept = ArrayVec::new();
    let _ = kept.try_extend_from_slice(items);
    kept
}

/// The event of these words.
pub fn event_of(words: &[&str]) -> Option<Event> {
    let event = match words {
        ["put", map, key, value, flags] => Event::Update {
            map: MapId::new(number(map)),
            key: bytes(key),
            value: bytes(value),
            flags: number(flags) as u64,
        },
        ["get", map, key] => Event::Read {
            map: MapId::new(number(map)),
            key: bytes(key),
        },
        ["del", map, key] => Event::Delete {
            map: MapId::new(number(map)),
            key: bytes(key),
        },
        ["start", prog, ctx] => Event::Start {
            prog: ProgId::new(number(prog)),
            ctx: bytes(ctx),
        },
        ["step", run] => Event::Step {
            run: RunId::new(number(run)),
        },
        ["drop", run] => Event::Drop {
            run: RunId::new(number(run)),
        },
        ["advance"] => Event::Advance,
        ["reap"] => Event::Reap,
        _ => return None,
    };
    Some(event)
}

fn tell_value(alloc: Global, text: &mut String, bytes: &[u8]) -> Result<(), AllocError> {
    let digits = hex::encode(alloc, bytes)?;
    write!(text, "value {digits}")
}

fn tell_reaped(
    alloc: Global,
    text: &mut String,
    element: &ReapedElement,
) -> Result<(), AllocError> {
    let key = hex::encode(alloc, element.key.as_slice())?;
    let map = element.map.index();
    let given = match element.given {
        Given::Free => "free",
        Given::Worn => "worn",
    };
    write!(text, "reaped {map} {key} {given}")
}

fn tell_answer(alloc: Global, text: &mut String, answer: &Answer) -> Result<(), AllocError> {
    match answer {
        Answer::Started(run) => write!(text, "run {}", run.index()),
        Answer::Moved => text.push_str("moved"),
        Answer::Exited(number) => write!(text, "exit {number}"),
        Answer::Ret(Ok(())) => text.push_str("ret 0"),
        Answer::Ret(Err(errno)) => write!(text, "ret -{}", errno.number()),
        Answer::Found(None) | Answer::Reaped(None) => text.push_str("none"),
        Answer::Found(Some(bytes)) => tell_value(alloc, text, bytes.as_slice()),
        Answer::Done => text.push_str("ok"),
        Answer::Reaped(Some(element)) => tell_reaped(alloc, text, element),
        Answer::Refused(refusal) => write!(text, "refused {}", refusal.code()),
    }
}

/// The text of an answer, or why there is none.
pub fn answer_text(
    alloc: Global,
    answer: &Result<Answer, ModelFault>,
) -> Result<String, AllocError> {
    let mut text = String::new(alloc);
    match answer {
        Ok(answer) => tell_answer(alloc, &mut text, answer)?,
        Err(fault) => write!(text, "{fault:?}")?,
    }
    Ok(text)
}
