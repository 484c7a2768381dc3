//! Readers that are slow, fail or never end, and writers that fail.
use commands::{parse_words, run};
use std::alloc::{AllocError, Global};
use std::io;
use std::io::{ErrorKind, Read, Write};
use std::process::Abort;
use std::sync::Wait;
use std::test::Fail;
use std::thread::Threads;

/// Exits with 1.
const EXIT_ONE: &[u8] = b"\xb7\0\0\0\x01\0\0\0\x95\0\0\0\0\0\0\0";

/// An exit alone, which is refused.
const EXIT: &[u8] = b"\x95\0\0\0\0\0\0\0";

/// A program with a wide instruction.
const WIDE: &[u8] = b"\x18\0\0\0\x01\0\0\0\0\0\0\0\x02\0\0\0\x95\0\0\0\0\0\0\0";

/// How a reader gives its bytes, and what it does behind them.
#[derive(Clone, Copy)]
enum Giving {
    /// It ends.
    Whole,
    /// It is interrupted before each read, and then gives one byte; and it ends.
    Slow,
    Failing,
    /// It gives this byte again and again, without an end.
    Endless(u8),
}

/// A reader of these bytes.
#[derive(Drop)]
struct Input {
    rest: &'static [u8],
    giving: Giving,
    is_interrupted: bool,
}

impl Read for Input {
    fn read(&mut self, buf: &mut [u8]) -> io::Result<usize> {
        let is_slow = matches!(self.giving, Giving::Slow);
        self.is_interrupted = is_slow && !self.is_interrupted;
        if self.is_interrupted {
            return Err(io::Error::from(ErrorKind::Interrupted));
        }
        if !self.rest.is_empty() {
            let most = if is_slow { buf.len().min(1) } else { buf.len() };
            return self.rest.read(&mut buf[..most]);
        }
        match self.giving {
            Giving::Whole | Giving::Slow => Ok(0),
            Giving::Failing => Err(io::Error::from(ErrorKind::BrokenPipe)),
            Giving::Endless(byte) => {
                buf.fill(byte);
                Ok(buf.len())
            }
        }
    }
}

/// A writer that counts the writes. Once it was flushed so many times it fails, or takes no byte.
#[derive(Drop)]
struct Sink {
    text: Vec<u8>,
    writes: u64,
    flushes_left: u64,
    fails: bool,
}

impl Write for Sink {
    fn write(&mut self, buf: &[u8]) -> io::Result<usize> {
        self.writes = self.writes.saturating_add(1);
        if self.flushes_left > 0 {
            self.text.extend_from_slice(buf)?;
            return Ok(buf.len());
        }
        if self.fails {
            return Err(io::Error::from(ErrorKind::BrokenPipe));
        }
        Ok(0)
    }

    fn flush(&mut self) -> io::Result<()> {
        self.flushes_left = self.flushes_left.saturating_sub(1);
        Ok(())
    }
}

fn new_sink(alloc: Global, flushes_left: u64, fails: bool) -> Sink {
    Sink {
        text: Vec::new(alloc),
        writes: 0,
        flushes_left,
        fails,
    }
}

/// More flushes than there are.
const ALL: u64 = u64::MAX;

/// Runs the command of these words, and answers its status.
fn status_of(
    rt: &(impl Threads + Wait + Abort + Sync),
    alloc: Global,
    words: &str,
    rest: &'static [u8],
    giving: Giving,
    out: &mut Sink,
    err: &mut Sink,
) -> Result<u8, Fail> {
    let mut list = Vec::new(alloc);
    for word in words.split(' ') {
        list.push(String::from_str(alloc, word)?)?;
    }
    let Ok(command) = parse_words(alloc, &list) else {
        return Err(Fail::from("no command"));
    };
    let mut input = Input {
        rest,
        giving,
        is_interrupted: false,
    };
    Ok(run(rt, alloc, &command, &[], &mut input, out, err))
}

/// A command, the input, the status, and what is written on both outputs.
type ReaderRow = (
    &'static str,
    &'static [u8],
    Giving,
    u8,
    &'static str,
    &'static str,
);

const READERS: [ReaderRow; 10] = [
    ("bpfrt check a", b"", Giving::Failing, 3, "", "fault 96\n"),
    ("bpfrt script", b"", Giving::Failing, 3, "", "fault 96\n"),
    (
        "bpfrt pool 1 a 1",
        b"",
        Giving::Failing,
        3,
        "",
        "fault 96\n",
    ),
    (
        "bpfrt run a --dump",
        b"",
        Giving::Failing,
        3,
        "",
        "fault 96\n",
    ),
    (
        "bpfrt script",
        b"advance\nreap\nrea",
        Giving::Failing,
        3,
        "ok\nnone\n",
        "fault 96\n",
    ),
    (
        "bpfrt script --explain",
        b"get m 00\nrea",
        Giving::Failing,
        3,
        "refused 65\n",
        "line 1 is refused (65): \"get m 00\"\nNoMap: no map has the number, or the name\n  no map is called \"m\"; \
the script has made no map\nfault 96\n",
    ),
    (
        "bpfrt script",
        b"advance\n",
        Giving::Endless(b'#'),
        1,
        "ok\n",
        "fault 95 at 2\n",
    ),
    (
        "bpfrt check a",
        b"bpfrt 1\nctx 0\ncode\n",
        Giving::Endless(b'0'),
        3,
        "",
        "fault 13\n",
    ),
    (
        "bpfrt disasm a",
        WIDE,
        Giving::Slow,
        0,
        "lddw r0, 8589934593\nexit\n",
        "",
    ),
    (
        "bpfrt script",
        b"# slow\nadvance\n\nreap",
        Giving::Slow,
        0,
        "ok\nnone\n",
        "",
    ),
];

#[test]
fn readers(rt: HostRuntime) -> Result<(), Fail> {
    for (words, rest, giving, status, text, told) in READERS {
        let mut out = new_sink(rt.alloc(), ALL, true);
        let mut err = new_sink(rt.alloc(), ALL, true);
        assert_eq!(rt;
            status_of(&rt, rt.alloc(), words, rest, giving, &mut out, &mut err)?,
            status,
            "{words}"
        );
        assert_eq!(rt; out.text.as_slice(), text.as_bytes(), "{words}");
        assert_eq!(rt; err.text.as_slice(), told.as_bytes(), "{words}");
    }
    Ok(())
}

/// A command, the input, after how many flushes the output is broken, and whether it then fails or takes no byte; the
/// writes and the status.
type WriterRow = (&'static str, &'static [u8], u64, bool, u64, u8);

const WRITERS: [WriterRow; 10] = [
    ("bpfrt check a", EXIT_ONE, 0, true, 1, 3),
    ("bpfrt pool 1 a 1", EXIT_ONE, 0, true, 1, 3),
    ("bpfrt run a --dump", EXIT_ONE, 0, true, 1, 3),
    ("bpfrt script", b"advance\n", 0, true, 1, 3),
    ("bpfrt script", b"advance\n", 0, false, 1, 3),
    ("bpfrt script", b"advance\nfly\n", 0, true, 1, 3),
    ("bpfrt script", b"advance\nfly\n", 0, false, 1, 3),
    ("bpfrt script --explain", b"get m 00\nfly\n", 0, true, 1, 3),
    ("bpfrt script", b"# no answer\n", 0, true, 0, 0),
    (
        "bpfrt script",
        b"advance\nreap\nstat\nreap\n",
        ALL,
        true,
        1,
        0,
    ),
];

/// A write that fails is not tried again; what answers many lines is one write.
#[test]
fn writers(rt: HostRuntime) -> Result<(), Fail> {
    for (words, rest, flushes_left, fails, writes, status) in WRITERS {
        let mut out = new_sink(rt.alloc(), flushes_left, fails);
        let mut err = new_sink(rt.alloc(), ALL, true);
        let found = status_of(
            &rt,
            rt.alloc(),
            words,
            rest,
            Giving::Whole,
            &mut out,
            &mut err,
        )?;
        let told = if status == 3 { "fault 97\n" } else { "" };
        assert_eq!(rt; found, status, "{words}");
        assert_eq!(rt; out.writes, writes, "{words}");
        assert_eq!(rt; err.text.as_slice(), told.as_bytes(), "{words}");
    }
    // A broken standard error changes no status.
    let mut out = new_sink(rt.alloc(), ALL, true);
    let mut broken = new_sink(rt.alloc(), 0, true);
    let found = status_of(
        &rt,
        rt.alloc(),
        "bpfrt check a",
        EXIT,
        Giving::Whole,
        &mut out,
        &mut broken,
    )?;
    assert_eq!(rt; found, 1);
    Ok(())
}

/// The lines of so many jobs that exit with 1.
fn job_lines(alloc: Global, count: u64) -> Result<String, AllocError> {
    let mut text = String::new(alloc);
    for number in 0..count {
        text.push_str(&format!(in alloc; "job {number} exit 1\n")?)?;
    }
    Ok(text)
}

/// The lines of 16,384 jobs at a time are written and flushed before any further one is.
#[test]
fn lines_come_in_blocks(rt: HostRuntime) -> Result<(), Fail> {
    let words = "bpfrt pool 2 a 40000";
    for (flushes_left, count) in [(0, 0), (1, 16_384), (2, 32_768), (3, 40_000)] {
        let mut out = new_sink(rt.alloc(), flushes_left, true);
        let mut err = new_sink(rt.alloc(), ALL, true);
        let found = status_of(
            &rt,
            rt.alloc(),
            words,
            EXIT_ONE,
            Giving::Whole,
            &mut out,
            &mut err,
        )?;
        assert_eq!(rt; found, 3);
        assert_eq!(rt;
            out.text.as_slice(),
            job_lines(rt.alloc(), count)?.as_bytes()
        );
        assert_eq!(rt; err.text.as_slice(), "fault 97\n".as_bytes());
    }
    Ok(())
}
