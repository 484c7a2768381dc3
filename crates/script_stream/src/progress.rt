//! How far a script has come, and its next lines.
ghost use Rattle.std.specs.Prelude.{◌≡◌, ◌⊎◌, ℕ, ◌+◌, ◌<◌, List, [], ◌∷◌, ◌++◌, length, IfErr, OnOk, OnErr, Err};
ghost use Rattle.std.specs.Io.KnownBytes.{Appends};
ghost use Rattle.std.specs.Io.Iter.{u64_saturate};
ghost use Rattle.script_stream.specs.Answered.{Answered, FailsWith, IsBadLine, longest_line};
ghost use Rattle.script_stream.specs.Lines.{HasNoFeed, lines_of};
ghost use Rattle.script_stream.specs.Progress.{IsProgressAt, IsOutputFault};

use crate::fault::ScriptFault;
use crate::lines::cut_line;
use crate::observer::Observer;
use crate::output::{flush, write_text};
use crate::respond::{LineFault, Respond};
use std::alloc::Global;
use std::io::Write;

/// The most bytes of a line, without its line feed.
pub const LINE_BYTES: usize = 70_000;

/// Answers of so many bytes are written before the next line is answered.
const MOST_WAITING: usize = 65_536;

/// How far a script has come: the bytes read of the line that has not ended, the answers that are not yet
/// written, and how many lines are answered (or the greatest number).
#[derive(Drop)]
pub struct Progress {
    pub(crate) rest: Vec<u8>,
    pub(crate) out: Vec<u8>,
    pub(crate) answered: u64,
}

/// The fault of the line of this number, which the observer sees where it is bad.
fn told<A: Respond, V: Observer<A>>(
    observer: &mut V,
    fault: LineFault,
    line: &[u8],
    number: u64,
) -> ScriptFault
    ensures { (n : ℕ) → result ≡ ScriptFault.BadCommand n → (n ≡ number) × (fault ≡ LineFault.Bad) }
{
    match fault {
        LineFault::Bad => {
            observer.bad_line(number, line);
            ScriptFault::BadCommand { line: number }
        }
        LineFault::Memory => ScriptFault::Memory,
    }
}

/// Adds the answer to the line of this number.
fn answer<A: Respond, V: Observer<A>>(
    responder: &mut A,
    observer: &mut V,
    line: &[u8],
    out: &mut Vec<u8>,
    number: u64,
) -> Result<(), ScriptFault>
    ensures ok { OnOk result ((text : List ℕ) × A.answers responder.old line.now text responder.new
        × (out.new.items ≡ out.old.items ++ text)) }
    ensures err { OnErr result (out.new.items ≡ out.old.items) }
    ensures bad { (n : ℕ) → result ≡ Err (ScriptFault.BadCommand n)
        → (n ≡ number) × IsBadLine A.is_bad line.now }
{
    if line.len() > LINE_BYTES {
        observer.bad_line(number, line);
        return Err(ScriptFault::BadCommand { line: number });
    }
    let before = out.len();
    match responder.respond(line, out) {
        Ok(about) => {
            observer.answered(number, line, &about, responder);
            Ok(())
        }
        Err(fault) => {
            out.truncate(before);
            Err(told::<A, V>(observer, fault, line, number))
        }
    }
}

impl Progress {
    /// The start of a script.
    pub(crate) fn new(alloc: Global) -> Progress
        ensures rest { result.rest.items ≡ [] }
        ensures out { result.out.items ≡ [] }
        ensures answered { result.answered ≡ 0 }
    {
        Progress {
            rest: Vec::new(alloc),
            out: Vec::new(alloc),
            answered: 0,
        }
    }

    /// Writes the answers that wait, and hands them on.
    pub(crate) fn send<W: Write>(&mut self, writer: &mut W) -> Result<(), ScriptFault>
        ensures ok { OnOk result ((front : List ℕ)
            × (self.old.out.items ≡ front ++ self.new.out.items)
            × Appends (W.contents writer.old) (W.contents writer.new) front) }
        ensures sent { OnOk result (self.new.out.items ≡ []) }
        ensures err { IfErr result (λ e. IsOutputFault e × ((front more : List ℕ)
            × (self.old.out.items ≡ front ++ more)
            × Appends (W.contents writer.old) (W.contents writer.new) front)) }
        ensures rest { self.new.rest.items ≡ self.old.rest.items }
        ensures answered { self.new.answered ≡ self.old.answered }
    {
        if self.out.is_empty() {
            return Ok(());
        }
        write_text(writer, &self.out)?;
        flush(writer)?;
        self.out.clear();
        Ok(())
    }

    /// Writes the answers that wait where they are many.
    fn send_many<W: Write>(&mut self, writer: &mut W) -> Result<(), ScriptFault>
        ensures ok { OnOk result ((front : List ℕ)
            × (self.old.out.items ≡ front ++ self.new.out.items)
            × Appends (W.contents writer.old) (W.contents writer.new) front) }
        ensures err { IfErr result (λ e. IsOutputFault e × ((front more : List ℕ)
            × (self.old.out.items ≡ front ++ more)
            × Appends (W.contents writer.old) (W.contents writer.new) front)) }
        ensures rest { self.new.rest.items ≡ self.old.rest.items }
        ensures answered { self.new.answered ≡ self.old.answered }
    {
        if self.out.len() < MOST_WAITING {
            return Ok(());
        }
        self.send(writer)
    }

    /// Writes the answers that wait before a fault is told; the fault of writing where that fails.
    fn fail<W: Write>(&mut self, writer: &mut W, fault: ScriptFault) -> ScriptFault
        ensures { (front more : List ℕ) × (self.old.out.items ≡ front ++ more)
            × Appends (W.contents writer.old) (W.contents writer.new) front
            × (((result ≡ fault) × (more ≡ [])) ⊎ IsOutputFault result) }
    {
        match self.send(writer) {
            Ok(()) => fault,
            Err(other) => other,
        }
    }

    /// Answers the line that ends with this piece.
    fn end_line<A: Respond, V: Observer<A>>(
        &mut self,
        responder: &mut A,
        observer: &mut V,
        piece: &[u8],
    ) -> Result<(), ScriptFault>
        ensures ok { OnOk result ((text : List ℕ)
            × A.answers responder.old (self.old.rest.items ++ piece.now) text responder.new
            × (self.new.out.items ≡ self.old.out.items ++ text)) }
        ensures rest { OnOk result (self.new.rest.items ≡ []) }
        ensures answered { OnOk result (self.new.answered ≡ u64_saturate (self.old.answered + 1)) }
        ensures err { OnErr result (self.new.out.items ≡ self.old.out.items) }
        ensures bad { (n : ℕ) → result ≡ Err (ScriptFault.BadCommand n)
            → (n ≡ u64_saturate (self.old.answered + 1))
            × IsBadLine A.is_bad (self.old.rest.items ++ piece.now) }
    {
        let number = self.answered.saturating_add(1);
        if self.rest.is_empty() {
            answer(responder, observer, piece, &mut self.out, number)?;
        } else {
            self.rest.extend_from_slice(piece)?;
            answer(responder, observer, &self.rest, &mut self.out, number)?;
            self.rest.clear();
        }
        self.answered = number;
        Ok(())
    }

    /// Answers the line that ends with this piece and a line feed. Answers are written where many wait, and
    /// before a fault is told.
    fn take_line<A: Respond, V: Observer<A>, W: Write>(
        &mut self,
        responder: &mut A,
        observer: &mut V,
        writer: &mut W,
        piece: &[u8],
    ) -> Result<(), ScriptFault>
        ensures ok { (first : A) (read written : List ℕ) → HasNoFeed piece.now
            → IsProgressAt A.answers first read written self.old responder.old
            → OnOk result ((more : List ℕ)
            × Appends (W.contents writer.old) (W.contents writer.new) more
            × IsProgressAt A.answers first (read ++ (piece.now ++ 10 ∷ [])) (written ++ more)
            self.new responder.new) }
        ensures err { (first : A) (read written : List ℕ) → HasNoFeed piece.now
            → IsProgressAt A.answers first read written self.old responder.old
            → IfErr result (λ e. (more : List ℕ)
            × Appends (W.contents writer.old) (W.contents writer.new) more
            × ((after : List ℕ) → FailsWith A.answers A.is_bad first
            (read ++ (piece.now ++ 10 ∷ after)) (written ++ more) e)) }
    {
        if let Err(fault) = self.end_line(responder, observer, piece) {
            return Err(self.fail(writer, fault));
        }
        self.send_many(writer)
    }

    /// Keeps the beginning of a line whose end is not read yet.
    fn keep<A: Respond, V: Observer<A>>(
        &mut self,
        observer: &mut V,
        piece: &[u8],
    ) -> Result<(), ScriptFault>
        ensures ok { OnOk result (self.new.rest.items ≡ self.old.rest.items ++ piece.now) }
        ensures out { self.new.out.items ≡ self.old.out.items }
        ensures answered { self.new.answered ≡ self.old.answered }
        ensures bad { (n : ℕ) → result ≡ Err (ScriptFault.BadCommand n)
            → (n ≡ u64_saturate (self.old.answered + 1))
            × (longest_line < length (self.old.rest.items ++ piece.now)) }
    {
        self.rest.extend_from_slice(piece)?;
        if self.rest.len() > LINE_BYTES {
            let number = self.answered.saturating_add(1);
            observer.bad_line(number, &self.rest);
            return Err(ScriptFault::BadCommand { line: number });
        }
        Ok(())
    }

    /// Answers the lines that end in this chunk, and keeps what stands behind them.
    pub(crate) fn take<A: Respond, V: Observer<A>, W: Write>(
        &mut self,
        responder: &mut A,
        observer: &mut V,
        writer: &mut W,
        chunk: &[u8],
    ) -> Result<(), ScriptFault>
        ensures ok { (first : A) (read written : List ℕ)
            → IsProgressAt A.answers first read written self.old responder.old
            → OnOk result ((more : List ℕ)
            × Appends (W.contents writer.old) (W.contents writer.new) more
            × IsProgressAt A.answers first (read ++ chunk.now) (written ++ more)
            self.new responder.new) }
        ensures err { (first : A) (read written : List ℕ)
            → IsProgressAt A.answers first read written self.old responder.old
            → IfErr result (λ e. (more : List ℕ)
            × Appends (W.contents writer.old) (W.contents writer.new) more
            × ((after : List ℕ) → FailsWith A.answers A.is_bad first
            ((read ++ chunk.now) ++ after) (written ++ more) e)) }
    {
        let mut unread = chunk;
        while let Some((piece, after)) = cut_line(unread) {
            self.take_line(responder, observer, writer, piece)?;
            unread = after;
        }
        if let Err(fault) = self.keep::<A, V>(observer, unread) {
            return Err(self.fail(writer, fault));
        }
        Ok(())
    }

    /// Answers what stands behind the last line feed, if there is anything.
    fn end_open<A: Respond, V: Observer<A>>(
        &mut self,
        responder: &mut A,
        observer: &mut V,
    ) -> Result<(), ScriptFault>
        ensures ok { (first : A) (read written : List ℕ)
            → IsProgressAt A.answers first read written self.old responder.old
            → OnOk result (Answered A.answers first (lines_of read) (written ++ self.new.out.items)
            responder.new) }
        ensures err { OnErr result (self.new.out.items ≡ self.old.out.items) }
        ensures bad { (n : ℕ) → result ≡ Err (ScriptFault.BadCommand n)
            → (n ≡ u64_saturate (self.old.answered + 1))
            × (0 < length self.old.rest.items) × IsBadLine A.is_bad self.old.rest.items }
    {
        if self.rest.is_empty() {
            return Ok(());
        }
        self.end_line(responder, observer, &[])
    }

    /// Answers what stands behind the last line feed, and writes what waits.
    pub(crate) fn finish<A: Respond, V: Observer<A>, W: Write>(
        &mut self,
        responder: &mut A,
        observer: &mut V,
        writer: &mut W,
    ) -> Result<(), ScriptFault>
        ensures ok { (first : A) (read written : List ℕ)
            → IsProgressAt A.answers first read written self.old responder.old
            → OnOk result ((more : List ℕ)
            × Appends (W.contents writer.old) (W.contents writer.new) more
            × Answered A.answers first (lines_of read) (written ++ more) responder.new) }
        ensures err { (first : A) (read written : List ℕ)
            → IsProgressAt A.answers first read written self.old responder.old
            → IfErr result (λ e. (more : List ℕ)
            × Appends (W.contents writer.old) (W.contents writer.new) more
            × FailsWith A.answers A.is_bad first read (written ++ more) e) }
    {
        if let Err(fault) = self.end_open(responder, observer) {
            return Err(self.fail(writer, fault));
        }
        self.send(writer)
    }
}
