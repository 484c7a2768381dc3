//! An observer that says why the lines of a script are refused.

use crate::refused_line::write_refused;
use crate::wrong_command::{write_bad_line, write_likeness};
use control::{LineRefusal, ScriptFault, Session};
use script_stream::Observer;
use std::alloc::Global;
use std::io::Write;

/// Says in words on a writer why lines of a script are refused, and why one is no command. The words about a line are written
/// once its answer is handed on. Where memory runs out or the writer fails, words are missing, and nothing else.
#[derive(Drop)]
pub struct Explaining<'a, E: Write> {
    alloc: Global,
    err: &'a mut E,
    words: Vec<u8>,
    beginning: Vec<u8>,
    answered: u64,
    handed_on: u64,
}

impl<'a, E: Write> Explaining<'a, E> {
    /// Before the first line.
    pub fn new(alloc: Global, err: &'a mut E) -> Explaining<'a, E> {
        Explaining {
            alloc,
            err,
            words: Vec::new(alloc),
            beginning: Vec::new(alloc),
            answered: 0,
            handed_on: 0,
        }
    }

    /// The writer.
    pub fn writer(&mut self) -> &mut E {
        self.err
    }

    /// Writes the words that wait.
    fn say(&mut self) {
        let _ = self.err.write_all(&self.words);
        self.words.clear();
    }

    /// Writes the words that wait at the end of a script that failed, unless its answers cannot be written.
    pub fn end(&mut self, why: ScriptFault) {
        if why != ScriptFault::Write {
            self.say();
        }
    }
}

impl<'a, E: Write> Observer<Session> for Explaining<'a, E> {
    fn read(&mut self, bytes: &[u8]) {
        if self.handed_on == 0 {
            let _ = self.beginning.extend_from_slice(bytes);
        }
    }

    fn answered(
        &mut self,
        number: u64,
        line: &[u8],
        told: &Option<LineRefusal>,
        session: &Session,
    ) {
        self.answered = number;
        if let Some(refusal) = told {
            let _ = write_refused(self.alloc, &mut self.words, number, line, refusal, session);
        }
    }

    fn bad_line(&mut self, number: u64, line: &[u8]) {
        let above = usize::try_from(number.saturating_sub(1)).unwrap_or(usize::MAX);
        let _ = write_bad_line(self.alloc, &mut self.words, above, line);
        if self.handed_on == 0 {
            let _ = write_likeness(&mut self.words, &self.beginning);
        }
    }

    fn handed_on(&mut self) {
        self.say();
        self.handed_on = self.answered;
        if self.handed_on > 0 {
            self.beginning.clear();
        }
    }
}
