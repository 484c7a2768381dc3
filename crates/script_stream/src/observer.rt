//! Who looks on as a script is answered.

use crate::respond::Respond;

/// Looks on as the lines of a script are answered. Lines are counted from 1, and come without their line feeds. What an
/// observer does changes no answer.
pub trait Observer<A: Respond> {
    /// These bytes were read, and none of their lines is answered yet.
    fn read(&mut self, bytes: &[u8]);

    /// A line was answered, and left the responder so. The answer may still wait to be written.
    fn answered(&mut self, number: u64, line: &[u8], told: &A::Told, responder: &A);

    /// A line ends the script: it is no command, or longer than `LINE_BYTES`. Of a line that is too long what was read comes.
    fn bad_line(&mut self, number: u64, line: &[u8]);

    /// All answers are written and handed on, and more is to be read, or the script has ended.
    fn handed_on(&mut self);
}

/// No observer.
#[derive(Drop)]
pub struct Nobody;

impl<A: Respond> Observer<A> for Nobody {
    fn read(&mut self, _bytes: &[u8]) {}

    fn answered(&mut self, _number: u64, _line: &[u8], _told: &A::Told, _responder: &A) {}

    fn bad_line(&mut self, _number: u64, _line: &[u8]) {}

    fn handed_on(&mut self) {}
}
