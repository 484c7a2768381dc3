//! A file that is read.

use commands::{HEADING, TEXT_BYTES};
use std::io;
use std::io::{Error, ErrorKind, Read};

/// A file of which at most so many bytes are read, with the error of the last read, if that failed. A text that is longer than
/// `TEXT_BYTES` fails by `FileTooLarge`.
#[derive(Drop)]
pub struct Input<R: Drop> {
    source: R,
    left: u64,
    taken: u64,
    head: [u8; 8],
    is_text: bool,
    fault: Option<ErrorKind>,
}

impl<R: Drop> Input<R> {
    /// At most `most` bytes of the source are read. It is a text where `is_text` says so, or where it begins as a program file
    /// does.
    pub fn new(source: R, most: u64, is_text: bool) -> Input<R> {
        Input {
            source,
            left: most,
            taken: 0,
            head: [0; 8],
            is_text,
            fault: None,
        }
    }

    /// What was wrong, where the last read failed.
    pub fn fault(&self) -> Option<ErrorKind> {
        self.fault
    }

    /// Notes bytes that were read.
    fn note(&mut self, bytes: &[u8]) {
        let mut place = self.taken;
        for byte in &bytes[..bytes.len().min(8)] {
            if place < 8 {
                self.head[place as usize] = *byte;
                place += 1;
            }
        }
        let count = bytes.len() as u64;
        self.taken = self.taken.saturating_add(count);
        self.left = self.left.saturating_sub(count);
    }

    /// Whether it is a text of which more was read than is kept.
    fn is_too_large(&self) -> bool {
        self.taken > TEXT_BYTES as u64 && (self.is_text || self.head.as_slice() == HEADING)
    }
}

impl<R: Read + Drop> Read for Input<R> {
    fn read(&mut self, bytes: &mut [u8]) -> io::Result<usize> {
        let most = usize::try_from(self.left)
            .unwrap_or(usize::MAX)
            .min(bytes.len());
        let outcome = self.source.read(&mut bytes[..most]);
        self.fault = match &outcome {
            Ok(count) => {
                self.note(&bytes[..most.min(*count)]);
                if self.is_too_large() {
                    Some(ErrorKind::FileTooLarge)
                } else {
                    None
                }
            }
            Err(error) => Some(error.kind()),
        };
        match self.fault {
            Some(ErrorKind::FileTooLarge) => Err(Error::from(ErrorKind::FileTooLarge)),
            _ => outcome,
        }
    }
}
