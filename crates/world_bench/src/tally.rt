//! What events were answered, counted.

use bpf_model::Answer;

/// How many answers of each kind there were, and a sum of what they told.
#[derive(Clone, Copy, Default)]
pub struct Tally {
    pub moved: u64,
    pub exited: u64,
    /// Updates and deletions that were made.
    pub made: u64,
    pub found: u64,
    pub absent: u64,
    pub reclaimed: u64,
    /// Refusals, errors, and reclamations that found nothing.
    pub other: u64,
    /// The sum of exit values and of the first bytes of values that were read.
    pub sum: u64,
}

/// Adds one to a counter.
#[inline]
fn count(counter: &mut u64) {
    *counter = counter.wrapping_add(1);
}

impl Tally {
    /// Counts an answer.
    #[inline]
    pub fn note(&mut self, answer: &Answer) {
        match answer {
            Answer::Moved => count(&mut self.moved),
            Answer::Exited(number) => {
                count(&mut self.exited);
                self.sum = self.sum.wrapping_add(*number);
            }
            Answer::Ret(Ok(())) => count(&mut self.made),
            Answer::Found(Some(value)) => {
                count(&mut self.found);
                let first = value.as_slice().first().copied().unwrap_or(0);
                self.sum = self.sum.wrapping_add(u64::from(first));
            }
            Answer::Found(None) => count(&mut self.absent),
            Answer::Reaped(Some(_)) => count(&mut self.reclaimed),
            Answer::Done | Answer::Started(_) => {}
            Answer::Ret(Err(_)) | Answer::Reaped(None) | Answer::Refused(_) => {
                count(&mut self.other)
            }
        }
    }
}
