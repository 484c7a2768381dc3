//! Grace periods, and the elements that they let be reclaimed.
ghost use Rattle.std.specs.Prelude.{◌≡◌, ◌+◌, ◌<◌, ◌^◌, Some};
ghost use Rattle.bpf_model.specs.declared.event.Answer.TheVariants.{Reaped};
ghost use Rattle.model_laws.specs.Reactions.{advance_reaction, reap_reaction};

use crate::kept::brief::Brief;
use crate::kept::parts::Parts;
use bpf_model::{Answer, ReapedElement};

/// Puts an element that was reclaimed in the place of an answer.
#[inline(always)]
fn put_element(element: ReapedElement, answer: &mut Answer)
    ensures { answer.new ≡ Reaped (Some element) }
{
    match answer {
        Answer::Reaped(Some(place)) => *place = element,
        _ => *answer = Answer::Reaped(Some(element)),
    }
}

impl Parts {
    /// Ends the grace period in each map where no run is awaited; the next one awaits the runs that are
    /// inside a section now. Else nothing changes. The answer is put in the place of another one.
    #[inline(never)]
    pub fn advance_into(&mut self, answer: &mut Answer)
        ensures answer { answer.new ≡ (advance_reaction self.old).0 }
        ensures new { self.new ≡ (advance_reaction self.old).1 }
    {
        if self.grace.advance() {
            self.registry.advance();
        }
        Brief::Done.put(answer);
    }

    /// Reclaims the element that has been ready longest in the first map that has one. The answer is put in the
    /// place of another one.
    #[inline(never)]
    pub fn reap_into(&mut self, answer: &mut Answer)
        requires { self.old.given + 1 < 2 ^ 64 }
        ensures answer { answer.new ≡ (reap_reaction self.old).0 }
        ensures new { self.new ≡ (reap_reaction self.old).1 }
    {
        match self.registry.reap() {
            None => Brief::NothingReady.put(answer),
            Some(element) => {
                self.given += 1;
                put_element(element, answer);
            }
        }
    }
}
