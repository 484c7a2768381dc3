//! The slots of a map's unlinked elements, from their removal to their reclamation, in three lists that are
//! threaded through the links of their slots.

ghost use Rattle.std.specs.Prelude.{◌≡◌, Some, None, IfSome, slice_get};
ghost use Rattle.bpf_model.specs.Schedule.{no_queues, turned};
ghost use Rattle.element_store.specs.State.{ArenaState, IsTaken, LinksOf};
ghost use Rattle.element_store.specs.Deferred.{DeferredFits, deferred_lists};
ghost use Rattle.element_store.specs.Lines.{AreLinksJoined, joined_lines};
ghost use Rattle.element_store.specs.Queued.{queued, reaped_lists, retired_lists};

use crate::arena::Arena;
use crate::cell::last_after;

/// The first and the last slot of a list whose slots are linked to one another.
#[derive(Clone, Copy)]
struct Line {
    first: Option<usize>,
    last: Option<usize>,
}

/// The list without slots.
const NONE: Line = Line {
    first: None,
    last: None,
};

/// The three lists of a map's unlinked slots: those unlinked since the grace period began, those that wait
/// for its end, and those that may be reclaimed. Each keeps its ends alone: what stands in it is read over
/// the map's arena, which each call is given and of which it changes links of slots in the lists alone.
/// Every call takes the same time for any number of slots, and no memory.
#[derive(Drop)]
pub struct DeferredSlots {
    next: Line,
    waiting: Line,
    ready: Line,
}

/// One list behind another: the last slot of the first is linked to the first of the second.
fn join(arena: &mut Arena, front: Line, back: Line) -> Line
    requires { IfSome front.last (λ l. IsTaken arena.old l) }
    ensures links { AreLinksJoined arena.old arena.new front.last back.first }
    ensures line { result ≡ joined_lines front back }
{
    match front.last {
        None => back,
        Some(last) => {
            arena.set_next(last, back.first);
            match back.last {
                None => front,
                Some(_) => Line {
                    first: front.first,
                    last: back.last,
                },
            }
        }
    }
}

impl DeferredSlots {
    /// Three empty lists, over any arena.
    pub fn new() -> DeferredSlots
        ensures lists { (a : ArenaState) → deferred_lists result a ≡ no_queues }
        ensures fits { (a : ArenaState) → DeferredFits result a }
    {
        DeferredSlots {
            next: NONE,
            waiting: NONE,
            ready: NONE,
        }
    }

    /// A taken slot that is in no list joins the end of next.
    pub fn retire(&mut self, arena: &mut Arena, slot: usize)
        requires fits { DeferredFits self.old arena.old }
        requires taken { IsTaken arena.old slot }
        requires apart { queued (deferred_lists self.old arena.old) slot ≡ 0 }
        ensures lists { deferred_lists self.new arena.new
            ≡ retired_lists (deferred_lists self.old arena.old) slot }
        ensures fits { DeferredFits self.new arena.new }
        ensures links { LinksOf (queued (deferred_lists self.new arena.new)) arena.old arena.new }
    {
        arena.set_next(slot, None);
        let back = Line {
            first: Some(slot),
            last: Some(slot),
        };
        self.next = join(arena, self.next, back);
    }

    /// A grace period ends and the next begins: what waits is ready, behind what is ready already, and next
    /// waits.
    pub fn advance(&mut self, arena: &mut Arena)
        requires fits { DeferredFits self.old arena.old }
        ensures lists { deferred_lists self.new arena.new ≡ turned (deferred_lists self.old arena.old) }
        ensures fits { DeferredFits self.new arena.new }
        ensures links { LinksOf (queued (deferred_lists self.old arena.old)) arena.old arena.new }
    {
        self.ready = join(arena, self.ready, self.waiting);
        self.waiting = self.next;
        self.next = NONE;
    }

    /// The first ready slot, which leaves its list. `None` where none is ready.
    pub fn reap(&mut self, arena: &mut Arena) -> Option<usize>
        requires fits { DeferredFits self.old arena.old }
        ensures first { result ≡ slice_get (deferred_lists self.old arena.old).ready 0 }
        ensures lists { deferred_lists self.new arena.new
            ≡ reaped_lists (deferred_lists self.old arena.old) }
        ensures fits { DeferredFits self.new arena.new }
        ensures links { LinksOf (queued (deferred_lists self.old arena.old)) arena.old arena.new }
    {
        match self.ready.first {
            None => None,
            Some(slot) => {
                let rest = arena.next_of(slot);
                let last = last_after(rest, self.ready.last);
                self.ready = Line { first: rest, last };
                Some(slot)
            }
        }
    }

    /// The same three lists.
    pub fn copy(&self) -> DeferredSlots
        ensures { result ≡ self.now }
    {
        DeferredSlots {
            next: self.next,
            waiting: self.waiting,
            ready: self.ready,
        }
    }
}
