//! The ways on which a register, or a byte of the frame, came to be unreadable.

use bpf_model::{CallKind, Insn};
use program_files::Source;
use register_kinds::RegKind;
use std::alloc::{AllocError, Global};
use verifier::{GraphRefusal, falls, judge};
use verifier_log::{Passing, Watched, passings_of};

/// A way from one instruction to another, by their indexes, and what is known there of what is watched.
#[derive(Clone, Copy)]
pub struct Edge {
    pub from: usize,
    pub to: usize,
    pub kind: RegKind,
}

/// How something came to be unreadable before an instruction.
#[derive(Drop)]
pub struct Ways {
    /// The indexes of the instructions at which it was lost last, the greatest first.
    pub lost: Vec<usize>,
    /// The edges that lead to where it is unreadable, and on from there to the instruction.
    pub edges: Vec<Edge>,
    /// Whether it was so from the entry on, on some way.
    pub is_from_entry: bool,
}

/// A program, and what each of its instructions makes of what is watched.
#[derive(Clone, Copy)]
struct Watch<'a> {
    instructions: &'a [Insn],
    targets: &'a [Option<usize>],
    passings: &'a [Passing],
    watched: Watched,
}

/// Whether an instruction leaves nothing in a register: a call in r1 to r5, and one of a kernel function in r0.
fn is_cleared(insn: &Insn, watched: Watched) -> bool {
    match (insn, watched) {
        (Insn::Call { kind, .. }, Watched::Register(number)) => {
            let first = if *kind == CallKind::Kernel { 0 } else { 1 };
            first <= number && number <= 5
        }
        _ => false,
    }
}

impl Watch<'_> {
    /// The edges from an instruction: where control falls through, and where it jumps.
    fn edges_from(&self, from: usize) -> (Option<Edge>, Option<Edge>) {
        let (Some(insn), Some(passing)) = (self.instructions.get(from), self.passings.get(from))
        else {
            return (None, None);
        };
        let (falling, kind) = if falls(insn) {
            let next = Edge {
                from,
                to: from.saturating_add(1),
                kind: passing.falling,
            };
            (Some(next), passing.taken)
        } else {
            (None, passing.falling)
        };
        let jumping = match self.targets.get(from) {
            Some(Some(to)) => Some(Edge {
                from,
                to: *to,
                kind,
            }),
            _ => None,
        };
        (falling, jumping)
    }

    /// Whether an instruction, behind which what is watched is of an unreadable kind, has made it so.
    fn loses(&self, from: usize, bad: RegKind) -> bool {
        match (self.instructions.get(from), self.passings.get(from)) {
            (Some(insn), Some(passing)) => {
                passing.before != bad || is_cleared(insn, self.watched)
            }
            _ => false,
        }
    }
}

/// What was found of the ways that lead to an instruction, and which further ones lead there.
#[derive(Drop)]
struct Search {
    ways: Ways,
    /// For each instruction whether what is watched is unreadable before it, and control may go on from there to the one
    /// that is refused.
    asked: Vec<bool>,
}

impl Search {
    /// Marks an instruction as one before which what is watched is unreadable.
    fn ask(&mut self, index: usize) {
        if let Some(mark) = self.asked.get_mut(index) {
            *mark = true;
        }
    }

    /// Whether what is watched is unreadable before this instruction, on a way to the one that is refused.
    fn is_asked(&self, index: usize) -> bool {
        self.asked.get(index).is_some_and(|is_asked| *is_asked)
    }

    /// Takes an edge that may lead to where what is watched is of this kind, which cannot be read.
    fn take(
        &mut self,
        watch: &Watch<'_>,
        edge: Option<Edge>,
        bad: RegKind,
    ) -> Result<(), AllocError> {
        let Some(edge) = edge else {
            return Ok(());
        };
        if !self.is_asked(edge.to) {
            return Ok(());
        }
        self.ways.edges.push(edge)?;
        if edge.kind == bad && watch.loses(edge.from, bad) {
            self.ways.lost.push(edge.from)?;
        } else if edge.kind == bad {
            self.ask(edge.from);
        }
        Ok(())
    }
}

/// The ways to the instruction of this index, before which what is watched is of this kind, which cannot be read.
fn found(alloc: Global, watch: &Watch<'_>, index: usize, bad: RegKind) -> Result<Ways, AllocError> {
    let mut search = Search {
        ways: Ways {
            lost: Vec::new(alloc),
            edges: Vec::new(alloc),
            is_from_entry: false,
        },
        asked: vec![in alloc; false; watch.instructions.len()]?,
    };
    search.ask(index);
    for from in (0..index).rev() {
        let (falling, jumping) = watch.edges_from(from);
        search.take(watch, falling, bad)?;
        search.take(watch, jumping, bad)?;
    }
    search.ways.is_from_entry = search.is_asked(0);
    Ok(search.ways)
}

/// The index to which each instruction of a program jumps, if it is a jump. `None` where the jump graph has a flaw.
pub fn targets_of(
    alloc: Global,
    source: &Source,
) -> Result<Option<Vec<Option<usize>>>, AllocError> {
    let program = &source.program;
    match judge(
        alloc,
        program.instructions(),
        program.starts(),
        program.slot_count(),
    ) {
        Ok(targets) => Ok(Some(targets)),
        Err(GraphRefusal::Memory) => Err(AllocError),
        Err(GraphRefusal::Flaw { .. }) => Ok(None),
    }
}

/// How what is watched came to be of this kind before the instruction of this index: `Unwritten`, `Ended` or `Mixed`. `None` where
/// the jump graph has a flaw.
///
/// The error is that there is no memory left.
pub fn ways_to(
    alloc: Global,
    source: &Source,
    index: usize,
    watched: Watched,
    bad: RegKind,
) -> Result<Option<Ways>, AllocError> {
    let Some(targets) = targets_of(alloc, source)? else {
        return Ok(None);
    };
    let passings = passings_of(alloc, source, &targets, watched)?;
    let watch = Watch {
        instructions: source.program.instructions(),
        targets: &targets,
        passings: &passings,
        watched,
    };
    Ok(Some(found(alloc, &watch, index, bad)?))
}
