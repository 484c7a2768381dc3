//! What becomes of one register, or of one byte of the frame, from instruction to instruction.
ghost use Rattle.std.specs.Prelude.{◌<◌, ◌*◌};

use crate::numbered::next_of;
use crate::states::{States, Waiting};
use bpf_model::{FRAME_BYTES, Width};
use program_files::{Source, shapes_of};
use register_kinds::{AbsState, Content, FrameCells, InsnFault, RegKind, check_bytes, read_frame};
use scalar_domain::Scalar;
use state_steps::EnvironmentShape;
use std::alloc::{AllocError, Global};

/// What of all that is known is looked at.
#[derive(Clone, Copy)]
pub enum Watched {
    /// The register of this number.
    Register(usize),
    /// The byte of the frame that so many others stand below.
    Byte(usize),
}

/// What is known of what is watched before an instruction, and behind it: where control falls through, or where an
/// unconditional jump leads; and where a conditional jump leads.
#[derive(Clone, Copy)]
pub struct Passing {
    pub before: RegKind,
    pub falling: RegKind,
    pub taken: RegKind,
}

/// The reference that eight bytes of the frame are; `Mixed` where they are none.
fn reference_in(frame: &FrameCells, group: usize) -> RegKind {
    if group >= 64 {
        return RegKind::Mixed;
    }
    match read_frame(frame, 8 * group, 8) {
        Ok(Content::Pointer(kind)) => kind,
        _ => RegKind::Mixed,
    }
}

/// What a load of a byte of the frame gives, or why it gives nothing; of a part of a reference the reference.
fn byte_kind(frame: &FrameCells, at: usize) -> RegKind {
    if at >= FRAME_BYTES {
        return RegKind::Unwritten;
    }
    match check_bytes(frame, at, 1) {
        Ok(()) => RegKind::Num(Scalar::loaded(Width::One)),
        Err(InsnFault::UnwrittenFrame) => RegKind::Unwritten,
        Err(InsnFault::OutsideSection) => RegKind::Ended,
        Err(InsnFault::PointerLeak) => reference_in(frame, at / 8),
        Err(_) => RegKind::Mixed,
    }
}

/// What is known of what is watched.
fn kind_of(state: &AbsState, watched: Watched) -> RegKind {
    match watched {
        Watched::Register(number) => match state.regs.get(number) {
            Some(kind) => *kind,
            None => RegKind::Unwritten,
        },
        Watched::Byte(at) => byte_kind(&state.frame, at),
    }
}

/// Does the step of an instruction, and says what it makes of what is watched; none where it is refused.
fn pass(
    source: &Source,
    shape: &EnvironmentShape,
    states: &mut States,
    index: usize,
    target: Option<usize>,
    watched: Watched,
) -> Result<Option<Passing>, AllocError> {
    let Some(insn) = source.program.instructions().get(index) else {
        return Ok(None);
    };
    let known = match states.take(index) {
        Waiting::Known(known) => known,
        Waiting::Nothing | Waiting::Differing => return Ok(None),
    };
    let before = kind_of(known.state(), watched);
    let Some(next) = next_of(known, &mut states.boxes, insn, shape, &mut states.ids)? else {
        return Ok(None);
    };
    let falling = kind_of(next.falling.state(), watched);
    let taken = match &next.taken {
        Some(state) => kind_of(state.state(), watched),
        None => falling,
    };
    states.spread(insn, index, target, next);
    Ok(Some(Passing {
        before,
        falling,
        taken,
    }))
}

/// What each instruction makes of what is watched, in their order up to the one that is refused, where each jump leads to the
/// instruction of this index. It goes through the program again, as the verifier does.
///
/// The error is that there is no memory left.
pub fn passings_of(
    alloc: Global,
    source: &Source,
    targets: &[Option<usize>],
    watched: Watched,
) -> Result<Vec<Passing>, AllocError> {
    let shapes = shapes_of(alloc, &source.registry)?;
    let shape = EnvironmentShape {
        shapes: &shapes,
        ctx_len: source.ctx_len,
    };
    let mut states = States::at_entry(alloc, targets.len())?;
    let mut passings = Vec::with_capacity(alloc, targets.len())?;
    for (index, target) in targets.iter().enumerate() {
        match pass(source, &shape, &mut states, index, *target, watched)? {
            Some(passing) => passings.push(passing)?,
            None => return Ok(passings),
        }
    }
    Ok(passings)
}
