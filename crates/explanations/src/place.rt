//! Where a program is refused, and what is known there.

use bpf_model::{CallKind, Helper, Insn, MapId, MapShape, Reg};
use program_files::Source;
use register_kinds::{AbsState, InsnFault, RegKind};

/// A program, and for each of its instructions the line of a text where it stands, where it was made of one.
#[derive(Clone, Copy)]
pub struct Told<'a> {
    pub source: &'a Source,
    pub lines: &'a [usize],
}

/// Where a program is refused for a fault: the index of the instruction, that one, and what is known before it.
#[derive(Clone, Copy)]
pub struct Place<'a> {
    pub told: Told<'a>,
    pub index: usize,
    pub insn: &'a Insn,
    pub fault: InsnFault,
    pub state: &'a AbsState,
}

impl<'a> Place<'a> {
    /// What is known of a register.
    pub fn kind(&self, register: Reg) -> Option<&'a RegKind> {
        self.state.regs.get(register.index())
    }

    /// The shape of the map that the first argument of a call is.
    pub fn shape_of_call(&self) -> Option<MapShape> {
        match self.state.regs.get(1) {
            Some(RegKind::Map(map)) => self.shape(*map),
            _ => None,
        }
    }

    /// The shape of the map of this place in the program's list.
    pub fn shape(&self, map: u32) -> Option<MapShape> {
        self.told.source.registry.shape(MapId::new(map as usize))
    }
}

/// The helper that an instruction calls.
pub fn helper_of(insn: &Insn) -> Option<Helper> {
    match insn {
        Insn::Call {
            kind: CallKind::Helper,
            imm,
        } => Helper::from_number(*imm),
        _ => None,
    }
}
