//! Where an instruction accesses memory.

use bpf_model::{Insn, Reg, Width};

/// An access: through which register, how far from where that leads, and how many bytes.
#[derive(Clone, Copy)]
pub struct Access {
    pub base: Reg,
    pub offset: i16,
    pub length: usize,
}

impl Access {
    /// An access of so many bytes.
    fn new(base: Reg, offset: i16, width: Width) -> Access {
        Access {
            base,
            offset,
            length: width.bytes(),
        }
    }
}

/// What an instruction loads, if it is a load.
pub fn loaded(insn: &Insn) -> Option<Access> {
    match insn {
        Insn::Load {
            width,
            src,
            offset,
            ..
        } => Some(Access::new(*src, *offset, *width)),
        Insn::LoadSigned {
            width,
            src,
            offset,
            ..
        } => Some(Access::new(*src, *offset, width.width())),
        _ => None,
    }
}

/// What an instruction loads or stores, if it is a load or a store.
pub fn accessed(insn: &Insn) -> Option<Access> {
    match insn {
        Insn::Store {
            width,
            dst,
            offset,
            ..
        } => Some(Access::new(*dst, *offset, *width)),
        _ => loaded(insn),
    }
}
