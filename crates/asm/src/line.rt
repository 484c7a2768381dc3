//! Instructions out of lines.
ghost use Rattle.std.specs.Prelude.{◌≡◌, IfOk, IfErr};
ghost use Rattle.bpf_model.specs.Spelling.{FitsInsn};
ghost use Rattle.bpf_model.specs.declared.insn.Insn.{Insn as InsnOf};
ghost use Rattle.disasm.specs.Text.{line_of};
ghost use Rattle.asm.specs.Faults.{IsLineFlaw};

use crate::fault::LineFlaw;
use crate::form::is_formed;
use crate::insn::insn_from;
use crate::statement::read_statement;
use insn_codec::Insn;

/// The instruction that the line is the text of.
pub fn read_insn(line: &str) -> Result<Insn, LineFlaw>
    ensures found { IfOk result (λ i. FitsInsn i × (line.now ≡ line_of i)) }
    ensures only { (i : InsnOf) → FitsInsn i → line.now ≡ line_of i → result ≡ Ok i }
    ensures flaw { IfErr result (IsLineFlaw line.now) }
{
    let Some(statement) = read_statement(line) else {
        return Err(LineFlaw::NoForm);
    };
    if !is_formed(&statement) {
        return Err(LineFlaw::NoForm);
    }
    match insn_from(&statement) {
        Some(insn) => Ok(insn),
        None => Err(LineFlaw::OutOfRange),
    }
}
