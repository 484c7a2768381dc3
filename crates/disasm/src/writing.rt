//! Lines of text out of instructions.
ghost use Rattle.std.specs.Prelude.{◌≡◌, ◌∷◌, [], ◌++◌, OnOk, IfOk};
ghost use Rattle.std.specs.String.{string_bytes};
ghost use Rattle.disasm.specs.Text.{numeral, sign_text, argument_text, arguments_text, statement_text, line_of, program_text};

use crate::statement::{Argument, Arguments, Sign, Statement, statement_of};
use bpf_model::Insn;
use insn_codec::Program;
use std::alloc::{AllocError, Global};

fn push_numeral(out: &mut String, number: u128) -> Result<(), AllocError>
    ensures { OnOk result (string_bytes out.new ≡ string_bytes out.old ++ numeral number) }
{
    write!(out, "{number}")
}

fn push_sign(out: &mut String, sign: Sign) -> Result<(), AllocError>
    ensures { OnOk result (string_bytes out.new ≡ string_bytes out.old ++ sign_text sign) }
{
    match sign {
        Sign::Plus => out.push_str("+"),
        Sign::Minus => out.push_str("-"),
    }
}

#[tactic(auto, using(std::proofs::Common::append_assoc))]
fn push_argument(out: &mut String, argument: &Argument) -> Result<(), AllocError>
    ensures { OnOk result
        (string_bytes out.new ≡ string_bytes out.old ++ argument_text argument.now) }
{
    match argument {
        Argument::Register(number) => {
            out.push_str("r")?;
            push_numeral(out, *number)
        }
        Argument::Number(magnitude) => push_numeral(out, *magnitude),
        Argument::Signed(sign, magnitude) => {
            push_sign(out, *sign)?;
            push_numeral(out, *magnitude)
        }
        Argument::Memory { base, sign, offset } => {
            out.push_str("[r")?;
            push_numeral(out, *base)?;
            push_sign(out, *sign)?;
            push_numeral(out, *offset)?;
            out.push_str("]")
        }
    }
}

#[tactic(auto, using(std::proofs::Common::append_assoc))]
fn push_arguments(out: &mut String, arguments: &Arguments) -> Result<(), AllocError>
    ensures { OnOk result
        (string_bytes out.new ≡ string_bytes out.old ++ arguments_text arguments.now) }
{
    match arguments {
        Arguments::Zero => Ok(()),
        Arguments::One(first) => {
            out.push_str(" ")?;
            push_argument(out, first)
        }
        Arguments::Two(first, second) => {
            out.push_str(" ")?;
            push_argument(out, first)?;
            out.push_str(", ")?;
            push_argument(out, second)
        }
        Arguments::Three(first, second, third) => {
            out.push_str(" ")?;
            push_argument(out, first)?;
            out.push_str(", ")?;
            push_argument(out, second)?;
            out.push_str(", ")?;
            push_argument(out, third)
        }
    }
}

#[tactic(auto, using(std::proofs::Common::append_assoc))]
fn push_statement(out: &mut String, statement: &Statement) -> Result<(), AllocError>
    ensures { OnOk result
        (string_bytes out.new ≡ string_bytes out.old ++ statement_text statement.now) }
{
    out.push_str(statement.mnemonic.stem())?;
    out.push_str(statement.mnemonic.suffix())?;
    push_arguments(out, &statement.arguments)
}

#[tactic(auto, using(std::proofs::Common::append_assoc))]
fn push_line(out: &mut String, insn: &Insn) -> Result<(), AllocError>
    ensures { OnOk result (
        string_bytes out.new ≡ string_bytes out.old ++ (line_of insn.now ++ 10 ∷ [])) }
{
    push_statement(out, &statement_of(insn))?;
    out.push_str("\n")
}

/// The line of an instruction, without a line feed.
///
/// # Errors
///
/// `AllocError` where memory for the text runs out.
pub fn line_of(alloc: Global, insn: &Insn) -> Result<String, AllocError>
    ensures { IfOk result (λ text. string_bytes text ≡ line_of insn.now) }
{
    let mut out = String::new(alloc);
    push_statement(&mut out, &statement_of(insn))?;
    Ok(out)
}

/// The text of a program: the line of each instruction, ended by a line feed.
///
/// # Errors
///
/// `AllocError` where memory for the text runs out.
pub fn disassemble(alloc: Global, program: &Program) -> Result<String, AllocError>
    ensures { IfOk result (λ text. string_bytes text ≡ program_text program.now) }
{
    let mut out = String::new(alloc);
    for insn in program.instructions() {
        push_line(&mut out, insn)?;
    }
    Ok(out)
}
