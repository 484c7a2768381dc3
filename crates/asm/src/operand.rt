//! Arguments in their ranges.
ghost use Rattle.std.specs.Prelude.{ℕ, ◌≡◌, ◌<◌, ◌≤◌, ◌^◌, ℤ, FitsSigned, IfSome};
ghost use Rattle.std.specs.Int.{w16, w32};
ghost use Rattle.bpf_model.specs.Spelling.{FitsOperand, extension_size, extension_bits};
ghost use Rattle.bpf_model.specs.declared.insn.Operand.{Operand as OperandOf};
ghost use Rattle.bpf_model.specs.declared.insn.SignExtension.{SignExtension as SignExtensionOf};
ghost use Rattle.disasm.specs.Text.{sign_of, magnitude as magnitude_of, number_argument, offset_argument, memory_argument, source_argument};

use crate::numeral::CAP;
use disasm::{Argument, Sign};
use insn_codec::{Operand, Reg, SignExtension, Size, extension_of};

/// The number of this sign and magnitude, where it has 32 bits. 0 has no minus.
fn signed32(sign: Sign, magnitude: u128) -> Option<i32>
    ensures found { IfSome result (λ z.
        (sign_of z ≡ sign) × (magnitude_of z ≡ magnitude) × FitsSigned w32 z) }
    ensures only { (z : ℤ) →
        FitsSigned w32 z → sign ≡ sign_of z → magnitude ≡ magnitude_of z → result ≡ Some z }
{
    match sign {
        Sign::Plus => {
            if magnitude < 0x8000_0000 {
                Some(magnitude as i32)
            } else {
                None
            }
        }
        Sign::Minus => {
            if 0 < magnitude && magnitude <= 0x8000_0000 {
                Some(-(magnitude as i64) as i32)
            } else {
                None
            }
        }
    }
}

/// The number of this sign and magnitude, where it has 16 bits.
fn signed16(sign: Sign, magnitude: u128) -> Option<i16>
    ensures found { IfSome result (λ z.
        (sign_of z ≡ sign) × (magnitude_of z ≡ magnitude) × FitsSigned w16 z) }
    ensures only { (z : ℤ) →
        FitsSigned w16 z → sign ≡ sign_of z → magnitude ≡ magnitude_of z → result ≡ Some z }
{
    i16::try_from(signed32(sign, magnitude)?).ok()
}

/// The register of this number.
fn numbered(number: u128) -> Option<Reg>
    ensures found { IfSome result (λ r. (r ≡ number) × (r ≤ 10)) }
    ensures only { number ≤ 10 → result ≡ Some number }
{
    if number <= 10 {
        Reg::new(number as u8)
    } else {
        None
    }
}

/// The register that the argument names, r0 to r10; `None` where it names none.
pub fn register(argument: &Argument) -> Option<Reg>
    ensures found { IfSome result (λ r. (argument.now ≡ Argument.Register r) × (r ≤ 10)) }
    ensures only { (r : ℕ) → r ≤ 10 → argument.now ≡ Argument.Register r → result ≡ Some r }
{
    match argument {
        Argument::Register(number) => numbered(*number),
        _ => None,
    }
}

/// The signed number of 32 bits that the argument is, if it is one.
pub fn number(argument: &Argument) -> Option<i32>
    ensures found { IfSome result (λ z. (argument.now ≡ number_argument z) × FitsSigned w32 z) }
    ensures only { (z : ℤ) →
        FitsSigned w32 z → argument.now ≡ number_argument z → result ≡ Some z }
{
    match argument {
        Argument::Number(magnitude) => signed32(Sign::Plus, *magnitude),
        Argument::Signed(Sign::Minus, magnitude) => signed32(Sign::Minus, *magnitude),
        _ => None,
    }
}

/// The unsigned number of 64 bits that the argument is, if it is one.
pub fn unsigned(argument: &Argument) -> Option<u64>
    ensures found { IfSome result (λ n. (argument.now ≡ Argument.Number n) × (n < 2 ^ 64)) }
    ensures only { (n : ℕ) → n < 2 ^ 64 → argument.now ≡ Argument.Number n → result ≡ Some n }
{
    match argument {
        Argument::Number(magnitude) if *magnitude < CAP => Some(*magnitude as u64),
        _ => None,
    }
}

/// The second operand that the argument is: a register, or an immediate of 32 bits.
pub fn source(argument: &Argument) -> Option<Operand>
    ensures found { IfSome result (λ o. (argument.now ≡ source_argument o) × FitsOperand o) }
    ensures only { (o : OperandOf) →
        FitsOperand o → argument.now ≡ source_argument o → result ≡ Some o }
{
    match argument {
        Argument::Register(_) => Some(Operand::Register(register(argument)?)),
        _ => Some(Operand::Immediate(number(argument)?)),
    }
}

/// The signed offset of 16 bits that the argument is, if it is one.
pub fn offset(argument: &Argument) -> Option<i16>
    ensures found { IfSome result (λ z. (argument.now ≡ offset_argument z) × FitsSigned w16 z) }
    ensures only { (z : ℤ) →
        FitsSigned w16 z → argument.now ≡ offset_argument z → result ≡ Some z }
{
    match argument {
        Argument::Signed(sign, magnitude) => signed16(*sign, *magnitude),
        _ => None,
    }
}

/// The signed offset of 32 bits that the argument is, if it is one.
pub fn long_offset(argument: &Argument) -> Option<i32>
    ensures found { IfSome result (λ z. (argument.now ≡ offset_argument z) × FitsSigned w32 z) }
    ensures only { (z : ℤ) →
        FitsSigned w32 z → argument.now ≡ offset_argument z → result ≡ Some z }
{
    match argument {
        Argument::Signed(sign, magnitude) => signed32(*sign, *magnitude),
        _ => None,
    }
}

/// The base register and the signed offset of 16 bits that the argument names; `None` where it names none.
pub fn memory(argument: &Argument) -> Option<(Reg, i16)>
    ensures found { IfSome result (λ x.
        (argument.now ≡ memory_argument x.0 x.1) × (x.0 ≤ 10) × FitsSigned w16 x.1) }
    ensures only { (base : ℕ) (z : ℤ) →
        base ≤ 10 → FitsSigned w16 z → argument.now ≡ memory_argument base z →
        result ≡ Some (base, z) }
{
    match argument {
        Argument::Memory { base, sign, offset } => {
            Some((numbered(*base)?, signed16(*sign, *offset)?))
        }
        _ => None,
    }
}

/// The sign extension to a size that is written with this many bits.
pub fn extension(size: Size, argument: &Argument) -> Option<SignExtension>
    ensures found { IfSome result (λ x.
        (extension_size x ≡ size) × (argument.now ≡ number_argument (extension_bits x))) }
    ensures only { (x : SignExtensionOf) →
        extension_size x ≡ size → argument.now ≡ number_argument (extension_bits x) →
        result ≡ Some x }
{
    extension_of(size, i16::try_from(number(argument)?).ok()?)
}
