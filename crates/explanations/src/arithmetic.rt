//! Why arithmetic, a copy or a comparison is refused that has a reference in it, in words.

use crate::place::Place;
use bpf_model::{AluOp, Insn, NEAR_LIMIT, Operand, Reg, Size};
use register_kinds::RegKind;
use scalar_domain::Scalar;
use std::io;
use std::io::Write;

/// Whether a register holds a reference or a map.
fn is_reference(place: Place<'_>, register: Reg) -> bool {
    place.kind(register).is_some_and(|kind| kind.is_pointer())
}

/// The register that an operand is, where that holds a reference or a map.
fn reference_in(place: Place<'_>, src: &Operand) -> Option<Reg> {
    match src {
        Operand::Register(register) if is_reference(place, *register) => Some(*register),
        _ => None,
    }
}

/// The numbers that an operand may be.
fn numbers_of(place: Place<'_>, src: &Operand) -> Option<Scalar> {
    match src {
        Operand::Immediate(number) => { Some(Scalar::constant(i64::from(*number).cast_unsigned())) }
        Operand::Register(register) => match place.kind(*register) {
            Some(RegKind::Num(numbers)) => Some(*numbers),
            _ => None,
        },
    }
}

/// The least number that is negative where it is read with a sign.
const SIGN: u64 = 1 << 63;

/// Writes a register by its number, or a number.
fn write_operand<W: Write>(out: &mut W, src: &Operand) -> io::Result<()> {
    match src {
        Operand::Register(register) => {
            let number = register.index();
            write!(out, "  r{number} ")
        }
        Operand::Immediate(number) => write!(out, "  {number} "),
    }
}

/// Writes why a reference of this kind is not moved by an operand, which is one of these numbers: it is one to the frame, which one
/// number alone moves; or leads too far from the start of its region then; or the number has no bounds, or is too great.
fn write_unmoved<W: Write>(
    out: &mut W,
    kind: &RegKind,
    src: &Operand,
    by: &Scalar,
) -> io::Result<()> {
    let is_one = by.least == by.greatest;
    let is_in_frame = !is_one && matches!(kind, RegKind::Frame(_));
    let is_near = by.greatest <= NEAR_LIMIT || by.least > u64::MAX - NEAR_LIMIT;
    if is_near && !is_in_frame {
        return writeln!(
            out,
            "  the offset may then be farther than {NEAR_LIMIT} from where the region begins"
        );
    }
    write_operand(out, src)?;
    if is_in_frame {
        writeln!(
            out,
            "is not known as one number, and a pointer to the frame is moved by one alone"
        )
    } else if by.least < SIGN && by.greatest >= SIGN {
        writeln!(
            out,
            "may be negative or not, so it has no bounds: test its sign first, by `jslt`, or bound it by `and64` or `jgt`"
        )
    } else if is_one {
        writeln!(out, "is farther than {NEAR_LIMIT}, forward or back")
    } else {
        writeln!(
            out,
            "may be farther than {NEAR_LIMIT}, forward or back: bound it first, by `and64` or a jump"
        )
    }
}

/// What is said of an operand that is to be a number.
const COMPUTED: &str = "this computes with numbers";

/// Writes that a register is no number.
pub fn write_no_number<W: Write>(out: &mut W, register: Reg, why: &str) -> io::Result<()> {
    let number = register.index();
    writeln!(out, "  r{number} is no number, and {why}")
}

/// Writes that a pointer is added to a number, and how the number is added to the pointer.
fn write_turned<W: Write>(out: &mut W, pointer: Reg, number: Reg) -> io::Result<()> {
    let (pointer, number) = (pointer.index(), number.index());
    if pointer == 10 {
        return writeln!(
            out,
            "  r10 is a pointer that nothing moves: copy it by `mov64`, and add the number to the copy"
        );
    }
    writeln!(
        out,
        "  r{pointer} is a pointer: add the number to it, as `add64 r{pointer}, r{number}`. In C move the pointer first, as `q = data + off`, and then use `q[i]`"
    )
}

/// Writes why an operation with a reference is refused.
fn write_operation<W: Write>(
    out: &mut W,
    place: Place<'_>,
    op: AluOp,
    size: Size,
    dst: Reg,
    src: &Operand,
) -> io::Result<()> {
    let is_move = matches!(op, AluOp::Add | AluOp::Sub);
    if let Some(by) = reference_in(place, src) {
        let is_number = !is_reference(place, dst);
        let is_map = matches!(place.kind(by), Some(RegKind::Map(_)));
        if is_number && (is_map || !is_move) {
            return write_no_number(out, by, COMPUTED);
        }
        if is_number && op == AluOp::Add && size == Size::Word64 {
            return write_turned(out, by, dst);
        }
        if is_move {
            return write_no_number(out, by, "only a number moves a pointer");
        }
    }
    match (place.kind(dst), numbers_of(place, src)) {
        (Some(RegKind::Map(_)), _) => write_no_number(out, dst, "nothing moves a map"),
        (Some(kind), Some(by)) if is_move && size == Size::Word64 => {
            write_unmoved(out, kind, src, &by)
        }
        _ => writeln!(
            out,
            "  a pointer is moved by add64 and sub64 of a number, and by nothing else"
        ),
    }
}

/// Writes why a comparison of these is refused.
fn write_comparison<W: Write>(
    out: &mut W,
    place: Place<'_>,
    dst: Reg,
    src: &Operand,
) -> io::Result<()> {
    let compared = if is_reference(place, dst) {
        Some(dst)
    } else {
        reference_in(place, src)
    };
    match compared {
        Some(register) => write_no_number(
            out,
            register,
            "of pointers only what `call 1` gave is compared, and that with 0",
        ),
        None => Ok(()),
    }
}

/// Writes why an instruction that computes with a reference, copies it or compares it is refused.
pub fn write_arithmetic<W: Write>(out: &mut W, place: Place<'_>) -> io::Result<()> {
    match place.insn {
        Insn::Alu {
            op: AluOp::Move,
            ..
        } => writeln!(out, "  a pointer is copied whole, by `mov64`"),
        Insn::Alu { op, size, dst, src } => write_operation(out, place, *op, *size, *dst, src),
        Insn::Unary { op, dst } => write_no_number(out, op.source(*dst), COMPUTED),
        Insn::JumpIf { dst, src, .. } => write_comparison(out, place, *dst, src),
        _ => Ok(()),
    }
}
