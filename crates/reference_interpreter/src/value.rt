//! Values as operands.
ghost use Rattle.std.specs.Prelude.{◌≡◌, ℤ, ◌+ℤ◌, ◌-ℤ◌, pos};
ghost use Rattle.bpf_model.specs.declared.value.Value.{Value};
ghost use Rattle.bpf_model.specs.Value.{number as number_of};
ghost use Rattle.bpf_model.specs.Operand.{of_numbers as numbers_of, offset_by, sum_of, difference_of, computed as computed_of, is_zero as is_zero_of, null_test as null_test_of, decided as decided_of};
ghost use Rattle.reference_interpreter.specs.Plain.{IsComputed, IsSum, pointed_offset};

use alu::{alu, compare};
use bpf_model::{AluOp, Condition, Operand, Reference, Size, Value};

/// What an operation leaves: a value, nothing, or a reference whose offset would leave 64 bits.
#[derive(Clone, Copy, Debug, PartialEq, Eq)]
pub enum Computed {
    Known(Value),
    Stuck,
    OutOfRange,
}

/// The number, where the value is one.
pub fn number(v: Value) -> Option<u64>
    ensures { result ≡ number_of v }
{
    match v {
        Value::Number(n) => Some(n),
        _ => None,
    }
}

fn of_numbers(size: Size, op: AluOp, x: Value, y: Value) -> Computed
    ensures { IsComputed (numbers_of size op x y) result }
{
    match (number(x), number(y)) {
        (Some(a), Some(b)) => Computed::Known(Value::Number(alu(size, op, a, b))),
        _ => Computed::Stuck,
    }
}

fn offset(r: Reference) -> i64
    ensures { result ≡ pointed_offset r }
{
    match r {
        Reference::Ctx(o) | Reference::Frame(o) | Reference::Elem(_, o) => o,
        Reference::MapRef(_) => 0,
    }
}

/// The sum, if it fits.
fn add_offset(o: i64, by: i64) -> Option<i64>
    ensures { IsSum (o +ℤ by) result }
{
    o.checked_add(by)
}

/// The difference, if it fits.
fn sub_offset(o: i64, by: i64) -> Option<i64>
    ensures { IsSum (o +ℤ (pos 0 -ℤ by)) result }
{
    o.checked_sub(by)
}

/// The reference at another offset.
fn at_offset(r: Reference, offset: Option<i64>) -> Computed
    ensures { (d : ℤ) → IsSum (pointed_offset r +ℤ d) offset → IsComputed (offset_by r d) result }
{
    match r {
        Reference::MapRef(_) => Computed::Stuck,
        Reference::Ctx(_) => match offset {
            Some(o) => Computed::Known(Value::Pointer(Reference::Ctx(o))),
            None => Computed::OutOfRange,
        },
        Reference::Frame(_) => match offset {
            Some(o) => Computed::Known(Value::Pointer(Reference::Frame(o))),
            None => Computed::OutOfRange,
        },
        Reference::Elem(n, _) => match offset {
            Some(o) => Computed::Known(Value::Pointer(Reference::Elem(n, o))),
            None => Computed::OutOfRange,
        },
    }
}

fn sum(x: Value, y: Value) -> Computed
    ensures { IsComputed (sum_of x y) result }
{
    match (x, number(y)) {
        (Value::Pointer(r), Some(b)) => at_offset(r, add_offset(offset(r), b.cast_signed())),
        (Value::Pointer(_), None) => Computed::Stuck,
        _ => of_numbers(Size::Word64, AluOp::Add, x, y),
    }
}

fn difference(x: Value, y: Value) -> Computed
    ensures { IsComputed (difference_of x y) result }
{
    match (x, number(y)) {
        (Value::Pointer(r), Some(b)) => at_offset(r, sub_offset(offset(r), b.cast_signed())),
        (Value::Pointer(_), None) => Computed::Stuck,
        _ => of_numbers(Size::Word64, AluOp::Sub, x, y),
    }
}

fn held(v: Value) -> Computed
    ensures { IsComputed (computed_of Size.Word64 AluOp.Move v v) result }
{
    match v {
        Value::Nothing => Computed::Stuck,
        _ => Computed::Known(v),
    }
}

fn low_half(v: Value) -> Computed
    ensures { (x : Value) → IsComputed (computed_of Size.Word32 AluOp.Move x v) result }
{
    match number(v) {
        Some(n) => Computed::Known(Value::Number(alu(Size::Word32, AluOp::Move, 0, n))),
        None => Computed::Stuck,
    }
}

/// What an operation leaves.
pub(crate) fn compute(size: Size, op: AluOp, x: Value, y: Value) -> Computed
    ensures { IsComputed (computed_of size op x y) result }
{
    match (size, op) {
        (Size::Word64, AluOp::Move) => held(y),
        (Size::Word32, AluOp::Move) => low_half(y),
        (Size::Word64, AluOp::Add) => sum(x, y),
        (Size::Word64, AluOp::Sub) => difference(x, y),
        _ => of_numbers(size, op, x, y),
    }
}

fn is_zero(src: &Operand) -> bool
    ensures { result ≡ is_zero_of src.now }
{
    match src {
        Operand::Register(_) => false,
        Operand::Immediate(imm) => *imm == 0,
    }
}

fn null_test(condition: Condition, size: Size, zero: bool, r: Reference) -> Option<bool>
    ensures { result ≡ null_test_of condition size zero r }
{
    match (condition, size, zero, r) {
        (Condition::Equal, Size::Word64, true, Reference::Elem(_, _)) => Some(false),
        (Condition::NotEqual, Size::Word64, true, Reference::Elem(_, _)) => Some(true),
        _ => None,
    }
}

/// Whether a conditional jump is taken.
pub(crate) fn decided(
    condition: Condition,
    size: Size,
    src: &Operand,
    x: Value,
    y: Value,
) -> Option<bool>
    ensures { result ≡ decided_of condition size src.now x y }
{
    match (x, number(y)) {
        (Value::Number(a), Some(b)) => Some(compare(size, condition, a, b)),
        (Value::Pointer(r), _) => null_test(condition, size, is_zero(src), r),
        _ => None,
    }
}
