//! What operations of one operand can give, of a number in a set.
ghost use Rattle.std.specs.Prelude.{ℕ, ◌<◌, ◌^◌};
ghost use Rattle.bpf_model.specs.Arithmetic.{negated, reordered, moved_signed, loaded_signed, unary};
ghost use Rattle.bpf_model.specs.declared.insn.UnaryOp.TheVariants.{Negate, ByteSwap, MoveSigned};
ghost use Rattle.scalar_domain.specs.Scalar.{Holds};
ghost use Rattle.scalar_domain.specs.Floor.{KeepsUnaryFloor, result_bits};

use crate::scalar::Scalar;
use bpf_model::{ByteOrder, SignExtension, SignedWidth, Size, SwapWidth, UnaryOp};

impl Scalar {
    /// What an operation of one operand can give: of a constant the constant, and no more bits than
    /// the operation's result has.
    pub fn unary(op: UnaryOp, a: Scalar) -> Scalar
        ensures sound { (x : ℕ) → x < 2 ^ 64 → Holds a x → Holds result (unary op x) }
        ensures floor { KeepsUnaryFloor op a result }
    {
        match a.as_constant() {
            Some(n) => Scalar::constant(alu::unary(op, n)),
            None => match op {
                UnaryOp::Negate(size) => a.negate(size),
                UnaryOp::ByteSwap { order, width } => a.byte_swap(order, width),
                UnaryOp::MoveSigned { extension, .. } => a.move_signed(extension),
            },
        }
    }

    /// What a negation can give.
    fn negate(self, size: Size) -> Scalar
        ensures sound { (x : ℕ) → x < 2 ^ 64 → Holds self x → Holds result (negated size x) }
        ensures narrow { result.greatest < 2 ^ result_bits (Negate size) }
    {
        match size {
            Size::Word64 => Scalar::constant(0).subtract(self),
            Size::Word32 => Scalar::constant(0).subtract(self.low_bits(32)).low_bits(32),
        }
    }

    /// What a byte swap can give.
    fn byte_swap(self, order: ByteOrder, width: SwapWidth) -> Scalar
        ensures sound { (x : ℕ) → x < 2 ^ 64 → Holds self x
            → Holds result (reordered order width x) }
        ensures narrow { result.greatest < 2 ^ result_bits (ByteSwap order width) }
    {
        match (order, width) {
            (ByteOrder::ToLittle, SwapWidth::Two) => self.low_bits(16),
            (ByteOrder::ToLittle, SwapWidth::Four) => self.low_bits(32),
            (ByteOrder::ToLittle, SwapWidth::Eight) => self,
            (_, SwapWidth::Two) => Scalar::between(0, 0xffff),
            (_, SwapWidth::Four) => Scalar::between(0, 0xffff_ffff),
            (_, SwapWidth::Eight) => Scalar::unknown(),
        }
    }

    /// What a move with sign extension can give. Numbers whose sign bit is 0 stay as they are.
    fn move_signed(self, extension: SignExtension) -> Scalar
        ensures sound { (x : ℕ) → x < 2 ^ 64 → Holds self x
            → Holds result (moved_signed extension x) }
        ensures narrow { (src : ℕ) → result.greatest < 2 ^ result_bits (MoveSigned extension src) }
    {
        let limit = match extension {
            SignExtension::ByteTo32 | SignExtension::ByteTo64 => 0x80,
            SignExtension::ShortTo32 | SignExtension::ShortTo64 => 0x8000,
            SignExtension::WordTo64 => 0x8000_0000,
        };
        if self.greatest < limit {
            return self;
        }
        match extension {
            SignExtension::ByteTo32 | SignExtension::ShortTo32 => {
                Scalar::between(0, 0xffff_ffff)
            }
            _ => Scalar::unknown(),
        }
    }

    /// What a sign-extending load of this width can give, whatever it reads. A negative number has
    /// its high bits, so no bound is known.
    pub fn load_signed(_width: SignedWidth) -> Scalar
        ensures sound { (n : ℕ) → Holds result (loaded_signed _width n) }
    {
        Scalar::unknown()
    }
}
