//! The bytes that words name.
ghost use Rattle.std.specs.Prelude.{◌≡◌, ℕ, ◌+◌, ◌^◌, ◌<◌, length, pos, ◌+ℤ◌, []};
ghost use Rattle.bpf_model.specs.declared.limits.TheConstants.{FRAME_BYTES};
ghost use Rattle.bpf_model.specs.Access.{byte_count};
ghost use Rattle.bpf_model.specs.Word.{frame_base};
ghost use Rattle.world_laws.specs.Locating.{number_from};
ghost use Rattle.bpf_model.specs.Access.{with_bytes};
ghost use Rattle.world_laws.specs.Reaching.{IsInside};
ghost use Rattle.world_laws.specs.Moving.{operand_word};
ghost use Rattle.machine.specs.Workspaces.{own_view, with_frame};
ghost use Rattle.machine.specs.Moves.{offset_from};

use crate::regions::FRAME_BASE;
use crate::workspace::Workspace;
use bpf_model::{Operand, Width, number_of, write_number};

/// A word, moved by an offset.
#[inline(always)]
fn moved_word(word: u64, offset: i16) -> u64
    ensures { (a : ℕ) → a < 2 ^ 64 → pos word +ℤ offset ≡ pos a → result ≡ a }
{
    word.wrapping_add(i64::from(offset).cast_unsigned())
}

/// A region has fewer bytes.
const MOST_BYTES: u64 = 1 << 32;

/// An offset from an address, counted from the first byte of its region. (It is below `MOST_BYTES`, of which bases
/// are multiples. So the low half of the moved word alone is wanted, and the code that comes out subtracts nothing.)
#[inline(always)]
fn offset_in(base: u64, address: u64, offset: i16) -> usize
    ensures { (at : ℕ) → base + at < 2 ^ 64 → at < 2 ^ 32 →
        offset_from base address offset ≡ pos at → result ≡ at }
{
    (moved_word(address, offset).wrapping_sub(base) % MOST_BYTES) as usize
}

/// The number at an offset from an address of the region that has these bytes.
#[inline(always)]
pub(crate) fn number_in(bytes: &[u8], base: u64, address: u64, offset: i16, width: Width) -> u64
    requires inside { IsInside (length bytes.now) (byte_count width)
        (offset_from base address offset) }
    requires small { base + length bytes.now < 2 ^ 64 }
    requires short { length bytes.now < 2 ^ 32 }
    ensures { result ≡ number_from bytes.now (byte_count width) (offset_from base address offset) }
{
    number_of(bytes, offset_in(base, address, offset), width)
}

impl Workspace {
    /// Writes the low bytes of an operand to the frame. The operand is read last: read first, what follows is the same for
    /// a register and an immediate, and the compiler puts it behind one more jump.
    #[inline(always)]
    pub(crate) fn write(&mut self, width: Width, address: u64, offset: i16, src: &Operand)
        requires { IsInside FRAME_BYTES (byte_count width)
            (offset_from frame_base address offset) }
        ensures { (at : ℕ) → offset_from frame_base address offset ≡ pos at →
            self.new ≡ with_frame (with_bytes at (byte_count width)
            (operand_word (own_view [] self.old) src.now) self.old.frame) self.old }
    {
        let at = offset_in(FRAME_BASE, address, offset);
        let number = self.operand(src);
        write_number(&mut self.frame, at, width, number);
    }
}
