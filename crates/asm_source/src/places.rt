//! The lines in which instructions stand.
ghost use Rattle.std.specs.Prelude.{◌≡◌, ◌-◌, ◌≤◌, ℕ, true, IsTrue, IsFalse, IfSome, IfNone};
ghost use Rattle.asm_source.specs.Labels.{BeginsAt, has_instruction as is_instruction_in};

use crate::bindings::{instruction_of, slots_after};
use crate::lines::Lines;

/// Whether an instruction stands in the line.
fn has_instruction(line: &[u8]) -> bool
    ensures { result ≡ is_instruction_in line.now }
{
    !instruction_of(line).is_done()
}

/// Whether the line behind so many slots has an instruction that begins at this slot.
fn begins_here(line: &[u8], before: u128, slot: usize) -> bool
    ensures here { IsTrue result → (before ≡ slot) × (is_instruction_in line.now ≡ true) }
    ensures elsewhere { IsFalse result → before ≡ slot → is_instruction_in line.now ≡ true → ⊥ }
{
    before == slot as u128 && has_instruction(line)
}

/// The line, counted from 1, whose instruction begins at this slot of the source's program, counted from 0; none where no
/// instruction does.
pub fn line_at(source: &[u8], slot: usize) -> Option<usize>
    ensures line { IfSome result (λ n. (1 ≤ n) × BeginsAt source.now (n - 1) slot) }
    ensures no_line { IfNone result ((n : ℕ) → BeginsAt source.now n slot → ⊥) }
{
    let mut lines = Lines::new(source);
    let mut number = 0;
    let mut before = 0;
    while let Some(line) = lines.next() {
        if begins_here(line, before, slot) {
            return Some(number + 1);
        }
        number += 1;
        before = slots_after(before, line);
    }
    None
}
