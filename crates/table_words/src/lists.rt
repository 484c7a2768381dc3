//! Lists of words and numbers.
ghost use Rattle.std.specs.Prelude.{◌≡◌, ℕ, ◌+◌, ◌≤◌, ◌++◌, length, slice_index, vec_len, vec_capacity, take, drop, IfOk};

use std::alloc::{AllocError, Global};

/// So many zeros.
pub fn zeros(alloc: Global, count: usize) -> Result<Vec<u64>, AllocError>
    ensures len { IfOk result (λ v. vec_len v ≡ count) }
    ensures zeros { IfOk result (λ v. (j : ℕ) → slice_index v.items j ≡ 0) }
{
    let mut v = Vec::with_capacity(alloc, count)?;
    for _ in 0..count {
        v.push_reserved(0);
    }
    Ok(v)
}

/// Moves the first elements of one list, so many, behind those of another.
pub fn move_first(from: &mut Vec<usize>, to: &mut Vec<usize>, count: usize)
    requires count { count ≤ length from.old.items }
    requires room { length to.old.items + length from.old.items ≤ vec_capacity to.old }
    ensures to { to.new.items ≡ to.old.items ++ take count from.old.items }
    ensures from { from.new.items ≡ drop count from.old.items }
    ensures to_capacity { vec_capacity to.new ≡ vec_capacity to.old }
    ensures from_capacity { vec_capacity from.new ≡ vec_capacity from.old }
{
    for at in 0..count {
        to.push_reserved(from[at]);
    }
    from.drain(..count);
}
