//! Bytes that are held by value.
ghost use Rattle.std.specs.Prelude.{◌≡◌, ◌≤◌, length};

use arrayvec::ArrayVec;

/// An array of these bytes, which are no more than it has room for: a key, a value or a context.
pub fn array_of<const N: usize>(bytes: &[u8]) -> ArrayVec<u8, N>
    requires { length bytes.now ≤ N }
    ensures { result.items ≡ bytes.now }
{
    let mut array = ArrayVec::new();
    match array.try_extend_from_slice(bytes) {
        Ok(()) => array,
        Err(_) => unreachable!(),
    }
}
