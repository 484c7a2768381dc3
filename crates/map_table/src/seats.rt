//! The seats of all readers of a table.
ghost use Rattle.std.specs.Prelude.{◌≡◌, length};

use crate::table::ReadSeat;
use std::marker::Model;

/// A seat for each reader. Contracts see what each did and saw, in order. `list.first_mut()` lends one,
/// `list.as_mut_slice()` all, as to threads, and a pool takes `&mut list`.
#[derive(Drop)]
pub struct Seats {
    /// The seats, that of the first reader first.
    pub list: Vec<ReadSeat>,
}

impl Model for Seats {
    ghost use Rattle.std.specs.Prelude.{List};
    ghost use Rattle.map_table.specs.Held.{Holder};

    ghost Value = { List Holder };

    ghost view = { λ s. s.list.items };
}

impl Seats {
    /// How many they are.
    pub fn count(&self) -> usize
        ensures { result ≡ length self.now }
    {
        self.list.len()
    }
}
