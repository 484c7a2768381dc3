//! A table whose readers and writer are measured.
ghost use Rattle.std.specs.Prelude.{◌≡◌, ◌<◌, ◌≤◌, All, IfOk};
ghost use Rattle.read_table.specs.declared.limits.TheConstants.{MAX_READERS};

use crate::task::Deed;
use anyhow::Result;
use std::alloc::Global;
use std::sync::atomic::AtomicBool;

/// A table, with a program that is run over it.
pub trait Measured: Send + Sync + Sized + Drop {
    /// What a reader makes its calls with.
    type Reader: Send + Drop;

    /// The one writer.
    type Writer: Send + Drop;

    // The table is as large as is asked for, and the program is for it.
    ghost IsSet: { Self → Type 0 };

    // The reader is at this table, and outside a section.
    ghost IsReader: { Self → Self.Reader → Type 0 };

    // The writer is at this table.
    ghost IsWriter: { Self → Self.Writer → Type 0 };

    /// A table for so many readers.
    fn make(alloc: Global, readers: usize) -> Result<(Self, Vec<Self::Reader>, Self::Writer)>
        requires { (0 < readers) × (readers ≤ MAX_READERS) }
        ensures set { IfOk result (λ t. IsSet t.0) }
        ensures readers { IfOk result (λ t. All (IsReader t.0) t.1.items) }
        ensures writer { IfOk result (λ t. IsWriter t.0 t.2) };

    /// How many keys each reader looks up in turn, none of them another's.
    fn keys_of_reader() -> u64;

    /// Makes so many calls, on keys from the first one on. The sum of what they found.
    fn work(&self, reader: &mut Self::Reader, first: u64, deed: Deed, calls: u32) -> u64
        requires set { IsSet self.now }
        requires reader { IsReader self.now reader.old }
        ensures { IsReader self.now reader.new };

    /// Changes the table. Whether there is more to change: there is none where the readers are done and the writer waits for
    /// one of them.
    fn write(&self, writer: &mut Self::Writer, done: &AtomicBool) -> bool
        requires set { IsSet self.now }
        requires writer { IsWriter self.now writer.old }
        ensures { IsWriter self.now writer.new };
}
