//! Bytes from a reader.
ghost use Rattle.std.specs.Prelude.{◌≡◌, ◌<◌, length, take, IfOk, OnErr};
ghost use Rattle.std.specs.Io.{ReadsAtMost};
ghost use Rattle.std.specs.Io.KnownBytes.{Consumes, IsAtEnd, Keeps};

use std::io;
use std::io::{ErrorKind, Read};

/// One read; an interrupted one is tried again.
pub fn read_some<R: Read>(reader: &mut R, chunk: &mut [u8]) -> io::Result<usize>
    ensures bound { ReadsAtMost result chunk.new }
    ensures ok { IfOk result (λ n.
        Consumes (R.remaining reader.old) (R.remaining reader.new) (take n chunk.new)) }
    ensures end { IfOk result (λ n. n ≡ 0 → 0 < length chunk.old
        → IsAtEnd (R.remaining reader.new)) }
    ensures err { OnErr result (Keeps (R.remaining reader.old) (R.remaining reader.new)) }
{
    for _ in 0..u64::MAX {
        match reader.read(chunk) {
            Ok(count) => return Ok(count),
            Err(error) if error.kind() == ErrorKind::Interrupted => {}
            Err(error) => return Err(error),
        }
    }
    Err(io::Error::from(ErrorKind::Interrupted))
}
