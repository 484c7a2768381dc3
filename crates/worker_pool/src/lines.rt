//! Jobs' outcomes as lines of text.
ghost use Rattle.std.specs.Prelude.{◌≡◌, ◌+◌, ◌<◌, ◌^◌, [], length, OnOk};
ghost use Rattle.std.specs.Io.KnownBytes.{Appends};
ghost use Rattle.worker_pool.specs.Lines.{job_line, job_lines};

use crate::job::Outcome;
use std::io;
use std::io::Write;

/// Writes the line of one job.
fn write_job<W: Write>(out: &mut W, number: usize, outcome: &Outcome) -> io::Result<()>
    ensures { OnOk result (Appends (W.contents out.old) (W.contents out.new)
        (job_line number outcome.now)) }
{
    match outcome {
        Outcome::Exit(value) => writeln!(out, "job {number} exit {value}"),
        Outcome::Stopped { cause, .. } => {
            let code = cause.code();
            writeln!(out, "job {number} stopped {code}")
        }
    }
}

/// Writes the lines of jobs with these outcomes, numbered from `first` on, into an empty text. It fails where memory runs out.
pub fn make_lines(text: &mut Vec<u8>, first: usize, outcomes: &[Outcome]) -> io::Result<()>
    requires number { first + length outcomes.now < 2 ^ 64 }
    requires empty { text.old.items ≡ [] }
    ensures lines { OnOk result (text.new.items ≡ job_lines first outcomes.now) }
{
    for (index, outcome) in outcomes.iter().enumerate() {
        write_job(text, first + index, outcome)?;
    }
    Ok(())
}
