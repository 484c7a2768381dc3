//! How far a pool is, told on a terminal.

use std::io;
use std::io::{Stderr, Stdout, Write};

/// Standard output, for the lines of a pool's jobs. A flush behind further lines tells on standard error, on a line of its
/// own, how many of how many jobs are done.
#[derive(Drop)]
pub struct Progress {
    out: Stdout,
    err: Stderr,
    lines: u64,
    told: u64,
    jobs: u64,
}

impl Progress {
    /// Before the first line of so many jobs.
    pub fn new(out: Stdout, err: Stderr, jobs: u64) -> Progress {
        Progress {
            out,
            err,
            lines: 0,
            told: 0,
            jobs,
        }
    }
}

impl Write for Progress {
    fn write(&mut self, bytes: &[u8]) -> io::Result<usize> {
        let taken = self.out.write(bytes)?;
        for byte in &bytes[..taken] {
            if *byte == b'\n' {
                self.lines = self.lines.saturating_add(1);
            }
        }
        Ok(taken)
    }

    fn flush(&mut self) -> io::Result<()> {
        self.out.flush()?;
        let jobs = self.jobs;
        let done = self.lines.min(jobs);
        if done > self.told {
            self.told = done;
            let unit = if jobs == 1 { "job" } else { "jobs" };
            let _ = writeln!(self.err, "{done} of {jobs} {unit}");
        }
        Ok(())
    }
}
