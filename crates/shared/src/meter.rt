//! The cell of the counters: any thread reads it, and one pass writes it.

use atomic_table::Split;
use crossbeam_utils::atomic::seq_cell::{Pass, RuledSeqCell};
use crossbeam_utils::rule::{Outcome, Protocol};

/// What a pass knows of the cell. No value of it is made.
pub struct MeterView {
    pub writes: bool,
    pub steps: u64,
    pub unlinked: u64,
    pub reclaimed: u64,
}

/// One pass writes; no word is ever less than it was.
pub struct Metering;

impl Protocol<[u64; 3], MeterView> for Metering {
    ghost use Rattle.shared.specs.Meter.{IsMetered, meter_writer};

    ghost holds = { IsMetered };

    ghost first = { meter_writer 0 0 0 };
}

/// The pass that writes puts new words in place of the old.
pub struct Writes;

impl Outcome<[u64; 3], MeterView> for Writes {
    ghost use Rattle.shared.specs.Meter.{HasWrittenMeter};

    ghost then = { HasWrittenMeter };
}

/// Another pass reads the words.
pub struct Reads;

impl Outcome<[u64; 3], MeterView> for Reads {
    ghost use Rattle.shared.specs.Meter.{HasReadMeter};

    ghost then = { HasReadMeter };
}

/// A new pass that reads.
pub struct ForReaders;

impl Split<MeterView> for ForReaders {
    ghost use Rattle.shared.specs.Meter.{meter_reader};

    ghost left = { λ v. v };

    ghost right = { meter_reader };
}

/// The cell of the counters: three words, of which none ever gets less.
pub type Meter = RuledSeqCell<[u64; 3], MeterView, Metering, 3>;

/// What one holder knows of the cell's words.
pub type MeterPass = Pass<[u64; 3], MeterView>;
