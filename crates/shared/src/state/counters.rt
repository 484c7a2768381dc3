//! Totals that are read without the lock. The fields are private to this module, so counters read the cell that
//! they were made with.
ghost use Rattle.std.specs.Prelude.{◌≡◌, ◌≤◌, IfOk};
ghost use Rattle.std.specs.Arc.{arc_value};
ghost use Rattle.crossbeam_utils.specs.Seq.{cell_view};
ghost use Rattle.shared.specs.Meter.{meter_writer};
ghost use Rattle.shared_books.specs.Tally.{shown_totals};

use crate::meter::{ForReaders, Meter, MeterPass, Reads};
use shared_books::{Origin, Totals};
use std::alloc::{AllocError, Global};
use std::marker::Model;
use std::sync::{Arc, Wait};

/// Reads the totals of a shared world without its lock. Contracts see which cell it reads, and what it read last.
#[derive(Drop)]
pub struct Counters {
    origin: Origin,
    cell: Arc<Meter>,
    pass: MeterPass,
}

impl Model for Counters {
    ghost use Rattle.shared.specs.Meter.{CountersView};
    ghost use Rattle.shared.specs.Codes.{counters_code};

    ghost Value = { CountersView };

    ghost coded = { counters_code };

    ghost use Rattle.std.specs.Prelude.{◌≡◌, false};
    ghost use Rattle.std.specs.Arc.{arc_value};
    ghost use Rattle.crossbeam_utils.specs.Seq.{cell_view};
    ghost use Rattle.shared_books.specs.Tally.{shown_totals};

    ghost view = { λ c. record {
      meter = c.pass.table_id;
      shown = shown_totals c.origin (cell_view c.pass).steps (cell_view c.pass).unlinked
          (cell_view c.pass).reclaimed;
    } };

    ghost invariant = { λ c. (c.pass.table_id ≡ (arc_value c.cell).table.shared.table_id)
        × ((cell_view c.pass).writes ≡ false) };
}

/// A cell in which nothing is counted yet, with the pass that writes it, and counters that read it.
pub(crate) fn begin(
    alloc: Global,
    origin: Origin,
) -> Result<(Arc<Meter>, MeterPass, Counters), AllocError>
    ensures cell { IfOk result (λ t.
        t.1.table_id ≡ (arc_value t.0).table.shared.table_id) }
    ensures view { IfOk result (λ t. cell_view t.1 ≡ meter_writer 0 0 0) }
    ensures counters { IfOk result (λ t. t.2
        ≡ record { meter = t.1.table_id; shown = shown_totals origin 0 0 0 }) }
{
    let (cell, mut pass) = Meter::ruled(alloc, [0, 0, 0])?;
    let reader = cell.split_pass::<ForReaders>(&mut pass);
    let cell = Arc::new(alloc, cell)?;
    let counters = Counters {
        origin,
        cell: Arc::try_clone(&cell)?,
        pass: reader,
    };
    Ok((cell, pass, counters))
}

impl Counters {
    /// The totals as they were written: the steps since the world was shared, and of the elements of the
    /// world, from its making on, how many were unlinked and how many of these reclaimed. It waits for no
    /// worker, only for a writing of these numbers that has begun.
    pub fn read<R: Wait>(&mut self, rt: &R) -> Totals
        ensures view { self.new.shown ≡ result }
        ensures cell { self.new.meter ≡ self.old.meter }
        ensures steps { self.old.shown.steps ≤ result.steps }
        ensures unlinked { self.old.shown.unlinked ≤ result.unlinked }
        ensures reclaimed { self.old.shown.reclaimed ≤ result.reclaimed }
        ensures order { result.reclaimed ≤ result.unlinked }
    {
        let words = self.cell.load_as::<Reads, R>(rt, &mut self.pass);
        self.origin.shown(words[0], words[1], words[2])
    }
}
