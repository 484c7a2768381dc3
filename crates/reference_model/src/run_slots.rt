//! The run slots: which are free, and which hold a run inside a section.
ghost use Rattle.std.specs.Prelude.{◌≡◌, ◌∷◌, [], ◌++◌, IfOk, OnOk, List};
ghost use Rattle.std.specs.Option.{option_map};
ghost use Rattle.bpf_model.specs.Machine.{open_sections as open_sections_of, lowest_free as lowest_free_of};
ghost use Rattle.bpf_model.specs.Schedule.{is_open, open_flags as open_flags_of};
ghost use Rattle.reference_store.specs.State.{sections_of};
ghost use Rattle.reference_model.specs.RunState.{run_of, runs_of};
ghost use Rattle.reference_model.specs.declared.run.Loaded.{Loaded as PlainLoaded};

use crate::run::Run;
use reference_store::Section;
use std::alloc::{AllocError, Global};

/// Whether the run slot has a run that is inside a section.
pub fn is_inside(slot: &Option<Run>) -> bool
    ensures { (programs : List PlainLoaded) → result
        ≡ is_open (option_map (run_of programs) slot.now) }
{
    match slot {
        Some(run) => 0 < run.depth,
        None => false,
    }
}

/// For each run slot whether its run is inside a section. Fails where memory runs out.
pub fn open_flags(alloc: Global, runs: &[Option<Run>]) -> Result<Vec<bool>, AllocError>
    ensures { (programs : List PlainLoaded) →
        IfOk result (λ flags. flags.items ≡ open_flags_of (runs_of programs runs.now)) }
{
    let mut flags = Vec::new(alloc);
    for r in 0..runs.len() {
        flags.push(is_inside(&runs[r]))?;
    }
    Ok(flags)
}

/// Adds the section of the run in a run slot, where the run is inside one.
fn push_section(sections: &mut Vec<Section>, slot: &Option<Run>) -> Result<(), AllocError>
    ensures { (programs : List PlainLoaded) →
        OnOk result
        (sections_of sections.new.items ≡ sections_of sections.old.items
        ++ open_sections_of (option_map (run_of programs) slot.now ∷ [])) }
{
    if let Some(run) = slot {
        if 0 < run.depth {
            sections.push(Section {
                run: run.name,
                number: run.sections,
            })?;
        }
    }
    Ok(())
}

/// The sections that are open. Fails where memory runs out.
pub fn open_sections(alloc: Global, runs: &[Option<Run>]) -> Result<Vec<Section>, AllocError>
    ensures { (programs : List PlainLoaded) →
        IfOk result
        (λ sections. sections_of sections.items ≡ open_sections_of (runs_of programs runs.now)) }
{
    let mut sections = Vec::new(alloc);
    for r in 0..runs.len() {
        push_section(&mut sections, &runs[r])?;
    }
    Ok(sections)
}

/// The lowest free run slot; `None` where each has a run.
pub fn lowest_free(runs: &[Option<Run>]) -> Option<usize>
    ensures { (programs : List PlainLoaded) → result ≡ lowest_free_of (runs_of programs runs.now) }
{
    for r in 0..runs.len() {
        if runs[r].is_none() {
            return Some(r);
        }
    }
    None
}
