//! The whole machine: runs, events, and the runtime's own choices.
ghost use Rattle.std.specs.Prelude.{ℕ, ◌≡◌, None, Some, IfOk, IfErr, OnOk, List, map, replicate, false};
ghost use Rattle.bpf_model.specs.declared.limits.TheConstants.{MAX_RUNS};
ghost use Rattle.bpf_model.specs.declared.event.Event.TheVariants as events;
ghost use Rattle.bpf_model.specs.Element.{Element as ModelElement};
ghost use Rattle.bpf_model.specs.Event.{step_refusal as step_refusal_of, drop_refusal as drop_refusal_of, key_refusal as key_refusal_of, update_refusal as update_refusal_of};
ghost use Rattle.bpf_model.specs.Shapes.{AreShapes};
ghost use Rattle.bpf_model.specs.MapState.{shape_of};
ghost use Rattle.bpf_model.specs.Machine.{run_at, open_sections as open_sections_of, lowest_free as lowest_free_of};
ghost use Rattle.bpf_model.specs.Schedule.{start_schedule, DoesScheduled, TakesOldest, advanced, is_any as is_any_of};
ghost use Rattle.bpf_model.specs.Schedule.{no_queues};
ghost use Rattle.reference_store.specs.State.{store_of, sections_of, queues_of};
ghost use Rattle.reference_store.specs.declared.fault.ModelFault.TheVariants.{Memory};
ghost use Rattle.reference_store.specs.Retiring.{linked_map};
ghost use Rattle.reference_model.specs.RunState.{loaded_of, runs_of};
ghost use Rattle.reference_model.specs.State.{machine_of, schedule_of};
ghost use Rattle.reference_model.specs.Following.{settled, is_advance_or_reap as is_advance_or_reap_of, FollowsLists, DoesAs};

use crate::grace::{is_any, still_open};
use crate::{Loaded, Run, is_inside, lowest_free, open_flags, open_sections, step_slot};
use bpf_model::{
    Answer, CtxBytes, Event, EventRefusal, KeyBytes, MAX_RUNS, MapId, MapShape, ProgId, RunId,
    Stat, ValueBytes,
};
use reference_store::{
    ModelFault, Queues, Section, Store, first_ready, one_more, retire_all, take_first, turn_all,
};
use std::alloc::{AllocError, Global};

/// The machine, with each map's lists of unlinked elements, and for each run slot whether its section is
/// awaited.
#[derive(Drop)]
pub struct Machine {
    alloc: Global,
    store: Store,
    queues: Vec<Queues>,
    runs: Vec<Option<Run>>,
    awaited: Vec<bool>,
    started: u64,
    programs: Vec<Loaded>,
}

/// Empty lists for so many maps.
fn new_queues(alloc: Global, count: usize) -> Result<Vec<Queues>, AllocError>
    ensures queues { IfOk result (λ qs. map queues_of qs.items ≡ replicate count no_queues) }
{
    let mut queues = Vec::new(alloc);
    for _ in 0..count {
        queues.push(Queues {
            next: Vec::new(alloc),
            waiting: Vec::new(alloc),
            ready: Vec::new(alloc),
        })?;
    }
    Ok(queues)
}

/// The run slots, none of them occupied.
fn no_runs(alloc: Global) -> Result<Vec<Option<Run>>, AllocError>
    ensures runs { IfOk result (λ runs. runs.items ≡ replicate MAX_RUNS None) }
{
    let mut runs = Vec::new(alloc);
    for _ in 0..MAX_RUNS {
        runs.push(None)?;
    }
    Ok(runs)
}

/// For each run slot, that it is not awaited.
fn none_awaited(alloc: Global) -> Result<Vec<bool>, AllocError>
    ensures awaited { IfOk result (λ flags. flags.items ≡ replicate MAX_RUNS false) }
{
    let mut awaited = Vec::new(alloc);
    for _ in 0..MAX_RUNS {
        awaited.push(false)?;
    }
    Ok(awaited)
}

impl Machine {
    /// New maps of these shapes, these programs, and no run: arrays have their elements, hash maps nothing.
    /// Errors: `Memory`; `OutOfRange` where no map may have one of the shapes.
    pub fn new(
        alloc: Global,
        shapes: &[MapShape],
        programs: Vec<Loaded>,
    ) -> Result<Machine, ModelFault>
        ensures start { IfOk result
            (λ m. schedule_of m ≡ start_schedule shapes.now (map loaded_of programs.items)) }
        ensures fault { AreShapes shapes.now → IfErr result (λ fault. fault ≡ Memory) }
    {
        Ok(Machine {
            alloc,
            store: Store::new(alloc, shapes)?,
            queues: new_queues(alloc, shapes.len())?,
            runs: no_runs(alloc)?,
            awaited: none_awaited(alloc)?,
            started: 0,
            programs,
        })
    }

    /// The counts of the present state.
    pub fn stat(&self) -> Stat {
        let elements = self.store.elements.as_slice();
        let runs = self.runs.as_slice();
        let linked = elements.iter().filter(|e| e.life.is_linked()).count();
        let given = elements.iter().filter(|e| e.life.is_reclaimed()).count();
        let mut worn: u64 = 0;
        for state in self.store.maps.as_slice() {
            worn = worn.saturating_add(state.worn);
        }
        Stat {
            linked,
            unlinked: elements.len().saturating_sub(linked).saturating_sub(given),
            given,
            worn: worn as usize,
            runs: runs.iter().filter(|slot| slot.is_some()).count(),
            open: runs.iter().filter(|slot| is_inside(slot)).count(),
        }
    }

    /// What the machine answers to an event: a step of the definitions' machine, with the runtime's own
    /// choices. Where it says `Stuck` the definition has no step; after any fault the machine is of no use.
    pub fn apply(&mut self, event: Event) -> Result<Answer, ModelFault>
        ensures machine { DoesAs (machine_of self.old) event result (machine_of self.new) }
        ensures schedule { IfOk result
            (λ answer. DoesScheduled (schedule_of self.old) event answer (schedule_of self.new)) }
    {
        self.answer(event)
    }

    /// The answer, and what it says of the lists and of the map slot that a new element takes.
    fn answer(&mut self, event: Event) -> Result<Answer, ModelFault>
        ensures machine { DoesAs (machine_of self.old) event result (machine_of self.new) }
        ensures lists { IfOk result
            (λ answer. FollowsLists (schedule_of self.old) event answer (schedule_of self.new)) }
        ensures oldest { OnOk result
            (TakesOldest (store_of self.old.store) (store_of self.new.store)) }
    {
        if is_advance_or_reap(&event) {
            self.advance_or_reap(event)
        } else {
            let before = self.store.linked_maps(self.alloc)?;
            let answer = self.perform(event)?;
            self.settle(before.as_slice())?;
            Ok(answer)
        }
    }

    /// What the machine answers to an advance or a reap.
    fn advance_or_reap(&mut self, event: Event) -> Result<Answer, ModelFault>
        ensures machine { DoesAs (machine_of self.old) event result (machine_of self.new) }
        ensures lists { IfOk result
            (λ answer. FollowsLists (schedule_of self.old) event answer (schedule_of self.new)) }
        ensures oldest { OnOk result
            (TakesOldest (store_of self.old.store) (store_of self.new.store)) }
    {
        match event {
            Event::Advance => {
                self.advance()?;
                Ok(Answer::Done)
            }
            Event::Reap => self.reap(),
            _ => Err(ModelFault::OutOfRange),
        }
    }

    /// What the machine answers to an event other than an advance or a reap.
    fn perform(&mut self, event: Event) -> Result<Answer, ModelFault>
        ensures machine { DoesAs (machine_of self.old) event result (machine_of self.new) }
        ensures queues { self.new.queues ≡ self.old.queues }
        ensures awaited { self.new.awaited ≡ self.old.awaited }
        ensures oldest { OnOk result
            (TakesOldest (store_of self.old.store) (store_of self.new.store)) }
    {
        match event {
            Event::Start { prog, ctx } => self.start(prog, ctx),
            Event::Step { run } => self.step(run),
            Event::Update {
                map,
                key,
                value,
                flags,
            } => self.update(map, key, value, flags),
            Event::Delete { map, key } => self.delete(map, key),
            Event::Read { map, key } => self.read(map, key),
            Event::Drop { run } => self.remove(run),
            _ => Err(ModelFault::OutOfRange),
        }
    }

    /// The elements that an event unlinked go to the end of their maps' lists next, and sections that it ended
    /// are awaited no more.
    fn settle(&mut self, before: &[Option<usize>]) -> Result<(), AllocError>
        ensures store { self.new.store ≡ self.old.store }
        ensures lists { (olds : List ModelElement) → before.now
            ≡ map linked_map olds →
            OnOk result (schedule_of self.new ≡ settled (schedule_of self.old) olds) }
    {
        let opened = open_flags(self.alloc, self.runs.as_slice())?;
        let awaited = still_open(self.alloc, self.awaited.as_slice(), opened.as_slice())?;
        retire_all(
            self.queues.as_mut_slice(),
            before,
            self.store.elements.as_slice(),
        )?;
        self.awaited = awaited;
        Ok(())
    }

    /// The sections that are open.
    fn open_sections(&self) -> Result<Vec<Section>, AllocError>
        ensures { IfOk result
            (λ sections. sections_of sections.items
            ≡ open_sections_of (runs_of self.now.programs.items self.now.runs.items)) }
    {
        open_sections(self.alloc, self.runs.as_slice())
    }

    /// The lowest free run slot.
    fn lowest_free(&self) -> Option<usize>
        ensures { result ≡ lowest_free_of (runs_of self.now.programs.items self.now.runs.items) }
    {
        lowest_free(self.runs.as_slice())
    }

    fn start(&mut self, prog: ProgId, ctx: CtxBytes) -> Result<Answer, ModelFault>
        ensures machine { DoesAs (machine_of self.old) (events.Start prog ctx) result
            (machine_of self.new) }
        ensures queues { self.new.queues ≡ self.old.queues }
        ensures awaited { self.new.awaited ≡ self.old.awaited }
        ensures oldest { OnOk result
            (TakesOldest (store_of self.old.store) (store_of self.new.store)) }
    {
        let p = prog.index();
        if p >= self.programs.len() {
            return Ok(Answer::Refused(EventRefusal::NoProgram));
        }
        if ctx.len() != self.programs[p].context_len {
            return Ok(Answer::Refused(EventRefusal::BadContext));
        }
        let Some(r) = self.lowest_free() else {
            return Ok(Answer::Refused(EventRefusal::RunsFull));
        };
        let next = one_more(self.started)?;
        self.runs[r] = Some(Run::new(self.started, p, ctx));
        self.started = next;
        Ok(Answer::Started(RunId::new(r)))
    }

    /// Why a step of this run is refused.
    fn step_refusal(&self, r: usize) -> Option<EventRefusal>
        ensures { result ≡ step_refusal_of
            (run_at (runs_of self.now.programs.items self.now.runs.items) r) }
    {
        match self.runs.get(r) {
            Some(Some(run)) => match run.exit {
                Some(_) => Some(EventRefusal::Ended),
                None => None,
            },
            _ => Some(EventRefusal::NoRun),
        }
    }

    fn step(&mut self, run: RunId) -> Result<Answer, ModelFault>
        ensures machine { DoesAs (machine_of self.old) (events.Step run) result
            (machine_of self.new) }
        ensures queues { self.new.queues ≡ self.old.queues }
        ensures awaited { self.new.awaited ≡ self.old.awaited }
        ensures oldest { OnOk result
            (TakesOldest (store_of self.old.store) (store_of self.new.store)) }
    {
        let r = run.index();
        if let Some(refusal) = self.step_refusal(r) {
            return Ok(Answer::Refused(refusal));
        }
        let opened = self.open_sections()?;
        if r >= self.runs.len() {
            return Err(ModelFault::OutOfRange);
        }
        step_slot(
            self.alloc,
            &mut self.runs[r],
            self.programs.as_slice(),
            &mut self.store,
            opened.as_slice(),
        )
    }

    /// Why an event of the control plane is refused.
    fn key_refusal(
        &self,
        map: usize,
        key_len: usize,
        value_len: Option<usize>,
    ) -> Option<EventRefusal>
        ensures key { value_len ≡ None → result
            ≡ key_refusal_of (shape_of (store_of self.now.store) map) key_len }
        ensures both { (len : ℕ) → value_len ≡ Some len → result
            ≡ update_refusal_of (shape_of (store_of self.now.store) map) key_len len }
    {
        let Some(shape) = self.store.shape(map) else {
            return Some(EventRefusal::NoMap);
        };
        let fits = match value_len {
            Some(len) => len == shape.value_len,
            None => true,
        };
        if key_len == shape.key_len && fits {
            None
        } else {
            Some(EventRefusal::BadLength)
        }
    }

    fn update(
        &mut self,
        map: MapId,
        key: KeyBytes,
        value: ValueBytes,
        flags: u64,
    ) -> Result<Answer, ModelFault>
        ensures machine { DoesAs (machine_of self.old) (events.Update map key value flags) result
            (machine_of self.new) }
        ensures queues { self.new.queues ≡ self.old.queues }
        ensures awaited { self.new.awaited ≡ self.old.awaited }
        ensures oldest { OnOk result
            (TakesOldest (store_of self.old.store) (store_of self.new.store)) }
    {
        match self.key_refusal(map.index(), key.len(), Some(value.len())) {
            Some(refusal) => Ok(Answer::Refused(refusal)),
            None => {
                let opened = self.open_sections()?;
                let ret = self.store.update(
                    self.alloc,
                    opened.as_slice(),
                    map.index(),
                    key,
                    value,
                    flags,
                )?;
                Ok(Answer::Ret(ret))
            }
        }
    }

    fn delete(&mut self, map: MapId, key: KeyBytes) -> Result<Answer, ModelFault>
        ensures machine { DoesAs (machine_of self.old) (events.Delete map key) result
            (machine_of self.new) }
        ensures queues { self.new.queues ≡ self.old.queues }
        ensures awaited { self.new.awaited ≡ self.old.awaited }
        ensures oldest { OnOk result
            (TakesOldest (store_of self.old.store) (store_of self.new.store)) }
    {
        match self.key_refusal(map.index(), key.len(), None) {
            Some(refusal) => Ok(Answer::Refused(refusal)),
            None => {
                let opened = self.open_sections()?;
                let ret = self
                    .store
                    .delete(self.alloc, opened.as_slice(), map.index(), key.as_slice())?;
                Ok(Answer::Ret(ret))
            }
        }
    }

    fn read(&mut self, map: MapId, key: KeyBytes) -> Result<Answer, ModelFault>
        ensures machine { DoesAs (machine_of self.old) (events.Read map key) result
            (machine_of self.new) }
        ensures queues { self.new.queues ≡ self.old.queues }
        ensures awaited { self.new.awaited ≡ self.old.awaited }
        ensures oldest { OnOk result
            (TakesOldest (store_of self.old.store) (store_of self.new.store)) }
    {
        if let Some(refusal) = self.key_refusal(map.index(), key.len(), None) {
            return Ok(Answer::Refused(refusal));
        }
        let found = self.store.read(map.index(), key.as_slice())?;
        Ok(Answer::Found(found))
    }

    /// Where no run is awaited a grace period ends and the next begins.
    fn advance(&mut self) -> Result<(), AllocError>
        ensures machine { machine_of self.new ≡ machine_of self.old }
        ensures lists { OnOk result
            (schedule_of self.new
            ≡ advanced (schedule_of self.old) (machine_of self.old)
            (is_any_of self.old.awaited.items)) }
    {
        if is_any(self.awaited.as_slice()) {
            return Ok(());
        }
        let awaited = open_flags(self.alloc, self.runs.as_slice())?;
        turn_all(self.queues.as_mut_slice())?;
        self.awaited = awaited;
        Ok(())
    }

    fn reap(&mut self) -> Result<Answer, ModelFault>
        ensures machine { DoesAs (machine_of self.old) events.Reap result (machine_of self.new) }
        ensures lists { IfOk result
            (λ answer.
            FollowsLists (schedule_of self.old) events.Reap answer (schedule_of self.new)) }
        ensures oldest { OnOk result
            (TakesOldest (store_of self.old.store) (store_of self.new.store)) }
    {
        let Some(n) = first_ready(self.queues.as_slice()) else {
            return Ok(Answer::Reaped(None));
        };
        let opened = self.open_sections()?;
        match self.store.reclaim(n, opened.as_slice()) {
            Ok(element) => {
                take_first(self.queues.as_mut_slice());
                Ok(Answer::Reaped(Some(element)))
            }
            Err(fault) => Err(fault),
        }
    }

    /// Why a drop of this run is refused.
    fn drop_refusal(&self, r: usize) -> Option<EventRefusal>
        ensures { result ≡ drop_refusal_of
            (run_at (runs_of self.now.programs.items self.now.runs.items) r) }
    {
        match self.runs.get(r) {
            Some(Some(run)) => match run.exit {
                Some(_) => None,
                None => Some(EventRefusal::StillRunning),
            },
            _ => Some(EventRefusal::NoRun),
        }
    }

    fn remove(&mut self, run: RunId) -> Result<Answer, ModelFault>
        ensures machine { DoesAs (machine_of self.old) (events.Drop run) result
            (machine_of self.new) }
        ensures queues { self.new.queues ≡ self.old.queues }
        ensures awaited { self.new.awaited ≡ self.old.awaited }
        ensures oldest { OnOk result
            (TakesOldest (store_of self.old.store) (store_of self.new.store)) }
    {
        let r = run.index();
        if let Some(refusal) = self.drop_refusal(r) {
            return Ok(Answer::Refused(refusal));
        }
        if r >= self.runs.len() {
            return Err(ModelFault::OutOfRange);
        }
        self.runs[r] = None;
        Ok(Answer::Done)
    }
}

/// Whether the event is one by which the runtime reclaims elements: an advance or a reap.
fn is_advance_or_reap(event: &Event) -> bool
    ensures { result ≡ is_advance_or_reap_of event.now }
{
    match event {
        Event::Advance => true,
        Event::Reap => true,
        _ => false,
    }
}
