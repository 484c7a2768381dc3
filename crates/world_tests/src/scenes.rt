//! What one worker asks of a shared world, and is told: exits, cuts, counters, many steps under one lock, and journals of
//! few entries.
ghost use Rattle.std.specs.Prelude.{◌≡◌};

use crate::journals::are_entries;
use crate::sharing::{event, one_more, scenery, shared_of};
use bpf_model::{CtxBytes, ProgId, RunId};
use shared::{Counters, CutFault, Finished, LoadFault, Shared, SharedFault, Worker};
use std::alloc::{AllocError, Global};
use std::marker::Brand;
use std::process::Abort;
use std::sync::Wait;
use std::sync::ledger::{Blank, Ledger};
use std::test::Fail;

/// A question to the shared world: the event of a line, without and with its receipt; the exit value of a run and a program, without
/// and with its note; so many steps of a run; whether there is a program; a cut, a program more; and what the counters and the
/// worker count.
enum Ask {
    Act(&'static str),
    Note(&'static str),
    Exit(usize, usize),
    ExitNote(usize, usize),
    Run(usize, usize),
    Program(usize),
    Cut,
    Load,
    Totals,
    Made,
}

/// How often a question is asked, and what the worker is told each time.
type Row = (u8, Ask, &'static str);

/// A world of its own with a journal of so many entries. At the end it has these: how many were made before the base, how
/// many entries are in the journal, how many there may be, the state of the base and of the world; and the entries.
#[derive(Clone, Copy)]
struct Scene {
    limit: Option<usize>,
    rows: &'static [Row],
    left: &'static str,
    entries: &'static [&'static str],
}

/// A start of program 0.
pub const STARTED: &str =
    "Some(Entry { worker: 0, event: Start { prog: ProgId { number: 0 }, ctx: [] }, answer: Started(RunId { number: 0 }) })";

/// A start of program 1.
const STARTED_LOOKUP: &str =
    "Some(Entry { worker: 0, event: Start { prog: ProgId { number: 1 }, ctx: [] }, answer: Started(RunId { number: 0 }) })";

/// A step of the run in run slot 0 that moves.
pub const MOVED: &str =
    "Some(Entry { worker: 0, event: Step { run: RunId { number: 0 } }, answer: Moved })";

/// One that exits with 1.
pub const EXITED: &str =
    "Some(Entry { worker: 0, event: Step { run: RunId { number: 0 } }, answer: Exited(1) })";

/// The drop of that run.
pub const DROPPED: &str =
    "Some(Entry { worker: 0, event: Drop { run: RunId { number: 0 } }, answer: Done })";

/// An advance.
const ADVANCED: &str = "Some(Entry { worker: 0, event: Advance, answer: Done })";

/// A run has its exit value after its second step. While it keeps its run slot nothing is cut; after its drop the journal
/// begins anew at the world now.
const CUT: Scene = Scene {
    limit: None,
    rows: &[
        (1, Ask::Program(0), "true"),
        (1, Ask::Program(6), "false"),
        (
            1,
            Ask::Act("put 0 00000000 0500000000000000 0"),
            "Ok(Ret(Ok(())))",
        ),
        (1, Ask::Act("start 0 -"), "Ok(Started(RunId { number: 0 }))"),
        (1, Ask::Act("step 0"), "Ok(Moved)"),
        (1, Ask::Exit(0, 0), "None"),
        (1, Ask::Cut, "Err(NotQuiet)"),
        (1, Ask::Act("step 0"), "Ok(Exited(1))"),
        (1, Ask::ExitNote(0, 0), "Some(1), made 4, worker 0"),
        (1, Ask::Exit(0, 0), "Some(1)"),
        (1, Ask::Exit(0, 1), "None"),
        (1, Ask::Act("drop 0"), "Ok(Done)"),
        (1, Ask::Cut, "Ok(())"),
        (
            1,
            Ask::Note("step 0"),
            "Step { run: RunId { number: 0 } }: Ok(Refused(NoRun)), made 6, worker 0",
        ),
    ],
    left: "5 before, 1 of 16777216, Stat { linked: 1, unlinked: 0, given: 0, worn: 0, runs: 0, open: 0 }, Stat { linked: 1, unlinked: 0, given: 0, worn: 0, runs: 0, open: 0 }",
    entries: &[
        "Some(Entry { worker: 0, event: Step { run: RunId { number: 0 } }, answer: Refused(NoRun) })",
        "None",
    ],
};

/// Of two programs of the same instructions, one for values of 8 bytes and one for values of 16, each has the
/// exit value of its own run alone.
const ALIKE: Scene = Scene {
    limit: None,
    rows: &[
        (
            1,
            Ask::Act("put 0 00000000 0500000000000000 0"),
            "Ok(Ret(Ok(())))",
        ),
        (1, Ask::Act("start 1 -"), "Ok(Started(RunId { number: 0 }))"),
        (11, Ask::Act("step 0"), "Ok(Moved)"),
        (1, Ask::Act("step 0"), "Ok(Exited(5))"),
        (1, Ask::Act("start 4 -"), "Ok(Started(RunId { number: 1 }))"),
        (10, Ask::Act("step 1"), "Ok(Moved)"),
        (1, Ask::Act("step 1"), "Ok(Exited(0))"),
        (1, Ask::Act("step 1"), "Ok(Refused(Ended))"),
        (1, Ask::Exit(0, 1), "Some(5)"),
        (1, Ask::Exit(0, 4), "None"),
        (1, Ask::Exit(1, 4), "Some(0)"),
        (1, Ask::Exit(1, 1), "None"),
    ],
    left: "0 before, 27 of 16777216, Stat { linked: 0, unlinked: 0, given: 0, worn: 0, runs: 0, open: 0 }, Stat { linked: 1, unlinked: 0, given: 0, worn: 0, runs: 2, open: 0 }",
    entries: &[
        "Some(Entry { worker: 0, event: Update { map: MapId { number: 0 }, key: [0, 0, 0, 0], value: [5, 0, 0, 0, 0, 0, 0, 0], flags: 0 }, answer: Ret(Ok(())) })",
        STARTED_LOOKUP,
    ],
};

/// A journal of three entries is full while a run keeps its run slot: no event and no cut is taken, and `finish` hands
/// out all.
const FULL: Scene = Scene {
    limit: Some(3),
    rows: &[
        (1, Ask::Act("start 0 -"), "Ok(Started(RunId { number: 0 }))"),
        (1, Ask::Act("step 0"), "Ok(Moved)"),
        (1, Ask::Act("step 0"), "Ok(Exited(1))"),
        (1, Ask::Made, "3"),
        (1, Ask::Act("drop 0"), "Err(JournalFull)"),
        (1, Ask::Cut, "Err(NotQuiet)"),
        (1, Ask::Made, "3"),
    ],
    left: "0 before, 3 of 3, Stat { linked: 0, unlinked: 0, given: 0, worn: 0, runs: 0, open: 0 }, Stat { linked: 0, unlinked: 0, given: 0, worn: 0, runs: 1, open: 0 }",
    entries: &[STARTED, MOVED, EXITED, "None"],
};

/// A journal of four entries that is full where no run slot is occupied is cut, and takes the next event. The four are
/// before the base, and the advance alone is in the journal.
const EMPTIED: Scene = Scene {
    limit: Some(4),
    rows: &[
        (1, Ask::Act("start 0 -"), "Ok(Started(RunId { number: 0 }))"),
        (1, Ask::Act("step 0"), "Ok(Moved)"),
        (1, Ask::Act("step 0"), "Ok(Exited(1))"),
        (1, Ask::Made, "3"),
        (1, Ask::Act("drop 0"), "Ok(Done)"),
        (1, Ask::Act("advance"), "Err(JournalFull)"),
        (1, Ask::Cut, "Ok(())"),
        (1, Ask::Act("advance"), "Ok(Done)"),
        (1, Ask::Made, "5"),
    ],
    left: "4 before, 1 of 4, Stat { linked: 0, unlinked: 0, given: 0, worn: 0, runs: 0, open: 0 }, Stat { linked: 0, unlinked: 0, given: 0, worn: 0, runs: 0, open: 0 }",
    entries: &[ADVANCED, "None"],
};

/// Many steps of one run under one lock: program 1, on a key that is there, exits at its 12th step. Of 20 entries the update
/// takes one, and this run 14. Another run takes two, its start and its one move. A later run takes the last three: its start
/// and two moves.
const STRETCHED: Scene = Scene {
    limit: Some(20),
    rows: &[
        (
            1,
            Ask::Act("put 0 00000000 0900000000000000 0"),
            "Ok(Ret(Ok(())))",
        ),
        (1, Ask::Act("start 1 -"), "Ok(Started(RunId { number: 0 }))"),
        (1, Ask::Run(0, 0), "Walk { moved: 0, end: Ok(Enough) }"),
        (1, Ask::Run(0, 4), "Walk { moved: 4, end: Ok(Enough) }"),
        (1, Ask::Act("start 0 -"), "Ok(Started(RunId { number: 1 }))"),
        (1, Ask::Run(1, 2), "Walk { moved: 1, end: Ok(Exits) }"),
        (1, Ask::Run(0, 100), "Walk { moved: 7, end: Ok(Exits) }"),
        (1, Ask::Act("step 0"), "Ok(Exited(9))"),
        (1, Ask::Run(0, 5), "Walk { moved: 0, end: Ok(Refused) }"),
        (1, Ask::Act("drop 0"), "Ok(Done)"),
        (1, Ask::Act("start 1 -"), "Ok(Started(RunId { number: 0 }))"),
        (
            1,
            Ask::Run(0, 100),
            "Walk { moved: 2, end: Err(JournalFull) }",
        ),
        (1, Ask::Made, "20"),
    ],
    left: "0 before, 20 of 20, Stat { linked: 0, unlinked: 0, given: 0, worn: 0, runs: 0, open: 0 }, Stat { linked: 1, unlinked: 0, given: 0, worn: 0, runs: 2, open: 1 }",
    entries: &[
        "Some(Entry { worker: 0, event: Update { map: MapId { number: 0 }, key: [0, 0, 0, 0], value: [9, 0, 0, 0, 0, 0, 0, 0], flags: 0 }, answer: Ret(Ok(())) })",
        STARTED_LOOKUP,
        MOVED,
        MOVED,
        MOVED,
        MOVED,
        "Some(Entry { worker: 0, event: Start { prog: ProgId { number: 0 }, ctx: [] }, answer: Started(RunId { number: 1 }) })",
        "Some(Entry { worker: 0, event: Step { run: RunId { number: 1 } }, answer: Moved })",
        MOVED,
        MOVED,
        MOVED,
        MOVED,
        MOVED,
        MOVED,
        MOVED,
        "Some(Entry { worker: 0, event: Step { run: RunId { number: 0 } }, answer: Exited(9) })",
        DROPPED,
        STARTED_LOOKUP,
        MOVED,
        MOVED,
        "None",
    ],
};

/// A run reads an element that is deleted meanwhile and reclaimed after its section: 12 steps, one element unlinked and
/// reclaimed.
const COUNTED: Scene = Scene {
    limit: None,
    rows: &[
        (
            1,
            Ask::Totals,
            "Totals { steps: 0, unlinked: 0, reclaimed: 0 }",
        ),
        (
            1,
            Ask::Act("put 0 00000000 0500000000000000 0"),
            "Ok(Ret(Ok(())))",
        ),
        (1, Ask::Act("start 1 -"), "Ok(Started(RunId { number: 0 }))"),
        (7, Ask::Act("step 0"), "Ok(Moved)"),
        (1, Ask::Act("del 0 00000000"), "Ok(Ret(Ok(())))"),
        (1, Ask::Act("advance"), "Ok(Done)"),
        (1, Ask::Act("reap"), "Ok(Reaped(None))"),
        (3, Ask::Act("step 0"), "Ok(Moved)"),
        (1, Ask::Act("advance"), "Ok(Done)"),
        (
            1,
            Ask::Note("reap"),
            "Reap: Ok(Reaped(Some(ReapedElement { map: MapId { number: 0 }, key: [0, 0, 0, 0], given: Free }))), made 17, worker 0",
        ),
        (1, Ask::Act("step 0"), "Ok(Moved)"),
        (1, Ask::Act("step 0"), "Ok(Exited(5))"),
        (1, Ask::Made, "19"),
        (
            1,
            Ask::Totals,
            "Totals { steps: 12, unlinked: 1, reclaimed: 1 }",
        ),
    ],
    left: "0 before, 19 of 16777216, Stat { linked: 0, unlinked: 0, given: 0, worn: 0, runs: 0, open: 0 }, Stat { linked: 0, unlinked: 0, given: 1, worn: 0, runs: 1, open: 0 }",
    entries: &[
        "Some(Entry { worker: 0, event: Update { map: MapId { number: 0 }, key: [0, 0, 0, 0], value: [5, 0, 0, 0, 0, 0, 0, 0], flags: 0 }, answer: Ret(Ok(())) })",
        STARTED_LOOKUP,
    ],
};

/// A program is added where no run slot is occupied, bound to the third map, where the key 0 has another value than in the first.
/// The journal begins anew at the world that has it.
const LOADED: Scene = Scene {
    limit: None,
    rows: &[
        (
            1,
            Ask::Act("put 0 00000000 0500000000000000 0"),
            "Ok(Ret(Ok(())))",
        ),
        (
            1,
            Ask::Act("put 2 00000000 0900000000000000 0"),
            "Ok(Ret(Ok(())))",
        ),
        (1, Ask::Act("start 6 -"), "Ok(Refused(NoProgram))"),
        (1, Ask::Act("start 0 -"), "Ok(Started(RunId { number: 0 }))"),
        (1, Ask::Load, "Err(NotQuiet)"),
        (1, Ask::Act("step 0"), "Ok(Moved)"),
        (1, Ask::Act("step 0"), "Ok(Exited(1))"),
        (1, Ask::Act("drop 0"), "Ok(Done)"),
        (1, Ask::Program(6), "false"),
        (1, Ask::Load, "Ok(ProgId { number: 6 })"),
        (1, Ask::Program(6), "true"),
        (1, Ask::Act("start 6 -"), "Ok(Started(RunId { number: 0 }))"),
        (11, Ask::Act("step 0"), "Ok(Moved)"),
        (1, Ask::Act("step 0"), "Ok(Exited(9))"),
        (1, Ask::ExitNote(0, 6), "Some(9), made 20, worker 0"),
    ],
    left: "7 before, 13 of 16777216, Stat { linked: 2, unlinked: 0, given: 0, worn: 0, runs: 0, open: 0 }, Stat { linked: 2, unlinked: 0, given: 0, worn: 0, runs: 1, open: 0 }",
    entries: &[
        "Some(Entry { worker: 0, event: Start { prog: ProgId { number: 6 }, ctx: [] }, answer: Started(RunId { number: 0 }) })",
        MOVED,
    ],
};

/// What a worker is told.
fn answer_to<L: Ledger, R: Wait + Abort>(
    rt: &R,
    alloc: Global,
    shared: &mut Shared<L>,
    worker: &mut Worker<L>,
    counters: &mut Counters,
    ask: &Ask,
) -> Result<String, Fail> {
    let ctx = CtxBytes::new();
    let text = match *ask {
        Ask::Act(line) => {
            let event = event(rt, alloc, line)?;
            format!(in alloc; "{:?}", shared.act(rt, worker, event))
        }
        Ask::Note(line) => {
            let event = event(rt, alloc, line)?;
            let receipt = shared.act_noted(rt, worker, event);
            let (reply, made) = (receipt.reply(), receipt.made());
            format!(in alloc;
                "{:?}: {reply:?}, made {made}, worker {}",
                receipt.event(),
                receipt.worker()
            )
        }
        Ask::Exit(run, prog) => {
            let exit = shared.exit_of(rt, worker, RunId::new(run), ProgId::new(prog), &ctx);
            format!(in alloc; "{exit:?}")
        }
        Ask::ExitNote(run, prog) => {
            let held = shared.hold(rt);
            let note = held.exit_noted(worker, RunId::new(run), ProgId::new(prog), &ctx);
            format!(in alloc;
                "{:?}, made {}, worker {}",
                note.exit(),
                note.made(),
                note.worker()
            )
        }
        Ask::Run(run, most) => {
            format!(in alloc; "{:?}", shared.run_for(rt, worker, RunId::new(run), most))
        }
        Ask::Program(prog) => {
            format!(in alloc; "{}", shared.program(ProgId::new(prog)).is_some())
        }
        Ask::Cut => format!(in alloc; "{:?}", shared.cut(rt, alloc)),
        Ask::Load => {
            let loaded = one_more(alloc)?;
            format!(in alloc; "{:?}", shared.load(rt, alloc, loaded))
        }
        Ask::Totals => format!(in alloc; "{:?}", counters.read(rt)),
        Ask::Made => format!(in alloc; "{}", worker.made()),
    };
    Ok(text?)
}

/// Asks a question so often, and is told the same each time.
fn ask_often<L: Ledger, R: Wait + Abort>(
    rt: &R,
    alloc: Global,
    shared: &mut Shared<L>,
    worker: &mut Worker<L>,
    counters: &mut Counters,
    row: &Row,
) -> Result<(), Fail> {
    let (times, ask, wanted) = row;
    for _ in 0..*times {
        let text = answer_to(rt, alloc, shared, worker, counters, ask)?;
        assert_eq!(rt; text.as_str(), *wanted);
    }
    Ok(())
}

/// Asks all questions of a scene, and ends the sharing.
fn play<L: Ledger + Send + Sync, R: Wait + Abort>(
    rt: &R,
    alloc: Global,
    blank: Blank,
    scene: &Scene,
) -> Result<Finished, Fail>
    requires name { blank.name ≡ L.name }
    requires parts { (blank.parts ≡ L.parts) × (blank.parts ≡ 1) }
{
    let world = scenery(alloc)?;
    let (mut shared, mut workers, mut counters) = shared_of::<L, R>(
        rt,
        alloc,
        world,
        blank,
        1,
        scene.limit,
    )?;
    for row in scene.rows {
        if let [worker] = workers.as_mut_slice() {
            ask_often(rt, alloc, &mut shared, worker, &mut counters, row)?;
        }
    }
    assert_eq!(rt; workers.count(), 1);
    Ok(shared.finish(workers))
}

/// A scene ends as it says.
fn ends_so<R: Abort>(
    rt: &R,
    alloc: Global,
    scene: &Scene,
    finished: &Finished,
) -> Result<(), AllocError> {
    let (base, world) = (finished.base.stat(), finished.world.stat());
    let (before, journal) = (finished.before, &finished.journal);
    let left = format!(in alloc;
        "{before} before, {} of {}, {base:?}, {world:?}",
        journal.len(),
        journal.limit()
    )?;
    assert_eq!(rt; left.as_str(), scene.left);
    are_entries(rt, alloc, journal, scene.entries)
}

#[test]
fn scenes_are_told(rt: HostRuntime) -> Result<(), Fail> {
    for scene in [CUT, ALIKE, FULL, EMPTIED, STRETCHED, COUNTED, LOADED] {
        let finished = play::<Brand, _>(&rt, rt.alloc(), Blank::new(1), &scene)?;
        ends_so(&rt, rt.alloc(), &scene, &finished)?;
    }
    assert_eq!(rt;
        (
            SharedFault::JournalFull.code(),
            CutFault::NotQuiet.code(),
            LoadFault::NotQuiet.code()
        ),
        (70, 71, 71)
    );
    Ok(())
}
