//! Laws of what is served, each a function with an empty body.
ghost use Rattle.std.specs.Prelude.{◌≡◌, ◌<◌, ◌^◌, ℕ, Option, Some, None, slice_get};
ghost use Rattle.bpf_model.specs.declared.insn.Insn.{Insn};
ghost use Rattle.bpf_model.specs.Machine.{Loaded, Run};
ghost use Rattle.bpf_model.specs.Schedule.{Schedule};
ghost use Rattle.bpf_model.specs.Step.{insn_at};
ghost use Rattle.bpf_model.specs.View.{MapView, RunView, WorldView, shapes_of};
ghost use Rattle.map_kinds.specs.Shown as shown;
ghost use Rattle.verifier.specs.Checked.{Checked};
ghost use Rattle.model_laws.specs.Matching.{Matches};
ghost use Rattle.world_laws.specs.Local.{Asks, local_of};
ghost use Rattle.world_laws.specs.Reaching as reaching;
ghost use Rattle.world_laws.specs.Reacting.{insn_step};
ghost use Rattle.world_laws.specs.Typed.{IsRunning, IsSound};
ghost use Rattle.machine.specs.declared.request.Request.{Request};
ghost use Rattle.machine.specs.declared.request.Local.{Local};
ghost use Rattle.machine.specs.Regions.{IsCodeOf};
ghost use Rattle.machine.specs.Requests.{request_of};
ghost use Rattle.machine.specs.Standing.{MayGive};
ghost use Rattle.machine.specs.Steps.{IsLocalStep};
ghost use Rattle.element_store.specs.Sections.{GraceState};
ghost use Rattle.world.specs.Serving.{CanServe, IsFlagged, IsOwnWorld, IsReply, ShowsGrace};
ghost use Rattle.world.specs.Serving.{served_step};

/// A map slot that has an element, linked under its own key or waiting in one of the three lists,
/// stands somewhere in its map: what a world knows of a slot is what a map asks.
pub fn occupied_stands()
    ensures { (v : MapView) (i : ℕ) → reaching.HasElement v i → shown.IsOccupied v i }
{}

/// Where a run's instruction asks something, the world's step is what `serve` leaves, with the
/// run gone on with the reply: in a world that shows of some depths who is inside a section, where the
/// run's own is that of its view.
pub fn served_is_the_worlds()
    ensures { (insn : Insn) (request : Request) (program : Loaded) (r : ℕ) (v : RunView)
        (w : WorldView) (word : ℕ) → IsFlagged w r v →
        (g : GraceState) → ShowsGrace w g → slice_get g.depths r ≡ Some v.depth →
        request_of insn v ≡ Some request →
        CanServe request program.maps w.maps v → IsReply request program.maps w.maps v word →
        insn_step insn program r v w ≡ served_step request insn program word r v g w }
{}

/// Where a run's instruction asks nothing, the world's step changes the run alone: maps and flags stay.
pub fn own_changes_the_run()
    ensures { (insn : Insn) (program : Loaded) (r : ℕ) (v after : RunView) (w : WorldView)
        (asked : Option Request) (answer : Local) → IsFlagged w r v →
        IsLocalStep (local_of insn v) asked v answer after →
        IsOwnWorld answer asked r v after w (insn_step insn program r v w) }
{}

/// In a world whose programs are verified, a run that has not ended is one of the machine, with
/// a flag as its depth says; and what its instruction asks can be served.
pub fn running_can_be_served()
    ensures running { (w : WorldView) (s : Schedule) → Matches w s → (r : ℕ) (v : RunView) →
        slice_get w.runs r ≡ Some (Some v) → v.exit ≡ None → (run : Run) × IsRunning w s r run v }
    ensures flagged { (w : WorldView) (s : Schedule) → Matches w s → IsSound w s →
        (r : ℕ) (run : Run) (v : RunView) → IsRunning w s r run v → IsFlagged w r v }
    ensures served { (w : WorldView) (s : Schedule) → Matches w s → IsSound w s →
        (r : ℕ) (run : Run) (v : RunView) → IsRunning w s r run v →
        (program : Loaded) → slice_get w.programs v.program ≡ Some program →
        (insn : Insn) (request : Request) → insn_at program.code v.place ≡ Some insn →
        local_of insn v ≡ Asks → request_of insn v ≡ Some request →
        CanServe request program.maps w.maps v }
{}

/// In such a world what is served is a word that the access can give, as the code of the run's program asks.
pub fn served_may_be_given()
    ensures { (w : WorldView) (s : Schedule) → Matches w s → IsSound w s →
        (r : ℕ) (run : Run) (v : RunView) → IsRunning w s r run v → r < 2 ^ 64 →
        (program : Loaded) → slice_get w.programs v.program ≡ Some program →
        (c : Checked) → IsCodeOf c (shapes_of w) program →
        (insn : Insn) (request : Request) (word : ℕ) →
        insn_at program.code v.place ≡ Some insn → local_of insn v ≡ Asks →
        request_of insn v ≡ Some request → CanServe request program.maps w.maps v →
        IsReply request program.maps w.maps v word → MayGive c v request word }
{}
