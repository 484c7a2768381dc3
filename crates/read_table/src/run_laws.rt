//! Laws of the words of a shared run.
//!
//! Each is a function with an empty body, whose contract is the law.
ghost use Rattle.std.specs.Prelude.{◌≡◌, ◌≢◌, ℕ, ◌<◌, ◌≤◌, List, [], Some, length};
ghost use Rattle.bpf_model.specs.declared.insn.Insn.{Insn};
ghost use Rattle.bpf_model.specs.declared.value.Value.{Value};
ghost use Rattle.bpf_model.specs.declared.value.Value.TheVariants.{Number};
ghost use Rattle.bpf_model.specs.Real.{AreBytes};
ghost use Rattle.bpf_model.specs.Step.{insn_at};
ghost use Rattle.bpf_model.specs.View.{RunView};
ghost use Rattle.model_laws.specs.Reactions.{fresh_view};
ghost use Rattle.verifier.specs.Checked.{Checked};
ghost use Rattle.verifier.specs.Verdict.{IsJustified};
ghost use Rattle.machine.specs.declared.request.Request.{Request};
ghost use Rattle.machine.specs.declared.request.Local.TheVariants.{Exit, Moved, Shared};
ghost use Rattle.machine.specs.RunWords.{IsAt, RunWords};
ghost use Rattle.machine.specs.Standing.{IsRunOfChecked};
ghost use Rattle.machine.specs.Steps.{MovesOn, TakesStep};
ghost use Rattle.read_table.specs.declared.view.Move.{Move};
ghost use Rattle.read_table.specs.declared.view.TableShape.{TableShape};
ghost use Rattle.read_table.specs.Found.{StaysLinked};
ghost use Rattle.read_table.specs.History.{IsLawful};
ghost use Rattle.read_table.specs.Table.{table_of};
ghost use Rattle.shared_runs.specs.Serving.{CanAnswer};
ghost use Rattle.shared_runs.specs.SharedRuns.{Replies, lookup_of};
ghost use Rattle.shared_runs.specs.Sharing.{ExitsShared, GoesFurther, IsSharing};
ghost use Rattle.shared_runs.specs.Words.{FitsTable, UsesSubWords};
ghost use Rattle.world_laws.specs.Around.{regions};

/// The words of a run at its start, of a program that accesses elements by words alone, over a table of its maps' lengths,
/// are those of a shared run of which its seat has done nothing.
pub fn shared_run_starts()
    ensures { (k : TableShape) (c : Checked) → IsJustified c → FitsTable (table_of k) c.shapes →
        k.slots ≤ regions → (UsesSubWords c → ⊥) → (context : List ℕ) →
        length context ≡ c.ctx_len → AreBytes context →
        IsSharing (table_of k) c context [] (fresh_view 0 context) }
{}

/// Such a run may be stepped.
pub fn shared_run_stands()
    ensures { (k : TableShape) (c : Checked) (context : List ℕ) (ms : List Move) (v : RunView) →
        IsSharing (table_of k) c context ms v → IsRunOfChecked c v }
{}

/// A move that it makes by itself leaves it such a run, of which its seat has done nothing more.
pub fn shared_run_moves()
    ensures { (k : TableShape) (c : Checked) (context : List ℕ) (ms : List Move)
        (v new : RunView) → IsSharing (table_of k) c context ms v →
        TakesStep c v Moved new →
        GoesFurther (table_of k) c context ms v new }
{}

/// So do several such moves, one after another.
pub fn shared_run_goes_on()
    ensures { (k : TableShape) (c : Checked) (context : List ℕ) (ms : List Move)
        (v new : RunView) → IsSharing (table_of k) c context ms v → MovesOn c v new →
        IsSharing (table_of k) c context ms new × (v.moved ≤ new.moved) }
{}

/// Its exit is that of a shared run, outside every section.
pub fn shared_run_exits()
    ensures { (k : TableShape) (c : Checked) (context : List ℕ) (ms : List Move)
        (v new : RunView) (n : ℕ) → IsSharing (table_of k) c context ms v →
        TakesStep c v (Exit n) new →
        ExitsShared (table_of k) c context ms new n }
{}

/// It has moved less often than its program has instructions.
pub fn moves_below_length()
    ensures { (c : Checked) (r : RunWords) (insn : Insn) → IsAt c.program r →
        insn_at c.program r.view.place ≡ Some insn → r.view.moved < length c.program }
{}

/// What it asks can be served by its seat, and then it goes on as such a run.
pub fn shared_run_asks()
    ensures { (k : TableShape) (c : Checked) (context : List ℕ) (ms : List Move)
        (v after : RunView) (request : Request) → IsSharing (table_of k) c context ms v →
        TakesStep c v (Shared request) after →
        CanAnswer (table_of k) c context ms v request × (after ≡ v) }
{}

/// A lookup of a shared run is not answered by null where some slot stays linked under its key, from before the moves that
/// answer it to after them.
pub fn shared_lookups_find_keys()
    ensures { (k : TableShape) (es : List (ℕ × Move)) → IsLawful k es →
        (depth map slot who : ℕ) (key : List ℕ) (done before ms : List Move) (reply : Value) →
        Replies (table_of k) depth done (lookup_of map key) ms reply →
        StaysLinked k key slot who before ms es → reply ≢ Number 0 }
{}
