//! Laws of runs in a world: when they may step, and that what is asked and answered is the world's step. The last two
//! are of runs outside a world: words that some maps answer.
//!
//! Each is a function with an empty body, whose contract is the law.
ghost use Rattle.std.specs.Prelude.{◌≡◌, ℕ, Option, Some, None, Err, slice_get};
ghost use Rattle.bpf_model.specs.declared.call.Errno.{Errno};
ghost use Rattle.bpf_model.specs.declared.call.Helper.{Helper};
ghost use Rattle.bpf_model.specs.declared.event.Event.{Event};
ghost use Rattle.bpf_model.specs.declared.insn.Insn.{Insn};
ghost use Rattle.bpf_model.specs.Call.{ret_word};
ghost use Rattle.bpf_model.specs.Machine.{Loaded, Run};
ghost use Rattle.bpf_model.specs.Schedule.{Schedule};
ghost use Rattle.bpf_model.specs.Step.{insn_at};
ghost use Rattle.bpf_model.specs.View.{RunView, WorldView, shapes_of};
ghost use Rattle.verifier.specs.Checked.{Checked};
ghost use Rattle.verifier.specs.Verdict.{IsJustified};
ghost use Rattle.model_laws.specs.Matching.{Matches};
ghost use Rattle.world_laws.specs.Local.{local_of};
ghost use Rattle.world_laws.specs.Moving.{word_in};
ghost use Rattle.world_laws.specs.Reacting.{full_reaction, insn_step};
ghost use Rattle.world_laws.specs.Typed.{IsSound, IsRunning};
ghost use Rattle.machine.specs.declared.request.Request.{Request};
ghost use Rattle.machine.specs.declared.request.Local.{Local};
ghost use Rattle.machine.specs.Regions.{IsCodeOf};
ghost use Rattle.machine.specs.Replies.{IsOwnStep, ServesRequest};
ghost use Rattle.machine.specs.Requests.{request_of};
ghost use Rattle.machine.specs.RunWords.{RunWords};
ghost use Rattle.machine.specs.Standing.{AreHashMaps, Awaits, IsRunOfChecked, MayGive};
ghost use Rattle.machine.specs.Steps.{CanStep, IsLocalStep};

/// A run that has not ended may step, by the code of its program: whatever it reaches lies in the
/// region that the code has noted.
pub fn running_can_step()
    ensures { (w : WorldView) (s : Schedule) → Matches w s → IsSound w s →
        (r : ℕ) (run : Run) (v : RunView) → IsRunning w s r run v →
        (program : Loaded) → slice_get w.programs v.program ≡ Some program →
        (c : Checked) → IsCodeOf c (shapes_of w) program → CanStep c v }
{}

/// The words that a world shows of a run that has not ended stand for it, by the code of its program.
pub fn running_stands()
    ensures { (w : WorldView) (s : Schedule) → Matches w s → IsSound w s →
        (r : ℕ) (run : Run) (v : RunView) → IsRunning w s r run v →
        (program : Loaded) → slice_get w.programs v.program ≡ Some program →
        (c : Checked) → IsCodeOf c (shapes_of w) program → IsRunOfChecked c v }
{}

/// The world's step of an instruction that asks something is to serve the request, and to resume the run.
pub fn served_as_asked()
    ensures { (insn : Insn) (request : Request) (program : Loaded) (r : ℕ) (v : RunView)
        (w : WorldView) →
        request_of insn v ≡ Some request → ServesRequest request insn program r v w }
{}

/// A world's reaction to the step of a run that has not ended is the step of the run's instruction.
pub fn reacts_by_insn()
    ensures { (w : WorldView) (r : ℕ) (v : RunView) (program : Loaded) (insn : Insn) →
        slice_get w.runs r ≡ Some (Some v) → v.exit ≡ None →
        slice_get w.programs v.program ≡ Some program →
        insn_at program.code v.place ≡ Some insn →
        full_reaction w (Event.Step r) ≡ insn_step insn program r v w }
{}

/// What a run has answered and done is the world's step, where the run asks nothing of it.
pub fn own_step_is_the_worlds()
    ensures { (insn : Insn) (program : Loaded) (r : ℕ) (v after : RunView) (w : WorldView)
        (asked : Option Request) (answer : Local) →
        IsLocalStep (local_of insn v) asked v answer after →
        IsOwnStep answer asked r v after w (insn_step insn program r v w) }
{}

/// Some maps answer an update without flags by 0, where those of the program are hash maps with room.
pub fn update_may_succeed()
    ensures { (c : Checked) (r : RunWords) → IsJustified c → AreHashMaps c.shapes →
        Awaits c (Request.Call Helper.Update) r → word_in r.view 4 ≡ 0 →
        MayGive c r.view (Request.Call Helper.Update) 0 }
{}

/// Some maps answer a delete by the error that the key has no element, where those of the program are hash maps.
pub fn delete_may_find_nothing()
    ensures { (c : Checked) (r : RunWords) → IsJustified c → AreHashMaps c.shapes →
        Awaits c (Request.Call Helper.Delete) r →
        MayGive c r.view (Request.Call Helper.Delete) (ret_word (Err Errno.NoEntry)) }
{}
