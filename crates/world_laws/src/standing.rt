//! Laws of runs, and of the words for which they stand, whatever maps surround them.
//!
//! Each is a function with an empty body, whose contract is the law.
ghost use Rattle.std.specs.Prelude.{◌≡◌, ℕ, List, length, map, Some};
ghost use Rattle.bpf_model.specs.declared.insn.Insn.{Insn};
ghost use Rattle.bpf_model.specs.declared.limits.MapShape.{MapShape};
ghost use Rattle.bpf_model.specs.Real.{AreBytes};
ghost use Rattle.bpf_model.specs.Machine.{Loaded, Run, environment, fresh_run, moves};
ghost use Rattle.bpf_model.specs.MapState.{new_map};
ghost use Rattle.bpf_model.specs.Step.{Moves, State, after, insn_at};
ghost use Rattle.bpf_model.specs.View.{RunView};
ghost use Rattle.plan_laws.specs.Verified.{AreMapsBound, IsClosed, IsVerified, Plan};
ghost use Rattle.world_laws.specs.Calling.{returned_view};
ghost use Rattle.world_laws.specs.Described.{IsDescribed, IsShownBy};
ghost use Rattle.world_laws.specs.Standing.{IsRunOf, MapsAnswer};

/// A run that starts is described by the plan, among whichever maps of the shapes that were verified.
pub fn starts_described()
    ensures { (code : List Insn) (shapes : List MapShape) (ctx_len : ℕ) (plan : Plan)
        (around : List MapShape) (name : ℕ) (program : Loaded) (context : List ℕ) →
        IsClosed code shapes ctx_len plan →
        AreMapsBound shapes program.maps (map new_map around) → length context ≡ ctx_len →
        AreBytes context →
        IsDescribed code shapes ctx_len plan around (fresh_run name program context) }
{}

/// A move that a run makes by itself leaves it described.
pub fn moves_described()
    ensures { (code : List Insn) (shapes : List MapShape) (ctx_len : ℕ) (plan : Plan)
        (around : List MapShape) (run : Run) (insn : Insn) (next : State) →
        IsClosed code shapes ctx_len plan → IsDescribed code shapes ctx_len plan around run →
        insn_at code run.state.place ≡ Some insn →
        after insn (environment run) run.state ≡ Some (Moves next) →
        IsDescribed code shapes ctx_len plan around (moves run next) }
{}

/// Whatever maps and sections surround the run for which words stand, they stand as well for one that refers only to
/// what it may access, among maps in which each map slot that has a word has an element.
pub fn stands_among_any()
    ensures { (code : List Insn) (shapes : List MapShape) (ctx_len : ℕ) (v : RunView) →
        IsRunOf code shapes ctx_len v →
        (around : List MapShape) × (run : Run) × ((plan : Plan) →
        IsClosed code shapes ctx_len plan → IsShownBy code shapes ctx_len plan around run v) }
{}

/// Where some maps among which words stand answer the call of a helper by a number, the words that have it in r0 stand for
/// the run that goes on.
pub fn answer_stands()
    ensures { (code : List Insn) (shapes : List MapShape) (ctx_len : ℕ) (v : RunView)
        (number : ℕ) → IsVerified code shapes ctx_len →
        MapsAnswer code shapes ctx_len v number →
        IsRunOf code shapes ctx_len (returned_view number v) }
{}
