//! Laws of runs of verified programs: what is known of a run before an instruction, with references to elements, is kept by its
//! own step and by the steps of all others; and a run of a verified program is never stuck, exits in time, and
//! has near references alone.
//!
//! `specs/Describes` says what a description of a run means, `specs/Effects` what calls, null tests, accesses to
//! elements, spills and joins make of one, `specs/Verified` what a verified program promises, `specs/Well` what is
//! so of each state that a machine of verified programs reaches. Each function has an empty body; its contract is
//! the law. The contracts of the verifier and of the world cite these definitions, and stand on these laws.
#![tactic(auto)]

ghost use Rattle.std.specs.Prelude.{◌≡◌, ℕ, ◌+◌, ◌^◌, ◌<◌, List, [], ◌∷◌, Option, Some, None, slice_get, unwrap_or, ℤ, pos, ◌+ℤ◌, false, ◌⊎◌};
ghost use Rattle.bpf_model.specs.declared.limits.TheConstants.{FRAME_BYTES, MAX_DEPTH};
ghost use Rattle.bpf_model.specs.declared.limits.MapKind.{MapKind};
ghost use Rattle.bpf_model.specs.declared.limits.MapShape.{MapShape};
ghost use Rattle.bpf_model.specs.Shapes.{AreShapes};
ghost use Rattle.bpf_model.specs.declared.insn.Insn.{Insn};
ghost use Rattle.bpf_model.specs.declared.insn.Operand.{Operand};
ghost use Rattle.bpf_model.specs.declared.insn.CallKind.{CallKind};
ghost use Rattle.bpf_model.specs.declared.call.Helper.{Helper};
ghost use Rattle.bpf_model.specs.declared.call.KernelFunction.{KernelFunction};
ghost use Rattle.bpf_model.specs.declared.opcode.Width.{Width};
ghost use Rattle.bpf_model.specs.declared.opcode.Condition.{Condition};
ghost use Rattle.bpf_model.specs.declared.opcode.Size.{Size};
ghost use Rattle.bpf_model.specs.declared.event.Event.{Event};
ghost use Rattle.bpf_model.specs.declared.event.Answer.{Answer};
ghost use Rattle.bpf_model.specs.Access.{byte_count, unsigned_width, region_offset};
ghost use Rattle.bpf_model.specs.Arithmetic.{loaded_signed};
ghost use Rattle.bpf_model.specs.declared.opcode.SignedWidth.{SignedWidth};
ghost use Rattle.bpf_model.specs.Call.{helper_of, kernel_function_of};
ghost use Rattle.bpf_model.specs.Machine.{Loaded, Run, Machine, run_at, start_machine};
ghost use Rattle.bpf_model.specs.MachineStep.{NeverStuck};
ghost use Rattle.bpf_model.specs.Step.{State};
ghost use Rattle.bpf_model.specs.Event.{DoesEvent};
ghost use Rattle.bpf_model.specs.Real.{IsReal, AreReal};
ghost use Rattle.bpf_model.specs.History.{IsHistory, AllStates};
ghost use Rattle.bpf_model.specs.Schedule.{Schedule};
ghost use Rattle.bpf_model.specs.View.{WorldView};
ghost use Rattle.bpf_model.specs.Refines.{IsReachedSchedule, Tracks};
ghost use Rattle.bpf_model.specs.View.{shapes_of};
ghost use Rattle.bpf_model.specs.Headline.{AreNeverStuck, ExitsInTime, AllExitInTime};
ghost use Rattle.model_laws.specs.Consistent.{IsConsistent};
ghost use Rattle.scalar_domain.specs.Scalar.{Holds};
ghost use Rattle.scalar_domain.specs.declared.scalar.Scalar.{Scalar};
ghost use Rattle.model_laws.specs.Example.{lookup_and_load, lookup_program, example_shape};
ghost use Rattle.plan_laws.specs.Kinds.{Kind, Num, FrameAt, ValueAt, MaybeNull, PartCell, AbsState};
ghost use Rattle.plan_laws.specs.Describes.{Scene, scene_of, IsArrayMap, HasOffset, Describes};
ghost use Rattle.plan_laws.specs.Effects.{with_kind, with_cells, after_call, after_lock, after_unlock, when_null, when_there, IsFresh, IsAlwaysInside, HasMap, HasBytes, IsWritten, IsPointer, IsNumberOperand};
ghost use Rattle.plan_laws.specs.Verified.{Plan, Transfers, TransfersAlone, is_call, AreMapsBound, IsPlanned, IsClosed, IsVerified};
ghost use Rattle.plan_laws.specs.Planned.{Wider, AreAlike, Joins, IsPlanKept};
ghost use Rattle.bpf_model.specs.declared.value.Reference.{Reference};
ghost use Rattle.bpf_model.specs.Element.{Element};
ghost use Rattle.bpf_model.specs.Word.{IsReferenceWord, element_bases};
ghost use Rattle.model_laws.specs.Near.{IsNearReference};
ghost use Rattle.model_laws.specs.Locations.{named_location};
ghost use Rattle.bpf_model.specs.Exit.{ExitsWith, HasNoMaps};
ghost use Rattle.plan_laws.specs.MayExit.{MayExitWith};
ghost use Rattle.plan_laws.specs.Limits.{IsWithinLimits, IsNearMachine};
ghost use Rattle.plan_laws.specs.Well.{AreVerified, IsWell};

/// Whatever event comes, the run's own step too: what describes a run describes it among the elements after it.
pub fn stays_described()
    ensures { (m new : Machine) (event : Event) (answer : Answer) (r : ℕ) (run : Run) (a : AbsState)
        → IsConsistent m → DoesEvent m event answer new → run_at m.runs r ≡ Some run
        → Describes a (scene_of m.store run) run.state
        → Describes a (scene_of new.store run) run.state }
{}

/// A join describes what its first state describes.
pub fn join_left()
    ensures { (pair : ℕ → ℕ × ℕ) (a b c : AbsState) → Joins pair a b c → Wider a c }
{}

/// A join describes what its second state describes.
pub fn join_right()
    ensures { (pair : ℕ → ℕ × ℕ) (a b c : AbsState) → Joins pair a b c → Wider b c }
{}

/// An instruction that is no call and accesses no element transfers where its step alone does.
pub fn alone_transfers()
    ensures { (i : Insn) (shapes : List MapShape) (ctx_len : ℕ) (a b : AbsState)
        (taken : Option AbsState) → is_call i ≡ false → TransfersAlone i shapes ctx_len a b taken
        → Transfers i shapes ctx_len a b taken }
{}

/// States with the same kinds, index by index, describe the same runs.
pub fn alike_wider()
    ensures { (a b : AbsState) → AreAlike a b → Wider a b }
{}

/// An instruction transfers also from a narrower state, and to a wider one.
pub fn transfers_wider()
    ensures { (i : Insn) (shapes : List MapShape) (ctx_len : ℕ) (old before new other : AbsState)
        (taken also : Option AbsState) → Wider old before → Wider new other
        → Wider (unwrap_or taken new) (unwrap_or also other)
        → Transfers i shapes ctx_len before new taken → Transfers i shapes ctx_len old other also }
{}

/// A lock transfers where fewer than `MAX_DEPTH` are open: one more is after it.
pub fn lock_transfers()
    ensures { (imm : ℤ) (shapes : List MapShape) (ctx_len : ℕ) (a : AbsState)
        → kernel_function_of imm ≡ Some KernelFunction.ReadLock → a.depth < MAX_DEPTH
        → Transfers (Insn.Call CallKind.Kernel imm) shapes ctx_len a (after_lock a) None }
{}

/// An unlock inside a section transfers: the outermost ends all that may be an element of a hash map, in registers
/// and in cells.
pub fn unlock_transfers()
    ensures { (imm : ℤ) (shapes : List MapShape) (ctx_len : ℕ) (a : AbsState)
        → kernel_function_of imm ≡ Some KernelFunction.ReadUnlock → 0 < a.depth
        → Transfers (Insn.Call CallKind.Kernel imm) shapes ctx_len a (after_unlock shapes a) None }
{}

/// A lookup inside a section, or in an array, transfers: r0 may be null after it, with an identity that nothing had.
pub fn lookup_transfers()
    ensures { (imm : ℤ) (shapes : List MapShape) (ctx_len : ℕ) (a : AbsState) (map id : ℕ)
        (shape : MapShape) → helper_of imm ≡ Some Helper.Lookup
        → (0 < a.depth) ⊎ (shape.kind ≡ MapKind.Array) → HasMap shapes a map shape
        → HasBytes a 2 shape.key_len → IsFresh id a
        → Transfers (Insn.Call CallKind.Helper imm) shapes ctx_len a
        (after_call (MaybeNull map id) a) None }
{}

/// A delete transfers: the elements that the run holds it holds after it too.
pub fn delete_transfers()
    ensures { (imm : ℤ) (shapes : List MapShape) (ctx_len : ℕ) (a : AbsState) (map : ℕ)
        (shape : MapShape) (t : Scalar) → ((n : ℕ) → n < 2 ^ 64 → Holds t n)
        → HasMap shapes a map shape → HasBytes a 2 shape.key_len
        → helper_of imm ≡ Some Helper.Delete
        → Transfers (Insn.Call CallKind.Helper imm) shapes ctx_len a (after_call (Num t) a) None }
{}

/// An update transfers: the elements that the run holds it holds after it too, and the new value is bytes.
pub fn update_transfers()
    ensures { (imm : ℤ) (shapes : List MapShape) (ctx_len : ℕ) (a : AbsState) (map : ℕ)
        (shape : MapShape) (t : Scalar) → ((n : ℕ) → n < 2 ^ 64 → Holds t n)
        → HasMap shapes a map shape → HasBytes a 2 shape.key_len → HasBytes a 3 shape.value_len
        → (q : Scalar) → a.regs 4 ≡ Num q → helper_of imm ≡ Some Helper.Update
        → Transfers (Insn.Call CallKind.Helper imm) shapes ctx_len a (after_call (Num t) a) None }
{}

/// A test for null that jumps where the register is null transfers: either way tells what the register is.
pub fn equal_transfers()
    ensures { (shapes : List MapShape) (ctx_len dst : ℕ) (offset : ℤ) (map id : ℕ) (a : AbsState)
        (z origin : Scalar)
        → Holds z 0 → HasOffset origin (pos 0) → a.regs dst ≡ MaybeNull map id
        → Transfers
        (Insn.JumpIf Condition.Equal Size.Word64 dst (Operand.Immediate (pos 0)) offset)
        shapes ctx_len a (when_there id origin a) (Some (when_null id z a)) }
{}

/// A test for null that jumps where the register isn't null transfers: either way tells what the register is.
pub fn not_equal_transfers()
    ensures { (shapes : List MapShape) (ctx_len dst : ℕ) (offset : ℤ) (map id : ℕ) (a : AbsState)
        (z origin : Scalar)
        → Holds z 0 → HasOffset origin (pos 0) → a.regs dst ≡ MaybeNull map id
        → Transfers
        (Insn.JumpIf Condition.NotEqual Size.Word64 dst (Operand.Immediate (pos 0)) offset)
        shapes ctx_len a (when_null id z a) (Some (when_there id origin a)) }
{}

/// A load from an element transfers: the register is a number of so many bytes after it.
pub fn load_transfers()
    ensures { (width : Width) (dst src : ℕ) (offset : ℤ) (shapes : List MapShape) (ctx_len : ℕ)
        (a : AbsState) (map : ℕ) (shape : MapShape) (scalar t : Scalar)
        → a.regs src ≡ ValueAt map scalar → slice_get shapes map ≡ Some shape
        → IsAlwaysInside scalar (byte_count width) offset shape.value_len → (10 ≡ dst → ⊥)
        → ((n : ℕ) → n < 256 ^ byte_count width → Holds t n)
        → Transfers (Insn.Load width dst src offset) shapes ctx_len a
        (with_kind dst (Num t) a) None }
{}

/// A store of a number to an element transfers, and what is known stays.
pub fn store_transfers()
    ensures { (width : Width) (dst : ℕ) (offset : ℤ) (src : Operand) (shapes : List MapShape)
        (ctx_len : ℕ) (a : AbsState) (map : ℕ) (shape : MapShape) (scalar : Scalar)
        → a.regs dst ≡ ValueAt map scalar → IsNumberOperand a src
        → slice_get shapes map ≡ Some shape
        → IsAlwaysInside scalar (byte_count width) offset shape.value_len
        → Transfers (Insn.Store width dst offset src) shapes ctx_len a a None }
{}

/// A load with sign extension from an element transfers: the register is the extended number after it.
pub fn load_signed_transfers()
    ensures { (width : SignedWidth) (dst src : ℕ) (offset : ℤ) (shapes : List MapShape)
        (ctx_len : ℕ) (a : AbsState) (map : ℕ) (shape : MapShape) (scalar t : Scalar)
        → a.regs src ≡ ValueAt map scalar → slice_get shapes map ≡ Some shape
        → IsAlwaysInside scalar (byte_count (unsigned_width width)) offset shape.value_len
        → (10 ≡ dst → ⊥)
        → ((n : ℕ) → n < 256 ^ byte_count (unsigned_width width)
        → (loaded_signed width n < 2 ^ 64) × Holds t (loaded_signed width n))
        → Transfers (Insn.LoadSigned width dst src offset) shapes ctx_len a
        (with_kind dst (Num t) a) None }
{}

/// A store of eight bytes to the frame, of a value of any written kind, transfers: the cells have its parts.
pub fn spill_transfers()
    ensures { (dst src : ℕ) (offset o : ℤ) (at : ℕ) (shapes : List MapShape) (ctx_len : ℕ)
        (a : AbsState) (kind : Kind) → a.regs dst ≡ FrameAt o
        → region_offset FRAME_BYTES 8 (o +ℤ offset) ≡ Some at → a.regs src ≡ kind → IsWritten kind
        → Transfers (Insn.Store Width.Eight dst offset (Operand.Register src)) shapes ctx_len a
        (with_cells at 8 (PartCell kind) a) None }
{}

/// A load of the eight parts of a stored reference, or of what may be null, transfers: the register has its kind.
pub fn fill_transfers()
    ensures { (dst src : ℕ) (offset o : ℤ) (at : ℕ) (shapes : List MapShape) (ctx_len : ℕ)
        (a : AbsState) (kind : Kind) → a.regs src ≡ FrameAt o
        → region_offset FRAME_BYTES 8 (o +ℤ offset) ≡ Some at
        → ((j : ℕ) → j < 8 → a.cells (at + j) ≡ PartCell kind) → IsPointer kind → (10 ≡ dst → ⊥)
        → Transfers (Insn.Load Width.Eight dst src offset) shapes ctx_len a
        (with_kind dst kind a) None }
{}

/// A plan that is kept instruction by instruction is closed under the machine's steps.
pub fn kept_is_closed()
    ensures { (code : List Insn) (shapes : List MapShape) (ctx_len : ℕ) (plan : Plan)
        → IsPlanKept code shapes ctx_len plan → IsClosed code shapes ctx_len plan }
{}

/// At the start of verified programs, with maps of shapes that there may be, the machine is well.
pub fn starts_well()
    ensures { (shapes : List MapShape) (programs : List Loaded) → AreShapes shapes
        → AreVerified shapes programs → IsWell (start_machine shapes programs) }
{}

/// A well machine stays well, whatever event comes and whatever it answers.
pub fn keeps_well()
    ensures { (m new : Machine) (event : Event) (answer : Answer) → IsWell m → IsReal event
        → DoesEvent m event answer new → IsWell new }
{}

/// In a well machine each run that hasn't ended has a step.
pub fn well_never_stuck()
    ensures { (m : Machine) → IsWell m → NeverStuck m }
{}

/// Each reached state of verified programs is well.
pub fn reached_is_well()
    ensures { (shapes : List MapShape) (programs : List Loaded) (s : Schedule)
        → AreVerified shapes programs → IsReachedSchedule shapes programs s → IsWell s.machine }
{}

/// In a well machine a run that has not ended is described by whatever verifies its program against the shapes
/// of the program's maps.
pub fn each_plan_describes()
    ensures { (m : Machine) (r : ℕ) (run : Run) → IsWell m → run_at m.runs r ≡ Some run
        → run.exit ≡ None → (shapes : List MapShape)
        → AreMapsBound shapes run.program.maps m.store.maps
        → (v : IsVerified run.program.code shapes run.program.context_len)
        → (k : ℕ) × IsPlanned run.program.code v.plan k (scene_of m.store run) run.state }
{}

/// No state of a history from a well state is stuck.
pub fn never_stuck_along()
    ensures { (m : Machine) (events : List Event) (answers : List Answer) (states : List Machine)
        → IsWell m → AreReal events → IsHistory m events answers states
        → AllStates NeverStuck (m ∷ states) }
{}

/// No run is stuck in a history of what a world tracks.
pub fn tracked_never_stuck()
    ensures { (w : WorldView) (events : List Event) (answers : List Answer)
        → AreVerified (shapes_of w) w.programs → AreReal events
        → AreNeverStuck Tracks w events answers }
{}

/// In a history from a well state, what a run has moved by the answers is less than its program is long.
pub fn exits_in_time_along()
    ensures { (m : Machine) (events : List Event) (answers : List Answer) (states : List Machine)
        → IsWell m → AreReal events → IsHistory m events answers states
        → ExitsInTime m events answers states }
{}

/// Runs exit in time in a history of what a world tracks, also those that were there before it.
pub fn tracked_exits_in_time()
    ensures { (w : WorldView) (events : List Event) (answers : List Answer)
        → AreVerified (shapes_of w) w.programs → AreReal events
        → AllExitInTime Tracks w events answers }
{}

/// In a well machine the offsets of all references that unfinished runs have, in registers and in their frames, are near.
pub fn well_is_near()
    ensures { (m : Machine) → IsWell m → IsNearMachine m }
{}

/// All references of unfinished runs are near in each state of a history of what a world tracks.
pub fn tracked_is_near()
    ensures { (w : WorldView) (events : List Event) (answers : List Answer)
        → AreVerified (shapes_of w) w.programs → AreReal events → (m : Machine) → Tracks w m
        → (states : List Machine) → IsHistory m events answers states
        → AllStates IsNearMachine (m ∷ states) }
{}

/// Two near references with one word name one location: of one region or map slot, at one offset.
pub fn near_references_differ()
    ensures { (slots : List ℕ) (es : List Element) (r q : Reference) (w : ℕ) → IsNearReference r
        → IsNearReference q → IsWithinLimits slots es r → IsWithinLimits slots es q
        → IsReferenceWord (element_bases slots es) r w
        → IsReferenceWord (element_bases slots es) q w
        → named_location slots es r ≡ named_location slots es q }
{}

/// A program that looks up a key in a section, and loads from the value where there is one, is verified.
pub fn lookup_is_verified()
    ensures { (any : Scalar) → ((n : ℕ) → n < 2 ^ 64 → Holds any n)
        → IsVerified lookup_and_load (example_shape ∷ []) 0 }
{}

/// With the program that looks up a key, and whatever the control plane does, no run is ever stuck.
pub fn lookup_never_stuck()
    ensures { (any : Scalar) → ((n : ℕ) → n < 2 ^ 64 → Holds any n) → (s : Schedule)
        → IsReachedSchedule (example_shape ∷ [])
        (lookup_program ∷ []) s
        → NeverStuck s.machine }
{}

/// Outside every section a register that is known to be an element is one of an array.
pub fn array_outside()
    ensures { (a : AbsState) (c : Scene) (m : State) (r map : ℕ) (s : Scalar) → Describes a c m
        → a.depth ≡ 0 → a.regs r ≡ ValueAt map s → IsArrayMap c map }
{}

/// Outside every section what was stored in the frame, and is known to be an element, is one of an array.
pub fn array_cell_outside()
    ensures { (a : AbsState) (c : Scene) (m : State) (k map : ℕ) (s : Scalar) → Describes a c m
        → a.depth ≡ 0 → a.cells k ≡ PartCell (ValueAt map s) → IsArrayMap c map }
{}

/// Where a program exits on a context whatever other actors do, it has no other exit: no run of it, among maps of any
/// shapes for which it may have been verified, exits after another number of steps or with another value.
pub fn one_exit()
    ensures steps { (shapes : List MapShape) (program : Loaded) (context : List ℕ)
        (s t n k : ℕ) → ExitsWith program context s n → MayExitWith shapes program context t k
        → s ≡ t }
    ensures value { (shapes : List MapShape) (program : Loaded) (context : List ℕ)
        (s t n k : ℕ) → ExitsWith program context s n → MayExitWith shapes program context t k
        → n ≡ k }
{}

/// A program without map references that may exit does so whatever other actors do.
pub fn exits_alone()
    ensures { (shapes : List MapShape) (program : Loaded) (context : List ℕ) (s n : ℕ) →
        HasNoMaps program.code → MayExitWith shapes program context s n →
        ExitsWith program context s n }
{}
