//! The steps of a plain run.
ghost use Rattle.std.specs.Prelude.{◌≡◌, ℕ, ◌+◌, ◌^◌, ◌<◌, ◌≤◌, length, List, MatchOption, Some, None};
ghost use Rattle.bpf_model.specs.declared.insn.Insn.{Insn};
ghost use Rattle.bpf_model.specs.declared.limits.TheConstants.{CTX_BYTES, MAX_SLOTS};
ghost use Rattle.bpf_model.specs.Access.{byte_count};
ghost use Rattle.bpf_model.specs.Places.{slot_total};
ghost use Rattle.bpf_model.specs.Step.{Environment, sets, forward, jumps_by, load_from, store_to, stored, insn_at as insn_of};
ghost use Rattle.bpf_model.specs.Step.{returns};
ghost use Rattle.reference_interpreter.specs.declared.plain_run.TheConstants.{MAX_PLACE};
ghost use Rattle.reference_interpreter.specs.Plain.{plain_state_of, Comes, PerformsInsn, TellsStep};
ghost use Rattle.bpf_model.specs.Step.{environment_of};

use crate::memory::{number_in, read, region_offset, write};
use crate::plain_run::{PlainRun, Progress};
use crate::value::{Computed, compute, decided, number};
use alu::{load_signed, unary};
use bpf_model::{
    AluOp, Condition, FRAME_BYTES, Insn, Operand, Reference, Reg, SignedWidth, Size, UnaryOp,
    Value, Width,
};

/// The instruction that begins at a slot, where one does.
pub fn insn_at(program: &[Insn], place: usize) -> Option<&Insn>
    ensures { MatchOption result (insn_of program.now place ≡ None)
        (λ i. insn_of program.now place ≡ Some i.now) }
{
    let mut left = place;
    for insn in program {
        if left == 0 {
            return Some(insn);
        }
        let slots = insn.slot_count();
        if left < slots {
            return None;
        }
        left -= slots;
    }
    None
}

impl PlainRun {
    /// Sets a register, after an instruction of so many slots. r10 is never set: that is stuck.
    pub fn set(&mut self, slots: usize, dst: Reg, v: Value) -> Progress
        requires { self.old.place + slots < 2 ^ 60 }
        ensures { Comes (sets slots dst v (plain_state_of self.old)) result self.old self.new }
    {
        if dst.number() == 10 {
            return Progress::Stuck;
        }
        self.regs[dst.index()] = v;
        self.place += slots;
        Progress::Moved
    }

    fn alu(&mut self, op: AluOp, size: Size, dst: Reg, src: &Operand) -> Progress
        requires { self.old.place < MAX_PLACE }
        ensures { (env : Environment) →
            PerformsInsn (Insn.Alu op size dst src.now) env self.old result self.new }
    {
        match compute(size, op, self.register(dst), self.operand(src)) {
            Computed::Known(v) => self.set(1, dst, v),
            Computed::Stuck => Progress::Stuck,
            Computed::OutOfRange => {
                if dst.number() == 10 {
                    Progress::Stuck
                } else {
                    Progress::OutOfRange
                }
            }
        }
    }

    fn unary(&mut self, op: &UnaryOp, dst: Reg) -> Progress
        requires { self.old.place < MAX_PLACE }
        ensures { (env : Environment) →
            PerformsInsn (Insn.Unary op.now dst) env self.old result self.new }
    {
        match number(self.register(op.source(dst))) {
            Some(n) => self.set(1, dst, Value::Number(unary(*op, n))),
            None => Progress::Stuck,
        }
    }

    fn load_map(&mut self, dst: Reg, map: i32, maps: usize) -> Progress
        requires { self.old.place < MAX_PLACE }
        ensures { (context : List ℕ) →
            PerformsInsn (Insn.LoadMap dst map) (environment_of context maps) self.old result
            self.new }
    {
        if map < 0 || map as usize >= maps {
            return Progress::Stuck;
        }
        self.set(2, dst, Value::Pointer(Reference::MapRef(map as usize)))
    }

    fn jump(&mut self, offset: i32) -> Progress
        requires { self.old.place < MAX_PLACE }
        ensures { Comes (jumps_by offset (plain_state_of self.old)) result self.old self.new }
    {
        let target = self.place as i64 + 1 + i64::from(offset);
        if target < 0 {
            return Progress::Stuck;
        }
        self.place = target as usize;
        Progress::Moved
    }

    fn jump_if(
        &mut self,
        condition: Condition,
        size: Size,
        dst: Reg,
        src: &Operand,
        offset: i16,
    ) -> Progress
        requires { self.old.place < MAX_PLACE }
        ensures { (env : Environment) →
            PerformsInsn (Insn.JumpIf condition size dst src.now offset) env self.old result
            self.new }
    {
        match decided(condition, size, src, self.register(dst), self.operand(src)) {
            Some(true) => self.jump(i32::from(offset)),
            Some(false) => {
                self.place += 1;
                Progress::Moved
            }
            None => Progress::Stuck,
        }
    }

    fn load_from(&self, context: &[u8], width: Width, offset: i16, base: Value) -> Option<Value>
        requires { length context.now ≤ CTX_BYTES }
        ensures { (maps : ℕ) → result
            ≡ load_from (environment_of context.now maps) (plain_state_of self.now)
            (byte_count width) offset
            base }
    {
        match base {
            Value::Pointer(Reference::Ctx(o)) => {
                let at = region_offset(context.len(), width, o, offset)?;
                let n = number_in(context, at, width.bytes())?;
                Some(Value::Number(n))
            }
            Value::Pointer(Reference::Frame(o)) => {
                let at = region_offset(FRAME_BYTES, width, o, offset)?;
                read(&self.frame, at, width)
            }
            _ => None,
        }
    }

    fn load(&mut self, context: &[u8], width: Width, dst: Reg, src: Reg, offset: i16) -> Progress
        requires place { self.old.place < MAX_PLACE }
        requires context { length context.now ≤ CTX_BYTES }
        ensures { (maps : ℕ) →
            PerformsInsn (Insn.Load width dst src offset) (environment_of context.now maps)
            self.old result
            self.new }
    {
        match self.load_from(context, width, offset, self.register(src)) {
            Some(v) => self.set(1, dst, v),
            None => Progress::Stuck,
        }
    }

    fn load_signed(
        &mut self,
        context: &[u8],
        width: SignedWidth,
        dst: Reg,
        src: Reg,
        offset: i16,
    ) -> Progress
        requires place { self.old.place < MAX_PLACE }
        requires context { length context.now ≤ CTX_BYTES }
        ensures { (maps : ℕ) →
            PerformsInsn (Insn.LoadSigned width dst src offset) (environment_of context.now maps)
            self.old
            result self.new }
    {
        match self.load_from(context, width.width(), offset, self.register(src)) {
            Some(v) => match number(v) {
                Some(n) => self.set(1, dst, Value::Number(load_signed(width, n))),
                None => Progress::Stuck,
            },
            None => Progress::Stuck,
        }
    }

    fn store_through(&mut self, width: Width, offset: i16, v: Value, r: Reference) -> Progress
        requires { self.old.place < MAX_PLACE }
        ensures { Comes (stored (plain_state_of self.old) (byte_count width) offset v r) result
            self.old
            self.new }
    {
        let o = match r {
            Reference::Frame(o) => o,
            _ => return Progress::Stuck,
        };
        match region_offset(FRAME_BYTES, width, o, offset) {
            Some(at) if write(&mut self.frame, at, width, v) => {
                self.place += 1;
                Progress::Moved
            }
            _ => Progress::Stuck,
        }
    }

    fn store(&mut self, width: Width, offset: i16, v: Value, base: Value) -> Progress
        requires { self.old.place < MAX_PLACE }
        ensures { Comes (store_to (plain_state_of self.old) (byte_count width) offset v base) result
            self.old self.new }
    {
        match base {
            Value::Pointer(r) => self.store_through(width, offset, v, r),
            _ => Progress::Stuck,
        }
    }

    fn exit(&self) -> Progress
        ensures { (env : Environment) → PerformsInsn Insn.Exit env self.now result self.now }
    {
        match number(self.register(Reg::R0)) {
            Some(n) => Progress::Exited(n),
            None => Progress::Stuck,
        }
    }

    /// What an instruction does to the run by itself, on this context and with so many maps.
    /// `Stuck` where it does nothing, as a call; `OutOfRange` where a register would hold a
    /// reference whose offset leaves 64 bits. Only a run that moves changes.
    pub fn perform(&mut self, insn: &Insn, context: &[u8], maps: usize) -> Progress
        requires place { self.old.place < MAX_PLACE }
        requires context { length context.now ≤ CTX_BYTES }
        ensures { PerformsInsn insn.now (environment_of context.now maps) self.old result
            self.new }
    {
        match insn {
            Insn::Alu { op, size, dst, src } => self.alu(*op, *size, *dst, src),
            Insn::Unary { op, dst } => self.unary(op, *dst),
            Insn::LoadNumber { dst, number } => self.set(2, *dst, Value::Number(*number)),
            Insn::LoadMap { dst, map } => self.load_map(*dst, *map, maps),
            Insn::Jump { offset } => self.jump(i32::from(*offset)),
            Insn::JumpLong { imm } => self.jump(*imm),
            Insn::JumpIf {
                condition,
                size,
                dst,
                src,
                offset,
            } => { self.jump_if(*condition, *size, *dst, src, *offset) }
            Insn::Call { .. } => Progress::Stuck,
            Insn::Exit => self.exit(),
            Insn::Load {
                width,
                dst,
                src,
                offset,
            } => { self.load(context, *width, *dst, *src, *offset) }
            Insn::LoadSigned {
                width,
                dst,
                src,
                offset,
            } => { self.load_signed(context, *width, *dst, *src, *offset) }
            Insn::Store {
                width,
                dst,
                offset,
                src,
            } => {
                let base = self.register(*dst);
                self.store(*width, *offset, self.operand(src), base)
            }
        }
    }

    /// The next instruction is one slot further.
    pub fn forward(&mut self)
        requires { self.old.place < MAX_PLACE }
        ensures { plain_state_of self.new ≡ forward 1 (plain_state_of self.old) }
    {
        self.place += 1;
    }

    /// After a call r0 is its result and r1 to r5 hold nothing.
    pub fn return_from_call(&mut self, value: Value)
        requires { self.old.place < MAX_PLACE }
        ensures { plain_state_of self.new ≡ returns value (plain_state_of self.old) }
    {
        self.regs[0] = value;
        self.regs[1] = Value::Nothing;
        self.regs[2] = Value::Nothing;
        self.regs[3] = Value::Nothing;
        self.regs[4] = Value::Nothing;
        self.regs[5] = Value::Nothing;
        self.place += 1;
    }

    /// One step of the program on this context, with so many maps.
    ///
    /// `Stuck` where the definition has no step. `OutOfRange` where the step would leave a register with a
    /// reference whose offset does not fit 64 bits.
    pub fn step(&mut self, program: &[Insn], context: &[u8], maps: usize) -> Progress
        requires program { slot_total program.now ≤ MAX_SLOTS }
        requires context { length context.now ≤ CTX_BYTES }
        ensures { TellsStep program.now (environment_of context.now maps) self.old result
            self.new }
    {
        match insn_at(program, self.place) {
            Some(insn) => self.perform(insn, context, maps),
            None => Progress::Stuck,
        }
    }
}
