//! The state of a plain run.
ghost use Rattle.std.specs.Prelude.{◌≡◌, ℕ, ◌<◌};
ghost use Rattle.bpf_model.specs.declared.limits.TheConstants.{FRAME_BYTES};
ghost use Rattle.bpf_model.specs.declared.value.Cell.TheVariants as cells;
ghost use Rattle.bpf_model.specs.Operand.{operand_value};
ghost use Rattle.bpf_model.specs.Step.{entry};
ghost use Rattle.reference_interpreter.specs.Plain.{plain_state_of, cells_of};

use alu::immediate;
use bpf_model::{Cell, FRAME_BYTES, Operand, REGISTERS, Reference, Reg, Value};

/// What a step came to: the run goes on, it has exited with this value, it is stuck, or a register would
/// hold a reference whose offset leaves 64 bits.
#[derive(Clone, Copy, Debug, PartialEq, Eq)]
pub enum Progress {
    Moved,
    Exited(u64),
    Stuck,
    OutOfRange,
}

/// A run that stands at this slot or past it is given up: no program is as long.
pub const MAX_PLACE: usize = 1 << 40;

/// A run with values of known kinds: `REGISTERS` registers, the frame's `FRAME_BYTES` cells, and the slot
/// where the next instruction begins.
#[derive(Drop)]
pub struct PlainRun {
    pub(crate) regs: [Value; REGISTERS],
    pub(crate) frame: [Cell; FRAME_BYTES],
    pub(crate) place: usize,
}

fn clear(frame: &mut [Cell])
    ensures { (k : ℕ) → cells_of frame.new k ≡ cells.Unwritten }
{
    for cell in frame.iter_mut() {
        *cell = Cell::Unwritten;
    }
}

/// A frame of which nothing is written.
fn empty_frame() -> [Cell; FRAME_BYTES]
    ensures { (k : ℕ) → cells_of result k ≡ cells.Unwritten }
{
    let mut frame = [Cell::Unwritten; FRAME_BYTES];
    clear(&mut frame);
    frame
}

impl PlainRun {
    /// A run at the entry: r1 is the context, r10 the end of the frame, and nothing else is written.
    pub fn entry() -> PlainRun
        ensures { plain_state_of result ≡ entry }
    {
        PlainRun {
            regs: [
                Value::Nothing,
                Value::Pointer(Reference::Ctx(0)),
                Value::Nothing,
                Value::Nothing,
                Value::Nothing,
                Value::Nothing,
                Value::Nothing,
                Value::Nothing,
                Value::Nothing,
                Value::Nothing,
                Value::Pointer(Reference::Frame(FRAME_BYTES as i64)),
            ],
            frame: empty_frame(),
            place: 0,
        }
    }

    /// What a register holds.
    pub fn register(&self, r: Reg) -> Value
        ensures { result ≡ (plain_state_of self.now).regs r }
    {
        self.regs[r.index()]
    }

    /// A cell of the frame, by its offset from the frame's start.
    pub fn cell(&self, offset: usize) -> Cell
        requires { offset < FRAME_BYTES }
        ensures { result ≡ (plain_state_of self.now).frame offset }
    {
        self.frame[offset]
    }

    /// The slot where the next instruction begins.
    pub fn place(&self) -> usize
        ensures { result ≡ (plain_state_of self.now).place }
    {
        self.place
    }

    /// The value of a second operand.
    pub fn operand(&self, src: &Operand) -> Value
        ensures { result ≡ operand_value src.now (plain_state_of self.now).regs }
    {
        match src {
            Operand::Register(r) => self.register(*r),
            Operand::Immediate(imm) => Value::Number(immediate(*imm)),
        }
    }
}
