//! Loads of a packet's bytes that may lie past those which a context has.

use classic::{ClassicInsn, ClassicReg, Data, Datum, LoadSize, PACKET_BYTES};

/// The length of a header is four times a number below 16.
const LONGEST_HEADER: u64 = 60;

/// The most that X can be in a program, where its instructions tell.
fn most_of_x(program: &[ClassicInsn]) -> Option<u64> {
    let mut most = 0;
    for insn in program {
        let number = match insn {
            ClassicInsn::Load {
                into: ClassicReg::X,
                datum,
            } => match datum {
                Datum::Number(number) => u64::from(*number),
                Datum::HeaderLength { .. } => LONGEST_HEADER,
                _ => return None,
            },
            ClassicInsn::CopyToX => return None,
            _ => 0,
        };
        most = number.max(most);
    }
    Some(most)
}

/// Whether the instruction may load past a context's bytes, where X is so much at most.
fn may_be_beyond(insn: &ClassicInsn, most: Option<u64>) -> bool {
    let ClassicInsn::Load {
        datum: Datum::Indexed { size, at },
        ..
    } = insn
    else {
        return false;
    };
    let width = match size {
        LoadSize::Byte => 1,
        LoadSize::Half => 2,
        LoadSize::Word => 4,
    };
    most.is_none_or(|most| {
        most.saturating_add(u64::from(*at)).saturating_add(width) > PACKET_BYTES as u64
    })
}

/// Of a packets' filter, the first instruction that loads at X and a number, which may lie past the bytes of a packet that a
/// context has.
pub(crate) fn load_beyond(kind: Data, program: &[ClassicInsn]) -> Option<usize> {
    if kind == Data::Seccomp {
        return None;
    }
    let most = most_of_x(program);
    program.iter().position(|insn| may_be_beyond(insn, most))
}
