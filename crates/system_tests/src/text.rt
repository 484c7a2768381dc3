//! Texts of the fixed language: what they are read as, and how they are refused.
use asm::{AsmFault, assemble};
use disasm::disassemble;
use insn_codec::{DecodeFault, InsnFlaw};
use std::alloc::Global;
use std::test::Fail;

/// Texts, in which a bar stands for a line feed, each with the lines of its program, or with the number and the line of its fault:
/// 14 for a line of no form, 15 for one with something out of its range, 2 where there is none.
const TEXTS: &str = "\
; a comment ||mov64 r0, 1|;||exit = mov64 r0, 1|exit|
 = 2 at None
;| = 2 at None
mov64 r0 = 14 at Some(1)
mov64 r0, 1, 2 = 14 at Some(1)
exit r0 = 14 at Some(1)
ja 1 = 14 at Some(1)
ja -0 = 14 at Some(1)
mov64 r0, +1 = 14 at Some(1)
mov64 r0, 01 = 14 at Some(1)
mov64 r01, 1 = 14 at Some(1)
stw [r0+0], r1 = 14 at Some(1)
stxw [r0+0], 1 = 14 at Some(1)
ldxw r0, [r1] = 14 at Some(1)
le24 r0 = 14 at Some(1)
jeq64 r0, 1, +1 = 14 at Some(1)
MOV64 r0, 1 = 14 at Some(1)
mov64  r0, 1 = 14 at Some(1)
mov64 r0,1 = 14 at Some(1)
mov64 r0, 0x10 = 14 at Some(1)
exit|\rexit = 14 at Some(2)
mov64 r11, 1 = 15 at Some(1)
mov64 r99999999999999999999, 1 = 15 at Some(1)
add64 r0, 2147483648 = 15 at Some(1)
movsx32 r0, r1, 32 = 15 at Some(1)
ja +32768 = 15 at Some(1)
lddw r0, 18446744073709551616 = 15 at Some(1)
ldxb r0, [r1-32769] = 15 at Some(1)
exit|;||mov64 r11, 1|x| = 15 at Some(4)
exit|x|mov64 r11, 1| = 14 at Some(2)
mov64 r11, x = 14 at Some(1)
";

/// What a text is read as.
fn read_as(alloc: Global, text: &str) -> Result<String, Fail> {
    match assemble(alloc, &text.replace(alloc, "|", "\n")?) {
        Ok(program) => Ok(disassemble(alloc, &program)?.replace(alloc, "\n", "|")?),
        Err(fault) => Ok(format!(in alloc; "{} at {:?}", fault.code(), fault.line())?),
    }
}

#[test]
fn each_fault(rt: HostRuntime) -> Result<(), Fail> {
    for line in TEXTS.lines() {
        let (text, wanted) = line.split_once(" = ").unwrap_or((line, ""));
        assert_eq!(rt; read_as(rt.alloc(), text)?.as_str(), wanted, "of {text}");
    }
    Ok(())
}

#[test]
fn printed_faults(rt: HostRuntime) -> Result<(), Fail> {
    let flaw = DecodeFault::Insn {
        flaw: InsnFlaw::BadRegister,
        slot: 3,
    };
    let decoding = format!(in rt.alloc(); "{flaw}; {}", DecodeFault::TooLong)?;
    assert_eq!(rt;
        decoding.as_str(),
        "register above r10 at slot 3; there are more than 4096 slots"
    );
    let (bad, range) = (AsmFault::BadLine(3), AsmFault::BadOperand(4));
    let reading = format!(in rt.alloc(); "{bad}; {range}")?;
    assert_eq!(rt;
        reading.as_str(),
        "line 3 is no instruction; line 4 has a register or a number out of range"
    );
    Ok(())
}
