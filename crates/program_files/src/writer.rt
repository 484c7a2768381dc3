//! Writes program files.
ghost use Rattle.std.specs.Prelude.{◌≡◌, ◌++◌, IfOk, IfErr, OnOk};
ghost use Rattle.program_files.specs.Heads.{file_content, file_text, slot_lines};
ghost use Rattle.program_files.specs.Loaded.{loaded_content};
ghost use Rattle.program_files.specs.ProgramFile.{FileSays};

use crate::head::Head;
use crate::loader::{HEADING, LoadFault, ProgramFile, load};
use insn_codec::{Program, encode};
use std::alloc::{AllocError, Global};

/// How many hexadecimal digits a slot has.
const SLOT_DIGITS: usize = 16;

/// Adds the slots of a program, a line of digits each.
fn add_slots(alloc: Global, file: &mut Vec<u8>, program: &Program) -> Result<(), AllocError>
    ensures { OnOk result (file.new.items ≡ file.old.items ++ slot_lines program.now) }
{
    let code = encode(alloc, program)?;
    let digits = hex::encode(alloc, code.as_slice())?;
    let mut rest = digits.as_bytes();
    while !rest.is_empty() {
        let (slot, more) = rest.split_at(SLOT_DIGITS);
        file.extend_from_slice(slot)?;
        file.push(b'\n')?;
        rest = more;
    }
    Ok(())
}

/// The program file that has this head and says this program: the heading, the lines of the head, `code`, and a line of
/// 16 hexadecimal digits for each slot.
///
/// # Errors
///
/// `AllocError` where memory runs out.
#[tactic(auto, using(std::proofs::Common::append_assoc))]
pub fn write_file(alloc: Global, head: &Head, program: &Program) -> Result<Vec<u8>, AllocError>
    ensures written { IfOk result (λ file. file.items ≡ file_text head.now.text program.now) }
    // It says the head's context and maps, and the program.
    ensures says { IfOk result (λ file. FileSays file.items (file_content head.now program.now)) }
{
    head.says(program);
    let mut file = Vec::from_slice(alloc, HEADING)?;
    file.extend_from_slice(head.lines())?;
    file.extend_from_slice(b"code\n")?;
    add_slots(alloc, &mut file, program)?;
    Ok(file)
}

/// Writes a program file and reads it. Where neither fails, it says what it was made of. (The clause is of this body; it
/// follows from `says` of `write_file` and `only` of `load`.)
///
/// # Errors
///
/// `Memory` where memory runs out.
pub fn load_undoes_write(
    alloc: Global,
    head: &Head,
    program: &Program,
) -> Result<ProgramFile, LoadFault>
    ensures same { IfOk result (λ f. loaded_content f ≡ file_content head.now program.now) }
    ensures fault { IfErr result (λ e. e ≡ LoadFault.Memory) }
{
    let file = write_file(alloc, head, program)?;
    load(alloc, &file)
}
