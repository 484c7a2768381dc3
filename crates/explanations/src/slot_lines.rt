//! The lines of a program file's text in which slots stand.

use program_files::HEADING;
use std::io;
use std::io::Write;

/// How many slots stand in a line, which has one more byte behind each but the last.
fn slots_in(line: &[u8]) -> usize {
    line.len().saturating_add(1) / 17
}

/// Writes in which line of a program file's text a slot stands, and where among that line's slots.
pub fn write_slot_line<W: Write>(text: &[u8], slot: usize, out: &mut W) -> io::Result<()> {
    if !text.starts_with(HEADING) {
        return Ok(());
    }
    let (mut line, mut above): (usize, usize) = (0, 0);
    let mut is_code = false;
    for bytes in text.split(|byte| *byte == b'\n') {
        line = line.saturating_add(1);
        let among = if is_code { slots_in(bytes) } else { 0 };
        if above.saturating_add(among) > slot {
            write!(out, "  line {line} of the file")?;
            if among > 1 {
                let number = slot.saturating_sub(above).saturating_add(1);
                write!(out, ", slot {number} of {among} there")?;
            }
            return writeln!(out);
        }
        above = above.saturating_add(among);
        is_code = is_code || bytes == b"code".as_slice();
    }
    Ok(())
}
