//! The script on standard input.
ghost use Rattle.std.specs.Prelude.{◌≡◌, ◌⊎◌, ℕ, IfSome};
ghost use Rattle.commands.specs.Scripts.{AnswersAll, AnswersBefore};

use crate::report::report_fault;
use control::{ScriptFault, run_script, watch_script};
use std::alloc::Global;
use std::io::{Read, Write};
use texts::Explaining;

/// Says on standard error why a script ended before its input, and answers the status.
fn report_stop<E: Write>(err: &mut E, why: ScriptFault) -> u8
    ensures status { (result ≡ 1) ⊎ (result ≡ 3) }
    ensures bad { result ≡ 1 → (line : ℕ) × (why ≡ ScriptFault.BadCommand line) }
{
    let code = why.code();
    match why {
        ScriptFault::BadCommand { line } => {
            let _ = writeln!(err, "fault {code} at {line}");
            1
        }
        _ => report_fault(err, code),
    }
}

/// Answers the script as `run_lines` does, and says in words on standard error why lines of it are refused, and why one is no
/// command.
fn run_explained<R: Read, W: Write, E: Write>(
    alloc: Global,
    input: &mut R,
    out: &mut W,
    err: &mut E,
) -> u8
    ensures status { (result ≡ 0) ⊎ (result ≡ 1) ⊎ (result ≡ 3) }
    ensures answered { result ≡ 0 → IfSome (R.remaining input.old)
        (AnswersAll (W.contents out.old) (W.contents out.new)) }
    ensures stopped { result ≡ 1 → IfSome (R.remaining input.old)
        (AnswersBefore (W.contents out.old) (W.contents out.new)) }
{
    let mut explaining = Explaining::new(alloc, err);
    match watch_script(alloc, &mut explaining, input, out) {
        Ok(()) => 0,
        Err(why) => {
            let status = report_stop(explaining.writer(), why);
            explaining.end(why);
            status
        }
    }
}

/// Answers the script that the input is on `out`, and answers the exit status: 0, 1 at a line that is no
/// command, 3 for a fault. In words it says why lines are refused where that is asked for.
pub fn run_lines<R: Read, W: Write, E: Write>(
    alloc: Global,
    in_words: bool,
    input: &mut R,
    out: &mut W,
    err: &mut E,
) -> u8
    ensures status { (result ≡ 0) ⊎ (result ≡ 1) ⊎ (result ≡ 3) }
    ensures answered { result ≡ 0 → IfSome (R.remaining input.old)
        (AnswersAll (W.contents out.old) (W.contents out.new)) }
    ensures stopped { result ≡ 1 → IfSome (R.remaining input.old)
        (AnswersBefore (W.contents out.old) (W.contents out.new)) }
{
    if in_words {
        return run_explained(alloc, input, out, err);
    }
    match run_script(alloc, input, out) {
        Ok(()) => 0,
        Err(why) => report_stop(err, why),
    }
}
