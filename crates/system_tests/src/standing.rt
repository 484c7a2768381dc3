//! A run that no world serves: it is stepped by itself, and what it asks is answered by hand.
ghost use Rattle.std.specs.Prelude.{◌≡◌, length, IfOk, IfSome};
ghost use Rattle.bpf_model.specs.View.{RunView};
ghost use Rattle.machine.specs.Standing.{AreHashMaps, Awaits, MayGive};
ghost use Rattle.verifier.specs.Checked.{Checked};

use asm::assemble;
use bpf_model::{CtxBytes, Errno, Helper, MapKind, MapShape, Reg, ret_word};
use machine::{Local, Request, Run, SLOT_BASE, delete_may_find_nothing, update_may_succeed};
use std::alloc::Global;
use std::test::Fail;
use verifier::{Verified, verify};

/// A lookup of a key of zeros in a section, and a load from what it finds.
const READER: &str = "mov64 r6, 0\n\
callbtf 1\n\
stw [r10-4], 0\n\
mov64 r2, r10\n\
add64 r2, -4\n\
ldmap r1, 0\n\
call 1\n\
jeq r0, 0, +1\n\
ldxdw r6, [r0+0]\n\
callbtf 2\n\
mov64 r0, r6\n\
exit\n";

/// An update without flags, and a delete of the same key; r0 is the sum of what both answer.
const WRITER: &str = "stw [r10-4], 5\n\
stdw [r10-16], 7\n\
mov64 r2, r10\n\
add64 r2, -4\n\
mov64 r3, r10\n\
add64 r3, -16\n\
mov64 r4, 0\n\
ldmap r1, 0\n\
call 2\n\
mov64 r6, r0\n\
mov64 r2, r10\n\
add64 r2, -4\n\
ldmap r1, 0\n\
call 3\n\
add64 r0, r6\n\
exit\n";

/// The map of both programs.
const SHAPE: MapShape = MapShape {
    kind: MapKind::Hash,
    key_len: 4,
    value_len: 8,
    entries: 4,
    spare: 4,
    reuse_limit: 100,
};

/// What each load is answered.
const LOADED: u64 = 7;

/// The word of a map slot, or null: either may be a lookup's answer.
fn element_word(helper: Helper, found: bool) -> u64
    requires { helper ≡ Helper.Lookup }
    ensures { (c : Checked) (v : RunView) → MayGive c v (Request.Call helper) result }
{
    if found {
        return SLOT_BASE;
    }
    0
}

/// What some maps answer to the call of a helper: to an update without flags 0, and to a delete the error that the key has
/// no element. `None` of an update with flags.
fn call_word(run: &Run, verified: &Verified, helper: Helper, found: bool) -> Option<u64>
    requires hash { AreHashMaps verified.now.shapes }
    requires waits { Awaits verified.now (Request.Call helper) run.now }
    ensures { IfSome result (λ word.
        MayGive verified.now run.now.view (Request.Call helper) word) }
{
    let _program = verified.program();
    match helper {
        Helper::Lookup => Some(element_word(helper, found)),
        Helper::Update => {
            update_may_succeed();
            if run.register(Reg::R4) == 0 {
                return Some(0);
            }
            None
        }
        Helper::Delete => {
            delete_may_find_nothing();
            Some(ret_word(Err(Errno::NoEntry)))
        }
    }
}

/// A word that may be the answer to what the run asks, where a lookup finds an element or none.
fn reply_to(run: &Run, verified: &Verified, request: Request, found: bool) -> Option<u64>
    requires hash { AreHashMaps verified.now.shapes }
    requires waits { Awaits verified.now request run.now }
    ensures { IfSome result (λ word. MayGive verified.now run.now.view request word) }
{
    match request {
        Request::Load { .. } => Some(LOADED),
        Request::Call { helper } => call_word(run, verified, helper, found),
        Request::Store { .. } | Request::Enter | Request::Leave => Some(0),
    }
}

/// The exit value of a run that is answered so, after at most so many steps.
fn value_of(verified: &Verified, ctx: &CtxBytes, found: bool) -> Option<u64>
    requires hash { AreHashMaps verified.now.shapes }
    requires context { length ctx.now.items ≡ verified.now.ctx_len }
{
    let mut run = Run::start(verified, 0, ctx);
    for _ in 0..100 {
        match run.local_step(verified) {
            Local::Moved => {}
            Local::Exit(value) => return Some(value),
            Local::Shared(request) => {
                let word = reply_to(&run, verified, request, found)?;
                run.resume(verified, word);
            }
        }
    }
    None
}

/// The program of this text, verified for a map of the shape and no context.
fn verified_of(alloc: Global, text: &str) -> Result<Verified, Fail>
    ensures hash { IfOk result (λ v. AreHashMaps v.shapes) }
    ensures context { IfOk result (λ v. v.ctx_len ≡ 0) }
{
    let program = assemble(alloc, text)?;
    let verified = verify(alloc, program, &[SHAPE], 0)?;
    Ok(verified)
}

#[test]
fn runs_without_a_world(rt: HostRuntime) -> Result<(), Fail> {
    // The last is 0 of the update, and -2 of the delete.
    let rows = [
        (READER, true, 7),
        (READER, false, 0),
        (WRITER, false, 18446744073709551614),
    ];
    for (text, found, value) in rows {
        let verified = verified_of(rt.alloc(), text)?;
        assert_eq!(rt; value_of(&verified, &CtxBytes::new(), found), Some(value));
    }
    Ok(())
}
