//! What no words and no script of `checks` lead to: the texts of some answers, and what is said where memory runs out.
use bpf_model::{Given, ProgId, Stat, array_of};
use commands::{WordsFault, no_command};
use explanations::meaning_of;
use program_files::Verdict;
use script_lines::{Name, Reply, write_reply};
use std::test::Fail;

const STAT: Stat = Stat {
    linked: 1,
    unlinked: 20,
    given: 300,
    worn: 4,
    runs: 64,
    open: 0,
};

#[test]
fn answers(rt: HostRuntime) -> Result<(), Fail> {
    let worn = Reply::Reaped {
        map: Name::new(b"per_key"),
        key: array_of(&[0xaf]),
        given: Given::Worn,
    };
    let far = Reply::Refused {
        code: 33,
        slot: Some(4095),
    };
    let mut out = Vec::new(rt.alloc());
    for reply in [
        Reply::Prog(ProgId::new(63)),
        Reply::Value(array_of(&[])),
        Reply::Stat(STAT),
        worn,
        far,
    ] {
        write_reply(&reply, &mut out)?;
    }
    let lines = "prog 63\nvalue -\nstat linked 1 unlinked 20 given 300 worn 4 runs 64 open 0\n\
reaped per_key af worn\nrefused 33 at 4095\n";
    assert_eq!(rt; out.as_slice(), lines.as_bytes());
    Ok(())
}

#[test]
fn want_of_memory(rt: HostRuntime) {
    let mut err: Vec<u8> = Vec::new(rt.alloc());
    assert_eq!(rt; no_command(&mut err, &WordsFault::Memory), 3);
    assert_eq!(rt; err.as_slice(), b"fault 13\n".as_slice());
    assert!(rt; meaning_of(&Verdict::Memory).is_none());
}
