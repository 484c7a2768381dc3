//! How programs are opened, shared and closed.
ghost use Rattle.std.specs.Prelude.{◌≡◌, ◌≢◌, List, pos, neg_ℤ, Ok, Err, Some, None, IsSome, IfSome, IfOk, IfErr};
ghost use Rattle.bpf_model.specs.declared.limits.MapShape.{MapShape as ShapeOf};
ghost use Rattle.classic_program.specs.Reading.{IsListing, filters_in};
ghost use Rattle.classic_program.specs.declared.data.Data.TheVariants.{Packet, Seccomp};
ghost use Rattle.classic_program.specs.declared.sock_filter.SockFilter.{SockFilter};
ghost use Rattle.host_programs.specs.Opened.{OpenProgram, IsOfBytes, IsOfFile, IsOfClassic};
ghost use Rattle.host_programs.specs.Refusals.{IsArrayFault, IsFileFault, IsListingFault};
ghost use Rattle.host_handle.specs.Values.{program_in};
ghost use Rattle.bpfrt_c.specs.Refused.{IsBytesFaultInC, Tells};
ghost use Rattle.bpfrt_c.specs.Shapes.{AreShapesInC};

use crate::number::{EBADF, EBUSY, ENOMEM};
use crate::refusal::{Refusal, tell, tell_memory};
use crate::shape::{Shape, ShapesFault, shapes_of};
use host_handle::{Held, Host};
use host_programs::{Data, HostProgram, OpenFault, Opened};
use std::alloc::Global;
use std::sync::Arc;

/// Puts a program that was opened into a handle that holds nothing, or tells why none was.
fn put_program(
    alloc: Global,
    host: &mut Host,
    opened: Result<HostProgram, OpenFault>,
    why: &mut Refusal,
) -> i32
    requires { host.old.handle.held ≡ None }
    ensures opened { result ≡ pos 0 → (p : OpenProgram) × (opened ≡ Ok p)
        × (program_in host.new.handle.held ≡ Some p) }
    ensures kept { result ≢ pos 0 → host.new.handle.held ≡ None }
    ensures fault { result ≢ pos 0 → why.new.code ≢ 13 → Tells (λ fault. opened ≡ Err fault) why.new result }
    ensures memory { result ≢ pos 0 → why.new.code ≡ 13 → result ≡ neg_ℤ (pos 12) }
{
    let program = match opened {
        Ok(program) => program,
        Err(fault) => return tell(alloc, &fault, why),
    };
    let Ok(shared) = Arc::new(alloc, program) else {
        return tell_memory(why);
    };
    let Ok(held) = Box::new(alloc, Held::Program(Opened::of(shared))) else {
        return tell_memory(why);
    };
    host.put(held);
    0
}

/// Opens the program of these bytes (RFC 9669's encoding), for contexts of `ctx_len` bytes and for maps of these shapes.
///
/// 0, or -EBUSY where the handle is open; -EACCES where the verifier refuses the program; -EINVAL where the bytes are no program, or
/// a shape or the length is none; -ENOMEM. Of all but the first `why` says more.
#[unsafe(no_mangle)]
pub extern "C" fn bpfrt0_prog_open(
    alloc: Global,
    host: &mut Host,
    insns: &[u8],
    ctx_len: usize,
    shapes: &[Shape],
    why: &mut Refusal,
) -> i32
    ensures busy { IsSome host.old.handle.held → result ≡ neg_ℤ (pos 16) }
    ensures opened { result ≡ pos 0 → IfSome (program_in host.new.handle.held) (λ p.
        (list : List ShapeOf) × AreShapesInC shapes.now list × IsOfBytes insns.now ctx_len list p) }
    ensures open { result ≡ pos 0 → IsSome (program_in host.new.handle.held) }
    ensures kept { result ≢ pos 0 → host.new.handle.held ≡ host.old.handle.held }
    ensures fault { host.old.handle.held ≡ None → result ≢ pos 0 → why.new.code ≢ 13 →
        Tells (IsBytesFaultInC insns.now ctx_len shapes.now) why.new result }
    ensures memory { host.old.handle.held ≡ None → result ≢ pos 0 → why.new.code ≡ 13 → result ≡ neg_ℤ (pos 12) }
{
    if host.is_open() {
        return EBUSY;
    }
    let shapes = match shapes_of(alloc, shapes) {
        Ok(shapes) => shapes,
        Err(ShapesFault::Memory) => return tell_memory(why),
        Err(ShapesFault::Fault(fault)) => return tell(alloc, &fault, why),
    };
    let opened = HostProgram::from_bytes(alloc, insns, ctx_len, shapes.as_slice());
    put_program(alloc, host, opened, why)
}

/// Opens the program of a program file, for its context and its maps, as `bpfrt check` reads it; of other bytes those of a program
/// without context and maps. It answers as `bpfrt_prog_open`.
#[unsafe(no_mangle)]
pub extern "C" fn bpfrt0_prog_open_file(
    alloc: Global,
    host: &mut Host,
    text: &[u8],
    why: &mut Refusal,
) -> i32
    ensures busy { IsSome host.old.handle.held → result ≡ neg_ℤ (pos 16) }
    ensures opened { result ≡ pos 0 → IfSome (program_in host.new.handle.held) (IsOfFile text.now) }
    ensures open { result ≡ pos 0 → IsSome (program_in host.new.handle.held) }
    ensures kept { result ≢ pos 0 → host.new.handle.held ≡ host.old.handle.held }
    ensures fault { host.old.handle.held ≡ None → result ≢ pos 0 → why.new.code ≢ 13 →
        Tells (IsFileFault text.now) why.new result }
    ensures memory { host.old.handle.held ≡ None → result ≢ pos 0 → why.new.code ≡ 13 → result ≡ neg_ℤ (pos 12) }
{
    if host.is_open() {
        return EBUSY;
    }
    put_program(alloc, host, HostProgram::from_file(alloc, text), why)
}

/// Opens the filter of packets that a text lists, as `tcpdump -ddd` writes it. It answers as `bpfrt_prog_open`.
#[unsafe(no_mangle)]
pub extern "C" fn bpfrt0_prog_open_tcpdump(
    alloc: Global,
    host: &mut Host,
    text: &[u8],
    why: &mut Refusal,
) -> i32
    ensures busy { IsSome host.old.handle.held → result ≡ neg_ℤ (pos 16) }
    ensures opened { result ≡ pos 0 → IfSome (program_in host.new.handle.held) (λ p.
        (filter : List SockFilter) × IsListing text.now filter × IsOfClassic Packet filter p) }
    ensures open { result ≡ pos 0 → IsSome (program_in host.new.handle.held) }
    ensures kept { result ≢ pos 0 → host.new.handle.held ≡ host.old.handle.held }
    ensures fault { host.old.handle.held ≡ None → result ≢ pos 0 → why.new.code ≢ 13 →
        Tells (IsListingFault text.now) why.new result }
    ensures memory { host.old.handle.held ≡ None → result ≢ pos 0 → why.new.code ≡ 13 → result ≡ neg_ℤ (pos 12) }
{
    if host.is_open() {
        return EBUSY;
    }
    put_program(alloc, host, HostProgram::from_listing(alloc, text), why)
}

/// Opens a filter of packets that is an array of instructions of 8 bytes: struct sock_filter of Linux, and struct bpf_insn of
/// libpcap. It answers as `bpfrt_prog_open`.
#[unsafe(no_mangle)]
pub extern "C" fn bpfrt0_prog_open_filter(
    alloc: Global,
    host: &mut Host,
    insns: &[u8],
    why: &mut Refusal,
) -> i32
    ensures busy { IsSome host.old.handle.held → result ≡ neg_ℤ (pos 16) }
    ensures opened { result ≡ pos 0 → IfSome (program_in host.new.handle.held)
        (IsOfClassic Packet (filters_in insns.now)) }
    ensures open { result ≡ pos 0 → IsSome (program_in host.new.handle.held) }
    ensures kept { result ≢ pos 0 → host.new.handle.held ≡ host.old.handle.held }
    ensures fault { host.old.handle.held ≡ None → result ≢ pos 0 → why.new.code ≢ 13 →
        Tells (IsArrayFault Packet insns.now) why.new result }
    ensures memory { host.old.handle.held ≡ None → result ≢ pos 0 → why.new.code ≡ 13 → result ≡ neg_ℤ (pos 12) }
{
    if host.is_open() {
        return EBUSY;
    }
    put_program(
        alloc,
        host,
        HostProgram::from_array(alloc, Data::Packet, insns),
        why,
    )
}

/// Opens a policy of system calls that is such an array, as seccomp(2) takes it. It answers as `bpfrt_prog_open`.
#[unsafe(no_mangle)]
pub extern "C" fn bpfrt0_prog_open_policy(
    alloc: Global,
    host: &mut Host,
    insns: &[u8],
    why: &mut Refusal,
) -> i32
    ensures busy { IsSome host.old.handle.held → result ≡ neg_ℤ (pos 16) }
    ensures opened { result ≡ pos 0 → IfSome (program_in host.new.handle.held)
        (IsOfClassic Seccomp (filters_in insns.now)) }
    ensures open { result ≡ pos 0 → IsSome (program_in host.new.handle.held) }
    ensures kept { result ≢ pos 0 → host.new.handle.held ≡ host.old.handle.held }
    ensures fault { host.old.handle.held ≡ None → result ≢ pos 0 → why.new.code ≢ 13 →
        Tells (IsArrayFault Seccomp insns.now) why.new result }
    ensures memory { host.old.handle.held ≡ None → result ≢ pos 0 → why.new.code ≡ 13 → result ≡ neg_ℤ (pos 12) }
{
    if host.is_open() {
        return EBUSY;
    }
    put_program(
        alloc,
        host,
        HostProgram::from_array(alloc, Data::Seccomp, insns),
        why,
    )
}

/// One more owner of a program, in a box.
fn another(alloc: Global, held: &Held) -> Result<Box<Held>, i32>
    ensures same { IfOk result (λ b. program_in (Some b.value) ≡ program_in (Some held.now)) }
    ensures some { IfOk result (λ b. IsSome (program_in (Some b.value))) }
    ensures fault { IfErr result (λ number. number ≢ pos 0) }
{
    let Held::Program(program) = held else {
        return Err(EBADF);
    };
    let Ok(shared) = program.share() else {
        return Err(ENOMEM);
    };
    match Box::new(alloc, Held::Program(shared)) {
        Ok(held) => Ok(held),
        Err(_) => Err(ENOMEM),
    }
}

/// Opens `host` as one more handle of the program that `other` holds, for another thread. The program is freed with its last handle.
///
/// 0, or -EBUSY where the handle is open; -EBADF where the other holds no program; -ENOMEM.
#[unsafe(no_mangle)]
pub extern "C" fn bpfrt0_prog_share(alloc: Global, host: &mut Host, other: &mut Host) -> i32
    ensures busy { IsSome host.old.handle.held → result ≡ neg_ℤ (pos 16) }
    ensures opened { result ≡ pos 0 →
        program_in host.new.handle.held ≡ program_in other.old.handle.held }
    ensures open { result ≡ pos 0 → IsSome (program_in host.new.handle.held) }
    ensures kept { result ≢ pos 0 → host.new.handle.held ≡ host.old.handle.held }
    ensures other { other.new.handle.held ≡ other.old.handle.held }
{
    if host.is_open() {
        return EBUSY;
    }
    let Some(held) = other.take(alloc) else {
        return EBADF;
    };
    let made = another(alloc, &held);
    other.put(held);
    match made {
        Ok(one) => {
            host.put(one);
            0
        }
        Err(number) => number,
    }
}

/// Closes a handle, of whatever it is: it holds nothing then, and what it alone held is freed. 0, or -EBADF where it is closed.
#[unsafe(no_mangle)]
pub extern "C" fn bpfrt0_close(alloc: Global, host: &mut Host) -> i32
    ensures closed { host.new.handle.held ≡ None }
    ensures number { IsSome host.old.handle.held → result ≡ pos 0 }
    ensures none { host.old.handle.held ≡ None → result ≡ neg_ℤ (pos 9) }
{
    match host.take(alloc) {
        Some(_held) => 0,
        None => EBADF,
    }
}
