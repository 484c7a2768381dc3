//! Runs of programs that name no map.
ghost use Rattle.std.specs.Prelude.{◌≡◌, ◌≢◌, pos, neg_ℤ, Some, None, Err, IfSome, IsOk, IfOk, IfErr, OnOk, OnErr, length};
ghost use Rattle.host_programs.specs.Packets.{AreInside, seen};
ghost use Rattle.host_programs.specs.Runs.{Gives, GivesEach, GivesEachPacket, GivesOnPacket};
ghost use Rattle.host_handle.specs.Values.{program_in};
ghost use Rattle.bpfrt_c.specs.Programs.{CanRunOn, CanRunOnAll, CanRunOnEach, CanRunOnPackets};

use crate::number::{EBADF, EINVAL, EOPNOTSUPP};
use host_handle::{Held, Host};
use host_programs::{PacketAt, RunFault};
use std::alloc::Global;

/// The number of why a program is not run.
fn number_of(fault: RunFault) -> i32
    ensures { result ≢ pos 0 }
{
    match fault {
        RunFault::NamesMaps => EOPNOTSUPP,
        RunFault::Length => EINVAL,
    }
}

/// Runs the program that is held, if one is.
fn run_held(held: &mut Held, context: &[u8]) -> Result<u64, i32>
    ensures gives { IfOk result (λ n. IfSome (program_in (Some held.old)) (λ p. Gives p context.now n)) }
    ensures ran { IfSome (program_in (Some held.old)) (λ p. CanRunOn p context.now → IsOk result) }
    ensures none { program_in (Some held.old) ≡ None → result ≡ Err (neg_ℤ (pos 9)) }
    ensures kept { held.new ≡ held.old }
    ensures fault { IfErr result (λ number. number ≢ pos 0) }
{
    let Held::Program(program) = held else {
        return Err(EBADF);
    };
    match program.run(context) {
        Ok(value) => Ok(value),
        Err(fault) => Err(number_of(fault)),
    }
}

/// Runs the program that is held, if one is, on each context.
fn run_held_on_each(held: &mut Held, contexts: &[u8], values: &mut [u64]) -> Result<(), i32>
    ensures gives { OnOk result (IfSome (program_in (Some held.old)) (λ p. GivesEach p contexts.now values.new)) }
    ensures ran { IfSome (program_in (Some held.old)) (λ p.
        CanRunOnEach p contexts.now (length values.old) → IsOk result) }
    ensures none { program_in (Some held.old) ≡ None → result ≡ Err (neg_ℤ (pos 9)) }
    ensures unwritten { OnErr result (values.new ≡ values.old) }
    ensures kept { held.new ≡ held.old }
    ensures fault { IfErr result (λ number. number ≢ pos 0) }
{
    let Held::Program(program) = held else {
        return Err(EBADF);
    };
    match program.run_each(contexts, values) {
        Ok(()) => Ok(()),
        Err(fault) => Err(number_of(fault)),
    }
}

/// Runs the program that is held, if one is, on a packet.
fn run_held_on_packet(held: &mut Held, packet: &[u8], wire: u32) -> Result<u64, i32>
    ensures gives { IfOk result (λ n. IfSome (program_in (Some held.old)) (λ p.
        GivesOnPacket p (seen packet.now wire) n)) }
    ensures ran { IfSome (program_in (Some held.old)) (λ p. CanRunOnPackets p → IsOk result) }
    ensures none { program_in (Some held.old) ≡ None → result ≡ Err (neg_ℤ (pos 9)) }
    ensures kept { held.new ≡ held.old }
    ensures fault { IfErr result (λ number. number ≢ pos 0) }
{
    let Held::Program(program) = held else {
        return Err(EBADF);
    };
    match program.run_on_packet(packet, wire) {
        Ok(value) => Ok(value),
        Err(fault) => Err(number_of(fault)),
    }
}

/// Runs a program that names no map on a context, to its exit, and writes its value.
///
/// 0, or -EBADF where no program is held; -EOPNOTSUPP where it names a map; -EINVAL where the context has another length than the
/// program's. Then nothing is written.
#[unsafe(no_mangle)]
pub extern "C" fn bpfrt0_prog_run(
    alloc: Global,
    host: &mut Host,
    context: &[u8],
    value: &mut u64,
) -> i32
    ensures gives { result ≡ pos 0 → IfSome (program_in host.old.handle.held) (λ p.
        Gives p context.now value.new) }
    ensures ran { IfSome (program_in host.old.handle.held) (λ p. CanRunOn p context.now → result ≡ pos 0) }
    ensures none { program_in host.old.handle.held ≡ None → result ≡ neg_ℤ (pos 9) }
    ensures unwritten { result ≢ pos 0 → value.new ≡ value.old }
    ensures kept { host.new.handle.held ≡ host.old.handle.held }
{
    let Some(mut held) = host.take(alloc) else {
        return EBADF;
    };
    let ran = run_held(held.as_mut(), context);
    host.put(held);
    match ran {
        Ok(number) => {
            *value = number;
            0
        }
        Err(number) => number,
    }
}

/// Runs such a program on contexts that stand one behind another, as many as there are values.
///
/// It answers as `bpfrt0_prog_run`; -EINVAL where the contexts are not as many bytes.
#[unsafe(no_mangle)]
pub extern "C" fn bpfrt0_prog_run_many(
    alloc: Global,
    host: &mut Host,
    contexts: &[u8],
    values: &mut [u64],
) -> i32
    ensures gives { result ≡ pos 0 → IfSome (program_in host.old.handle.held) (λ p.
        GivesEach p contexts.now values.new) }
    ensures ran { IfSome (program_in host.old.handle.held) (λ p.
        CanRunOnEach p contexts.now (length values.old) → result ≡ pos 0) }
    ensures none { program_in host.old.handle.held ≡ None → result ≡ neg_ℤ (pos 9) }
    ensures unwritten { result ≢ pos 0 → values.new ≡ values.old }
    ensures kept { host.new.handle.held ≡ host.old.handle.held }
{
    let Some(mut held) = host.take(alloc) else {
        return EBADF;
    };
    let ran = run_held_on_each(held.as_mut(), contexts, values);
    host.put(held);
    match ran {
        Ok(()) => 0,
        Err(number) => number,
    }
}

/// Runs such a program on a packet, of which it sees the first 248 bytes, as if no more had been captured.
///
/// It answers as `bpfrt0_prog_run`; -EINVAL where the program has no context of packets, which has 256 bytes.
#[unsafe(no_mangle)]
pub extern "C" fn bpfrt0_prog_run_packet(
    alloc: Global,
    host: &mut Host,
    packet: &[u8],
    wire: u32,
    value: &mut u64,
) -> i32
    ensures gives { result ≡ pos 0 → IfSome (program_in host.old.handle.held) (λ p.
        GivesOnPacket p (seen packet.now wire) value.new) }
    ensures ran { IfSome (program_in host.old.handle.held) (λ p. CanRunOnPackets p → result ≡ pos 0) }
    ensures none { program_in host.old.handle.held ≡ None → result ≡ neg_ℤ (pos 9) }
    ensures unwritten { result ≢ pos 0 → value.new ≡ value.old }
    ensures kept { host.new.handle.held ≡ host.old.handle.held }
{
    let Some(mut held) = host.take(alloc) else {
        return EBADF;
    };
    let ran = run_held_on_packet(held.as_mut(), packet, wire);
    host.put(held);
    match ran {
        Ok(number) => {
            *value = number;
            0
        }
        Err(number) => number,
    }
}

/// Runs the program that is held, if one is, on each packet.
fn run_held_on_all(
    held: &mut Held,
    bytes: &[u8],
    packets: &[PacketAt],
    values: &mut [u64],
) -> Result<(), i32>
    ensures gives { OnOk result (IfSome (program_in (Some held.old)) (λ p.
        GivesEachPacket p bytes.now packets.now values.new)) }
    ensures ran { IfSome (program_in (Some held.old)) (λ p.
        CanRunOnAll p bytes.now packets.now (length values.old) → IsOk result) }
    ensures none { program_in (Some held.old) ≡ None → result ≡ Err (neg_ℤ (pos 9)) }
    ensures as_many { OnOk result (length packets.now ≡ length values.old) }
    ensures inside { OnOk result (AreInside (length bytes.now) packets.now) }
    ensures unwritten { OnErr result (values.new ≡ values.old) }
    ensures kept { held.new ≡ held.old }
    ensures fault { IfErr result (λ number. number ≢ pos 0) }
{
    let Held::Program(program) = held else {
        return Err(EBADF);
    };
    match program.run_on_packets(bytes, packets, values) {
        Ok(()) => Ok(()),
        Err(fault) => Err(number_of(fault)),
    }
}

/// Runs such a program on many packets that lie among bytes, each as `bpfrt0_prog_run_packet`, as many as there are values.
///
/// It answers so too; -EINVAL where a packet lies outside the bytes, and then no value is written.
#[unsafe(no_mangle)]
pub extern "C" fn bpfrt0_prog_run_packets(
    alloc: Global,
    host: &mut Host,
    bytes: &[u8],
    packets: &[PacketAt],
    values: &mut [u64],
) -> i32
    ensures gives { result ≡ pos 0 → IfSome (program_in host.old.handle.held) (λ p.
        GivesEachPacket p bytes.now packets.now values.new) }
    ensures ran { IfSome (program_in host.old.handle.held) (λ p.
        CanRunOnAll p bytes.now packets.now (length values.old) → result ≡ pos 0) }
    ensures none { program_in host.old.handle.held ≡ None → result ≡ neg_ℤ (pos 9) }
    ensures as_many { result ≡ pos 0 → length packets.now ≡ length values.old }
    ensures inside { result ≡ pos 0 → AreInside (length bytes.now) packets.now }
    ensures unwritten { result ≢ pos 0 → values.new ≡ values.old }
    ensures kept { host.new.handle.held ≡ host.old.handle.held }
{
    let Some(mut held) = host.take(alloc) else {
        return EBADF;
    };
    let ran = run_held_on_all(held.as_mut(), bytes, packets, values);
    host.put(held);
    match ran {
        Ok(()) => 0,
        Err(number) => number,
    }
}

/// How long a context of the program that is held is, or -EBADF.
#[unsafe(no_mangle)]
pub extern "C" fn bpfrt0_prog_ctx_len(alloc: Global, host: &mut Host) -> i32
    ensures value { IfSome (program_in host.old.handle.held) (λ p. result ≡ pos p.checked.ctx_len) }
    ensures none { program_in host.old.handle.held ≡ None → result ≡ neg_ℤ (pos 9) }
    ensures kept { host.new.handle.held ≡ host.old.handle.held }
{
    let Some(held) = host.take(alloc) else {
        return EBADF;
    };
    let number = match held.as_ref() {
        Held::Program(program) => program.program().ctx_len() as i32,
        _ => EBADF,
    };
    host.put(held);
    number
}
