//! Readers of tables: runs of programs over a table.
ghost use Rattle.std.specs.Prelude.{◌≡◌, ◌≢◌, pos, neg_ℤ, Some, None, Err, IsOk, IfSome, IfOk, IfErr, OnErr, length};
ghost use Rattle.classic_program.specs.Context.{context_bytes};
ghost use Rattle.classic_program.specs.declared.data.Data.TheVariants.{Packet};
ghost use Rattle.host_tables.specs.Reading.{CanServe};
ghost use Rattle.host_handle.specs.Values.{program_in, reader_in, table_in};
ghost use Rattle.bpfrt_c.specs.Tables.{RunsIn, RunsOnPacketIn, Serves};

use crate::number::{EBADF, EINVAL, EOPNOTSUPP};
use host_handle::{Held, Host};
use host_tables::TableRunFault;
use std::alloc::Global;

/// The number of why a program is not run.
fn number_of(fault: TableRunFault) -> i32
    ensures { result ≢ pos 0 }
{
    match fault {
        TableRunFault::Length | TableRunFault::Maps => EINVAL,
        TableRunFault::SubWord => EOPNOTSUPP,
    }
}

/// Runs the program that is held over the table of the reader that is held, if they are.
fn run_over(held: &mut Held, program: &Held, context: &[u8]) -> Result<u64, i32>
    ensures runs { IfOk result (RunsIn (program_in (Some program.now)) context.now
        (reader_in (Some held.old)) (reader_in (Some held.new))) }
    ensures ran { IfSome (program_in (Some program.now)) (λ p. IfSome (reader_in (Some held.old)) (λ r.
        Serves r p (length context.now) → IsOk result)) }
    ensures none { reader_in (Some held.old) ≡ None → result ≡ Err (neg_ℤ (pos 9)) }
    ensures no_program { program_in (Some program.now) ≡ None → result ≡ Err (neg_ℤ (pos 9)) }
    ensures kept { OnErr result (held.new ≡ held.old) }
    ensures fault { IfErr result (λ number. number ≢ pos 0) }
{
    let Held::Program(program) = program else {
        return Err(EBADF);
    };
    let Held::Reader(reader) = held else {
        return Err(EBADF);
    };
    match reader.run(program.program(), context) {
        Ok(value) => Ok(value),
        Err(fault) => Err(number_of(fault)),
    }
}

/// The same on a packet.
fn run_over_on_packet(held: &mut Held, program: &Held, packet: &[u8], wire: u32) -> Result<u64, i32>
    ensures runs { IfOk result (RunsOnPacketIn (program_in (Some program.now)) packet.now wire
        (reader_in (Some held.old)) (reader_in (Some held.new))) }
    ensures ran { IfSome (program_in (Some program.now)) (λ p. IfSome (reader_in (Some held.old)) (λ r.
        Serves r p (context_bytes Packet) → IsOk result)) }
    ensures none { reader_in (Some held.old) ≡ None → result ≡ Err (neg_ℤ (pos 9)) }
    ensures no_program { program_in (Some program.now) ≡ None → result ≡ Err (neg_ℤ (pos 9)) }
    ensures kept { OnErr result (held.new ≡ held.old) }
    ensures fault { IfErr result (λ number. number ≢ pos 0) }
{
    let Held::Program(program) = program else {
        return Err(EBADF);
    };
    let Held::Reader(reader) = held else {
        return Err(EBADF);
    };
    match reader.run_on_packet(program.program(), packet, wire) {
        Ok(value) => Ok(value),
        Err(fault) => Err(number_of(fault)),
    }
}

/// Whether readers of the table that is held may run the program that is held, if they are.
fn serves_held(held: &Held, program: &Held) -> i32
    ensures serves { result ≡ pos 0 → IfSome (program_in (Some program.now)) (λ p. IfSome (table_in (Some held.now)) (λ t.
        CanServe t.table.shape p.checked)) }
    ensures served { IfSome (program_in (Some program.now)) (λ p. IfSome (table_in (Some held.now)) (λ t.
        CanServe t.table.shape p.checked → result ≡ pos 0)) }
    ensures none { table_in (Some held.now) ≡ None → result ≡ neg_ℤ (pos 9) }
    ensures no_program { program_in (Some program.now) ≡ None → result ≡ neg_ℤ (pos 9) }
{
    let Held::Table(table) = held else {
        return EBADF;
    };
    let Held::Program(program) = program else {
        return EBADF;
    };
    match table.serves(program.program()) {
        Ok(()) => 0,
        Err(fault) => number_of(fault),
    }
}

/// Whether readers of a table may run a program on a context of its length: so a host learns it before it hands the program to their
/// threads.
///
/// 0, or -EBADF where the handles hold no table and no program; -EINVAL where a map of the program is no hash map of the table's lengths,
/// or the table has over 131,072 elements; -EOPNOTSUPP where the program stores less than 8 bytes to an element, or changes a map.
#[unsafe(no_mangle)]
pub extern "C" fn bpfrt0_table_serves(alloc: Global, host: &mut Host, prog: &mut Host) -> i32
    ensures serves { result ≡ pos 0 → IfSome (program_in prog.old.handle.held) (λ p. IfSome (table_in host.old.handle.held) (λ t.
        CanServe t.table.shape p.checked)) }
    ensures served { IfSome (program_in prog.old.handle.held) (λ p. IfSome (table_in host.old.handle.held) (λ t.
        CanServe t.table.shape p.checked → result ≡ pos 0)) }
    ensures none { table_in host.old.handle.held ≡ None → result ≡ neg_ℤ (pos 9) }
    ensures no_program { program_in prog.old.handle.held ≡ None → result ≡ neg_ℤ (pos 9) }
    ensures kept { host.new.handle.held ≡ host.old.handle.held }
    ensures prog { prog.new.handle.held ≡ prog.old.handle.held }
{
    let Some(program) = prog.take(alloc) else {
        return EBADF;
    };
    let Some(held) = host.take(alloc) else {
        prog.put(program);
        return EBADF;
    };
    let number = serves_held(&held, &program);
    host.put(held);
    prog.put(program);
    number
}

/// Runs a program over the table of a reader, each of whose maps is the table, to its exit, and writes its value. It takes no
/// memory, and waits for nobody. The next call may run another program.
///
/// 0, or -EBADF where the handles hold no reader and no program; -EINVAL where the context has another length than the program's, a
/// map of the program is no hash map of the table's lengths, or the table has over 131,072 elements; -EOPNOTSUPP where the program stores less than 8 bytes to an element, or
/// changes a map. Then nothing is done.
#[unsafe(no_mangle)]
pub extern "C" fn bpfrt0_reader_run(
    alloc: Global,
    host: &mut Host,
    prog: &mut Host,
    context: &[u8],
    value: &mut u64,
) -> i32
    ensures runs { result ≡ pos 0 → RunsIn (program_in prog.old.handle.held) context.now
        (reader_in host.old.handle.held) (reader_in host.new.handle.held) value.new }
    ensures ran { IfSome (program_in prog.old.handle.held) (λ p. IfSome (reader_in host.old.handle.held) (λ r.
        Serves r p (length context.now) → result ≡ pos 0)) }
    ensures none { reader_in host.old.handle.held ≡ None → result ≡ neg_ℤ (pos 9) }
    ensures no_program { program_in prog.old.handle.held ≡ None → result ≡ neg_ℤ (pos 9) }
    ensures unwritten { result ≢ pos 0 → value.new ≡ value.old }
    ensures kept { result ≢ pos 0 → host.new.handle.held ≡ host.old.handle.held }
    ensures prog { prog.new.handle.held ≡ prog.old.handle.held }
{
    let Some(program) = prog.take(alloc) else {
        return EBADF;
    };
    let Some(mut held) = host.take(alloc) else {
        prog.put(program);
        return EBADF;
    };
    let ran = run_over(held.as_mut(), &program, context);
    host.put(held);
    prog.put(program);
    match ran {
        Ok(number) => {
            *value = number;
            0
        }
        Err(number) => number,
    }
}

/// Runs such a program on a packet, of which it sees the first 248 bytes, as if no more had been captured.
///
/// It answers as `bpfrt0_reader_run`; -EINVAL where the program has no context of packets, which has 256 bytes.
#[unsafe(no_mangle)]
pub extern "C" fn bpfrt0_reader_run_packet(
    alloc: Global,
    host: &mut Host,
    prog: &mut Host,
    packet: &[u8],
    wire: u32,
    value: &mut u64,
) -> i32
    ensures runs { result ≡ pos 0 → RunsOnPacketIn (program_in prog.old.handle.held) packet.now wire
        (reader_in host.old.handle.held) (reader_in host.new.handle.held) value.new }
    ensures ran { IfSome (program_in prog.old.handle.held) (λ p. IfSome (reader_in host.old.handle.held) (λ r.
        Serves r p (context_bytes Packet) → result ≡ pos 0)) }
    ensures none { reader_in host.old.handle.held ≡ None → result ≡ neg_ℤ (pos 9) }
    ensures no_program { program_in prog.old.handle.held ≡ None → result ≡ neg_ℤ (pos 9) }
    ensures unwritten { result ≢ pos 0 → value.new ≡ value.old }
    ensures kept { result ≢ pos 0 → host.new.handle.held ≡ host.old.handle.held }
    ensures prog { prog.new.handle.held ≡ prog.old.handle.held }
{
    let Some(program) = prog.take(alloc) else {
        return EBADF;
    };
    let Some(mut held) = host.take(alloc) else {
        prog.put(program);
        return EBADF;
    };
    let ran = run_over_on_packet(held.as_mut(), &program, packet, wire);
    host.put(held);
    prog.put(program);
    match ran {
        Ok(number) => {
            *value = number;
            0
        }
        Err(number) => number,
    }
}
