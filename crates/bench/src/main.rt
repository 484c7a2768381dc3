//! `bench`: what runs of programs and events of worlds come to, and how long they and verifications take.
#![tactic(auto)]

ghost use Rattle.std.specs.Prelude.{◌≤◌, IfOk};
ghost use Rattle.bpf_model.specs.declared.limits.TheConstants.{CTX_BYTES};
ghost use Rattle.bench.specs.Trials.{IsReadyTrial};

mod command;
mod decimal;
mod measure;
mod report;
mod samples;
mod tables;
mod trial;
mod worlds;

use anyhow::{Result, bail};
use command::{BenchCommand, Command, Repeated, WorldCommand, parse_command};
use measure::{Timed, repeat_runs, repeat_verifications, time_per_call_part};
use report::{measurement_line, sample_line};
use samples::samples;
use std::process::ExitCode;
use std::rt::Clock;
use std::sync::Wait;
use std::thread::Threads;
use std::time::CpuClock;
use std::{env, fs};
use tables::perform_read;
use trial::{Trial, counted_run, trial_of};
use worlds::perform_world;

/// Runs each program that is built in, and prints what it came to.
fn print_samples(rt: &HostRuntime) -> Result<()> {
    let alloc = rt.alloc();
    for sample in samples() {
        let trial = sample.trial(alloc)?;
        rt.println(sample_line(alloc, sample.name, counted_run(&trial))?)?;
    }
    Ok(())
}

/// The program in a file, verified for a context of this length.
fn trial_in(rt: &HostRuntime, file: &str, ctx_len: usize) -> Result<Trial>
    requires { ctx_len ≤ CTX_BYTES }
    ensures { IfOk result IsReadyTrial }
{
    match fs::read(rt, file) {
        Ok(bytes) => trial_of(rt.alloc(), bytes.as_slice(), ctx_len),
        Err(error) => bail!("{file}: {error}"),
    }
}

/// Does one thing so many times with the program in a file, and prints one line.
fn repeat_file(
    rt: &HostRuntime,
    deed: Repeated,
    file: &str,
    ctx_len: usize,
    times: u32,
) -> Result<()>
    requires { ctx_len ≤ CTX_BYTES }
{
    let trial = trial_in(rt, file, ctx_len)?;
    match deed {
        Repeated::Runs => {
            let exit = repeat_runs(&trial, times);
            println!(rt; "exit {exit}")?;
        }
        Repeated::Verifications => {
            repeat_verifications(rt.alloc(), &trial, times)?;
            println!(rt; "accepted")?;
        }
    }
    Ok(())
}

/// Measures the program in a file on a context of this length, and prints four lines.
fn measure_file(rt: &HostRuntime, file: &str, ctx_len: usize) -> Result<()>
    requires { ctx_len ≤ CTX_BYTES }
{
    let alloc = rt.alloc();
    let trial = trial_in(rt, file, ctx_len)?;
    let finished = counted_run(&trial);
    let exit = finished.value;
    let instructions = finished.steps;
    let run_time = time_per_call_part(alloc, rt, Timed::Runs, &trial, instructions as u64)?;
    let verify_time = time_per_call_part(alloc, rt, Timed::Verifications, &trial, 1000)?;
    println!(rt; "exit {exit}")?;
    println!(rt; "instructions {instructions}")?;
    rt.println(measurement_line(alloc, "run_ns_per_instruction", run_time)?)?;
    rt.println(measurement_line(alloc, "verify_us", verify_time)?)?;
    Ok(())
}

/// The words after the program's own.
fn own_words(rt: &HostRuntime) -> Result<Vec<String>> {
    let mut words = Vec::new(rt.alloc());
    for word in env::args(rt)?.skip(1) {
        words.push(word)?;
    }
    Ok(words)
}

/// Does what the words after the program's own ask for. The handle for threads, for waiting and for the clocks is the
/// runtime again.
fn perform<H: Threads + Wait + Clock + CpuClock + Sync>(
    rt: &HostRuntime,
    handle: &H,
) -> Result<ExitCode> {
    let words = own_words(rt)?;
    match parse_command(words.as_slice()) {
        Ok(Command::Bench(BenchCommand::Samples)) => {
            print_samples(rt)?;
            perform_world(rt, handle, WorldCommand::Answers)?;
        }
        Ok(Command::Bench(BenchCommand::Run { file, ctx_len })) => measure_file(rt, file, ctx_len)?,
        Ok(
            Command::Bench(
                BenchCommand::Repeat {
                    deed,
                    file,
                    ctx_len,
                    times,
                },
            ),
        ) => repeat_file(rt, deed, file, ctx_len, times)?,
        Ok(Command::World(command)) => perform_world(rt, handle, command)?,
        Ok(Command::Read(command)) => perform_read(rt, handle, command)?,
        Err(fault) => {
            eprintln!(rt; "{fault}")?;
            return Ok(ExitCode::from(2));
        }
    }
    Ok(ExitCode::SUCCESS)
}

fn main(rt: HostRuntime) -> ExitCode {
    match perform(&rt, &rt) {
        Ok(status) => status,
        Err(error) => {
            let _ = eprintln!(&rt; "{error}");
            ExitCode::FAILURE
        }
    }
}
