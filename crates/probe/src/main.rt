//! What the scripts of `tests` and of `bench` drive, a mode for each word: those of `streams.rs`, and those of `measured.rs`, which
//! the benchmark measures. Each reads standard input and writes standard output.
//!
//! The exit status is 1 where input, output or memory failed, and where the mode is unknown; both files say which modes have others.
#![tactic(auto)]

mod measured;
mod streams;

use binlog_file::Error;
use binlog_visits::exit_status;
use std::alloc::Global;
use std::env::Env;
use std::io::{BufRead, BufReader, BufWriter, Write};
use std::process::ExitCode;
use std::{env, io};
use streams::compressed;

/// The size of the input's buffer, in bytes. A file reads past it into its own, which is larger.
const INPUT_BUFFER_SIZE: usize = 512;

/// The size of the output's buffer, in bytes.
const OUTPUT_BUFFER_SIZE: usize = 65_536;

/// The exit status where input, output or memory failed.
const FAILED: u8 = 1;

/// What is run over buffered input and output.
#[derive(Clone, Copy)]
enum Mode {
    Measured(measured::Mode),
    Stream(streams::Mode),
}

// The mode of this name, behind which this word stands; None if there is none.
fn mode_of(name: &str, word: Option<&str>) -> Option<Mode> {
    match streams::mode_of(name, word.is_some()) {
        Some(mode) => Some(Mode::Stream(mode)),
        None => measured::mode_of(name, word).map(Mode::Measured),
    }
}

// The exit status of a mode that has no others.
fn status(is_fine: bool) -> u8 {
    if is_fine { 0 } else { FAILED }
}

// The exit status of a listing with this answer.
fn listing_status<W: Write>(answer: Result<bool, Error>, output: &mut W) -> u8 {
    if output.flush().is_ok() {
        exit_status(&answer)
    } else {
        exit_status(&Err(Error::Writer))
    }
}

// Runs a mode.
fn run_mode<R: BufRead + Drop, W: Write>(
    alloc: Global,
    mode: Mode,
    input: R,
    output: &mut W,
) -> u8 {
    match mode {
        Mode::Measured(mode) => measured::run(alloc, mode, input, output),
        Mode::Stream(mode) => streams::run(alloc, mode, input, output),
    }
}

// The same over standard input and standard output.
fn run_buffered(rt: &(impl Input + Print + AllocGlobal), mode: Mode) -> u8 {
    let Ok(input) = BufReader::with_capacity(rt.alloc(), INPUT_BUFFER_SIZE, rt.reader()) else {
        return FAILED;
    };
    let Ok(mut output) = BufWriter::with_capacity(rt.alloc(), OUTPUT_BUFFER_SIZE, io::writer(rt))
    else {
        return FAILED;
    };
    let status = run_mode(rt.alloc(), mode, input, &mut output);
    if output.flush().is_ok() {
        status
    } else {
        FAILED
    }
}

// Runs the mode that the first word names.
fn run(rt: &(impl Input + Print + Eprint + Env + AllocGlobal)) -> u8 {
    let Ok(mut words) = env::args(rt) else {
        return FAILED;
    };
    let Some(name) = words.nth(1) else {
        return FAILED;
    };
    let word = words.next();
    if let Some(format) = compressed::format_of(name.as_str()) {
        return compressed::run(rt, format);
    }
    match mode_of(name.as_str(), word.as_deref()) {
        Some(mode) => run_buffered(rt, mode),
        None => FAILED,
    }
}

fn main(rt: HostRuntime) -> ExitCode {
    ExitCode::from(run(&rt))
}
