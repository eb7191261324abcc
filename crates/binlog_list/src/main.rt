//! Lists the events of the binary log on standard input.
#![tactic(auto)]

use binlog_file::{Counted, Error, Retrying, WriteCounted};
use binlog_listing::list_counted;
use binlog_visits::exit_status;
use std::io;
use std::io::BufWriter;
use std::process::ExitCode;

/// The size of the output's buffer, in bytes. The input has no buffer but that of the file that is read.
const BUFFER_SIZE: usize = 65_536;

fn run(rt: &(impl Input + Print + AllocGlobal)) -> Result<bool, Error> {
    let mut input = Counted::new(Retrying::new(rt.reader()));
    let device = Retrying::new(io::writer(rt));
    let Ok(buffered) = BufWriter::with_capacity(rt.alloc(), BUFFER_SIZE, device) else {
        return Err(Error::Memory);
    };
    let mut output = Counted::new(buffered);
    let answer = list_counted(rt.alloc(), &mut input, &mut output);
    if output.flush_counted().is_err() {
        return Err(Error::Writer);
    }
    answer
}

fn main(rt: HostRuntime) -> ExitCode {
    ExitCode::from(exit_status(&run(&rt)))
}
