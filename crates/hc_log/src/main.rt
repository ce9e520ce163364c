//! Prints the log of a trace that standard input has: its configuration, and a line for each note (docs/FORMATS.md).
//!
//! Status 0 says that it was done. Status 1 says that the trace has a fault, which is named on standard error, or that
//! its configuration was refused; 4 says that reading, writing or memory failed. Then nothing is printed.
#![tactic(auto)]

mod text;

use crate::text::add_log;
use hc_trace_log::{Logged, log_of};
use std::io;
use std::io::{Read, Write};
use std::process::ExitCode;

// The log of the trace, and the status.
fn run(rt: &HostRuntime) -> io::Result<u8> {
    let mut bytes = Vec::new(rt.alloc());
    rt.reader().read_to_end(&mut bytes)?;
    match log_of(rt.alloc(), &bytes)? {
        Logged::Whole(config, player) => {
            let mut out = Vec::new(rt.alloc());
            add_log(rt.alloc(), &mut out, &config, &player.notes().notes)?;
            io::writer(rt).write_all(&out)?;
            Ok(0)
        }
        Logged::Fault(line) => {
            eprintln!(rt; "fault line {line}")?;
            Ok(1)
        }
        Logged::Refused(refusal) => {
            eprintln!(rt; "{refusal}")?;
            Ok(1)
        }
    }
}

fn main(rt: HostRuntime) -> ExitCode {
    let status = match run(&rt) {
        Ok(status) => status,
        Err(_) => 4,
    };
    ExitCode::from(status)
}
