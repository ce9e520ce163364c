//! Judges a log that standard input has, and prints `legal, honest`, or the first thing that is wrong with it.
#![tactic(auto)]

use hc_verdict::judge_text;
use std::io;
use std::io::{Read, Write};
use std::process::ExitCode;

// The status.
fn run(rt: &HostRuntime) -> io::Result<u8> {
    let mut bytes = Vec::new(rt.alloc());
    rt.reader().read_to_end(&mut bytes)?;
    let mut out = String::new(rt.alloc());
    let status = judge_text(rt.alloc(), &bytes, &mut out)?;
    io::writer(rt).write_all(out.as_bytes())?;
    Ok(status)
}

fn main(rt: HostRuntime) -> ExitCode {
    let status = match run(&rt) {
        Ok(status) => status,
        Err(_) => 4,
    };
    ExitCode::from(status)
}
