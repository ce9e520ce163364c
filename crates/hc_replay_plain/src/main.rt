//! Replays a trace of cache operations that standard input has, by one client, and prints its answers. It is `hc_replay` without
//! `--clients`, and so stands on no threads.
#![tactic(auto)]

use hc_trace::replay;
use std::env::Env;
use std::process::ExitCode;
use std::{env, io};

fn run<R: Input + Print + Eprint + Env + AllocGlobal>(rt: &R) -> u8 {
    match env::args(rt) {
        Ok(words) if words.len() <= 1 => {
            replay(rt.alloc(), &mut rt.reader(), &mut io::writer(rt))
        }
        Err(error) if error.kind() == io::ErrorKind::OutOfMemory => 4,
        _ => {
            let _ = eprintln!(rt; "usage: hc_replay_plain");
            2
        }
    }
}

fn main(rt: HostRuntime) -> ExitCode {
    ExitCode::from(run(&rt))
}
