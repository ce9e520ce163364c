//! Replays the traces of each folder that it is given, judges its logs, and compares what is printed with the answers and
//! the verdicts that stand beside them. A line for each says `ok`, or in which line they differ first. Then the log that
//! each trace leaves is judged, note by note: a line says how many were, and one for each that isn't legal and honest what is
//! wrong with it. The status is 0 where all are as wanted, 1 where one isn't, and 2 where a folder or a file can't be read.
#![tactic(auto)]

mod difference;
mod folder;
mod judging;
mod left;

use crate::folder::{answers_of, log_names, log_of, status_of, trace_names, trace_of, verdict_of};
use crate::judging::{Verdict, judge, judge_log};
use crate::left::judge_left;
use hc_verdict::Verdict as Said;
use std::process::ExitCode;
use std::{env, io};

// Replays a trace of the folder, which is to end with this status.
fn judged(rt: &HostRuntime, folder: &str, name: &str, status: u8) -> io::Result<Verdict> {
    let trace = trace_of(rt, folder, name)?;
    let answers = answers_of(rt, folder, name)?;
    Ok(judge(rt.alloc(), &trace, &answers, status))
}

// Says in which line the answers differ first.
fn tell_line(rt: &HostRuntime, folder: &str, name: &str, line: usize) -> io::Result<bool> {
    println!(rt; "{folder}/{name}: line {line} differs")?;
    eprintln!(rt; "{folder}/{name}.answers: line {line} is not what is printed")?;
    Ok(false)
}

// Says that the status is another.
fn tell_status(
    rt: &HostRuntime,
    folder: &str,
    name: &str,
    ended: u8,
    status: u8,
) -> io::Result<bool> {
    println!(rt; "{folder}/{name}: status {ended}")?;
    eprintln!(rt; "{folder}/{name}.trace: status {ended}, and not {status}")?;
    Ok(false)
}

// Replays a trace of the folder, and prints a line. Whether it is as wanted.
fn check_trace(rt: &HostRuntime, folder: &str, name: &str, status: u8) -> io::Result<bool> {
    match judged(rt, folder, name, status)? {
        Verdict::Same => {
            println!(rt; "{folder}/{name}: ok")?;
            Ok(true)
        }
        Verdict::Line(line) => tell_line(rt, folder, name, line),
        Verdict::Status(ended) => tell_status(rt, folder, name, ended, status),
    }
}

// Judges a log of the folder, and prints a line. Whether what is said of it is as wanted.
fn check_log(rt: &HostRuntime, folder: &str, name: &str) -> io::Result<bool> {
    let log = log_of(rt, folder, name)?;
    let verdict = verdict_of(rt, folder, name)?;
    match judge_log(rt.alloc(), &log, &verdict)? {
        Verdict::Same => {
            println!(rt; "{folder}/{name}: ok")?;
            Ok(true)
        }
        Verdict::Line(_) | Verdict::Status(_) => {
            println!(rt; "{folder}/{name}: another verdict")?;
            eprintln!(rt; "{folder}/{name}.verdict: it isn't what is said of the log")?;
            Ok(false)
        }
    }
}

// Judges the logs of a folder. Whether all verdicts are as wanted.
fn check_logs(rt: &HostRuntime, folder: &str) -> io::Result<bool> {
    let mut all = true;
    for name in log_names(rt, folder)?.iter() {
        all &= check_log(rt, folder, name)?;
    }
    Ok(all)
}

// Judges the log that a trace leaves, and prints a line where something is wrong with it. Whether it is legal and honest;
// None where there is no log.
fn check_left(rt: &HostRuntime, folder: &str, name: &str) -> io::Result<Option<bool>> {
    let trace = trace_of(rt, folder, name)?;
    match judge_left(rt.alloc(), &trace)? {
        None => Ok(None),
        Some(Said::Legal) => Ok(Some(true)),
        Some(said) => {
            println!(rt; "{folder}/{name}: its log is {said}")?;
            Ok(Some(false))
        }
    }
}

// Judges the logs that these traces leave, and says how many they are. Whether all are legal and honest.
fn check_all_left(rt: &HostRuntime, folder: &str, names: &[String]) -> io::Result<bool> {
    let mut all = true;
    let mut judged = 0u64;
    for name in names {
        if let Some(is_right) = check_left(rt, folder, name)? {
            judged = judged.saturating_add(1);
            all &= is_right;
        }
    }
    println!(rt; "{folder}: the logs of {judged} traces are judged")?;
    Ok(all)
}

// Replays the traces of a folder, and judges the logs that they leave. Whether all are as wanted.
fn check_traces(rt: &HostRuntime, folder: &str) -> io::Result<bool> {
    let status = status_of(rt, folder)?;
    let names = trace_names(rt, folder)?;
    let mut all = true;
    for name in names.iter() {
        all &= check_trace(rt, folder, name, status)?;
    }
    all &= check_all_left(rt, folder, &names)?;
    Ok(all)
}

// Replays the traces of a folder, and judges its logs. Whether all are as wanted.
fn check_folder(rt: &HostRuntime, folder: &str) -> io::Result<bool> {
    let all = check_traces(rt, folder)?;
    let are_legal = check_logs(rt, folder)?;
    Ok(all && are_legal)
}

// Replays the traces of each folder, and judges its logs. Whether all are as wanted.
fn run(rt: &HostRuntime) -> io::Result<bool> {
    let mut folders = env::args(rt)?;
    let _program = folders.next();
    let mut all = true;
    for folder in folders {
        all &= check_folder(rt, folder.as_str())?;
    }
    Ok(all)
}

fn main(rt: HostRuntime) -> ExitCode {
    match run(&rt) {
        Ok(true) => ExitCode::from(0),
        Ok(false) => ExitCode::from(1),
        Err(error) => {
            let _ = eprintln!(rt; "{error}");
            ExitCode::from(2)
        }
    }
}
