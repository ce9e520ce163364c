// The files of a folder of traces, and of logs.
use std::{fs, io};

// What stands behind the name of a trace.
const TRACE: &str = ".trace";

const ANSWERS: &str = ".answers";

// What stands behind the name of a log.
const LOG: &str = ".log";

const VERDICT: &str = ".verdict";

// The names of a folder's files that end so, in their order.
fn names(rt: &HostRuntime, folder: &str, ending: &str) -> io::Result<Vec<String>> {
    let mut names = Vec::new(rt.alloc());
    for entry in fs::read_dir(rt, folder)? {
        if let Some(name) = entry?.file_name().strip_suffix(ending) {
            names.push(String::from_str(rt.alloc(), name)?)?;
        }
    }
    names.sort()?;
    Ok(names)
}

/// The names of a folder's traces, in their order.
pub fn trace_names(rt: &HostRuntime, folder: &str) -> io::Result<Vec<String>> {
    names(rt, folder, TRACE)
}

/// The names of a folder's logs, in their order.
pub fn log_names(rt: &HostRuntime, folder: &str) -> io::Result<Vec<String>> {
    names(rt, folder, LOG)
}

// The bytes of a file of a folder. One that can't be read is named on standard error.
fn read(rt: &HostRuntime, folder: &str, name: &str, ending: &str) -> io::Result<Vec<u8>> {
    let path = format!(in rt.alloc(); "{folder}/{name}{ending}")?;
    match fs::read(rt, path.as_str()) {
        Ok(bytes) => Ok(bytes),
        Err(error) => {
            eprintln!(rt; "{path}: {error}")?;
            Err(error)
        }
    }
}

/// The bytes of a trace.
pub fn trace_of(rt: &HostRuntime, folder: &str, name: &str) -> io::Result<Vec<u8>> {
    read(rt, folder, name, TRACE)
}

/// The answers that a trace must give.
pub fn answers_of(rt: &HostRuntime, folder: &str, name: &str) -> io::Result<Vec<u8>> {
    read(rt, folder, name, ANSWERS)
}

/// The bytes of a log.
pub fn log_of(rt: &HostRuntime, folder: &str, name: &str) -> io::Result<Vec<u8>> {
    read(rt, folder, name, LOG)
}

/// What must be said of a log.
pub fn verdict_of(rt: &HostRuntime, folder: &str, name: &str) -> io::Result<Vec<u8>> {
    read(rt, folder, name, VERDICT)
}

/// The status with which a folder's traces end: the number in its file `status`, or 0 where there is none.
pub fn status_of(rt: &HostRuntime, folder: &str) -> io::Result<u8> {
    let text = match fs::read_to_string(rt, format!(in rt.alloc(); "{folder}/status")?) {
        Ok(text) => text,
        Err(error) if error.kind() == io::ErrorKind::NotFound => return Ok(0),
        Err(error) => return Err(error),
    };
    match text.trim().parse() {
        Ok(status) => Ok(status),
        Err(_) => Err(io::Error::from(io::ErrorKind::InvalidData)),
    }
}
