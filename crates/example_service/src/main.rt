//! A service with the cache before its database: its day, from the configuration to the shutdown.
#![tactic(auto)]

mod badges;
mod crowd;
mod metered;
mod profiles;
mod renewing;
mod shards;
mod sharing;
mod worker;

use crate::badges::badge;
use crate::crowd::{CLIENTS, ask_at_once};
use crate::metered::{Metered, comes_back};
use crate::profiles::{open, print_state, profile};
use crate::renewing::forget;
use crate::shards::{PAGE, PAGES, ask_twice};
use crate::worker::Worker;
use hc_core::{Core, Counting};
use hc_file::{FileDevice, open as open_device};
use hc_flash::MemFlash;
use std::fs::File;
use std::rt::Files;
use std::sync::Wait;
use std::thread::Threads;
use std::{fs, io};

// The file of the cache's pages.
const FILE: &str = "example_service.pages";

// The file of a cache in shards.
const SHARDED: &str = "example_service.shards";

// Nine o'clock, in seconds of the day.
const NINE: u64 = 32_400;

// Serves a user's profile. Then the worker has its turn.
fn serve(
    rt: &(impl Print + AllocGlobal),
    cache: &mut Core<Counting>,
    worker: &mut Worker,
    user: &str,
) -> io::Result<()> {
    match profile(rt.alloc(), cache, worker, user) {
        Ok(profile) => println!(rt; "{profile}")?,
        Err(_) => println!(rt; "{user}: try again later")?,
    }
    match worker.work(cache) {
        Ok(()) => Ok(()),
        Err(refusal) => println!(rt; "{refusal}"),
    }
}

// Makes a badge.
fn print_badge(
    rt: &(impl Print + AllocGlobal),
    cache: &mut Core<Counting>,
    text: &str,
    name: &str,
) -> io::Result<()> {
    match badge(rt.alloc(), cache, text, name) {
        Ok(()) => println!(rt; "{text} is {name}"),
        Err(refusal) => println!(rt; "no {text}: {refusal}"),
    }
}

// More users than there is room for in memory: whose profiles leave it are written to flash, and come back from there. Then one
// has a badge, one has a name that is too long for that, and a profile changes.
fn day(
    rt: &(impl Print + AllocGlobal),
    cache: &mut Core<Counting>,
    worker: &mut Worker,
) -> io::Result<()> {
    for user in ["ada", "ada", "bob", "cleo", "dora", "emil", "ada", "bob"] {
        serve(rt, cache, worker, user)?;
    }
    print_badge(rt, cache, "badge:ada", "Ada")?;
    print_badge(rt, cache, "badge:bob", "Bob of the hill beyond the river")?;
    if let Err(refusal) = forget(cache, b"bob") {
        println!(rt; "{refusal}")?;
    }
    print_state(rt, cache)
}

// The day with an empty cache over this worker's file.
fn with_cache(rt: &(impl Print + Eprint + AllocGlobal), mut worker: Worker) -> io::Result<()> {
    let Ok(mut cache) = open(rt.alloc(), NINE) else {
        return eprintln!(rt; "no cache");
    };
    day(rt, &mut cache, &mut worker)?;
    let (reads, writes) = worker.meter();
    println!(rt; "the device read {reads} pages and wrote {writes}")?;
    println!(rt; "failures of the device: {}", worker.failures())
}

// A page of a device in memory, under the service's meter, comes back as it was written.
fn try_memory(rt: &(impl Print + Eprint + AllocGlobal)) -> io::Result<()> {
    let Ok(memory) = MemFlash::new(rt.alloc(), 1, 4) else {
        return eprintln!(rt; "no memory");
    };
    match comes_back(&mut Metered::new(memory), 0, b"page") {
        Ok(same) => println!(rt; "a page comes back as it was written: {same}"),
        Err(error) => println!(rt; "{error}"),
    }
}

// Clients in threads ask for one row: one of them loads it.
fn print_crowd<R: Print + Eprint + AllocGlobal + Threads + Wait + Sync>(rt: &R) -> io::Result<()> {
    match ask_at_once(rt, rt.alloc(), "the news") {
        Ok(Some(stats)) => println!(rt; "{CLIENTS} clients want a row, loads: {}", stats.stored),
        Ok(None) => eprintln!(rt; "the log isn't what the clients were answered"),
        Err(refusal) => eprintln!(rt; "{refusal}"),
    }
}

// A client of a cache in shards over this file asks for one row twice.
fn print_shards(
    rt: &(impl Print + Eprint + AllocGlobal + Wait),
    file: &FileDevice<File>,
) -> io::Result<()> {
    match ask_twice(rt, rt.alloc(), file) {
        Ok(is_cached) => println!(rt; "a row is cached in its shard: {is_cached}"),
        Err(refusal) => eprintln!(rt; "{refusal}"),
    }
}

// A cache in shards, over a file.
fn with_shards(
    rt: &(impl Print + Eprint + AllocGlobal + Wait + Files<File = File>),
) -> io::Result<()> {
    match open_device(rt, rt.alloc(), SHARDED, PAGES, PAGE) {
        Ok(file) => print_shards(rt, &file)?,
        Err(error) => return eprintln!(rt; "no device: {error}"),
    }
    fs::remove_file(rt, SHARDED)
}

fn main(rt: HostRuntime) -> io::Result<()> {
    try_memory(&rt)?;
    print_crowd(&rt)?;
    with_shards(&rt)?;
    match Worker::new(&rt, rt.alloc(), FILE) {
        Ok(worker) => with_cache(&rt, worker)?,
        Err(error) => return eprintln!(rt; "no device: {error}"),
    }
    // (a service leaves it there for its next start)
    fs::remove_file(&rt, FILE)
}
