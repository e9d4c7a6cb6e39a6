// What scripts of bench/ time, by its name.
use crate::{machine, ring, rules, sequence, threads};
use anyhow::{Result, bail};
use std::io::Print;
use std::rt::Files;
use std::thread::Threads;

/// Runs what this name stands for, as its words say.
pub fn run_named<R: Files + Print + AllocGlobal + Threads + Sync>(
    rt: &R,
    name: &str,
    words: &[String],
) -> Result<()> {
    match name {
        "machine" => machine::run_words(rt, words),
        "threads" => threads::run_words(rt, words),
        "rules" => rules::run_words(rt, words),
        "sequence" => sequence::run_words(rt, words),
        "ring" => ring::run_words(rt, words),
        _ => bail!("rows, machine, threads, rules, sequence or ring"),
    }
}

/// A small run of each.
pub fn run_each<R: Files + Print + AllocGlobal + Threads + Sync>(rt: &R) -> Result<()> {
    machine::run_guest(rt, "memory", 100_000)?;
    threads::run_guest(rt, "eight", 100_000)?;
    rules::run_filter(rt, 10, 1000)?;
    sequence::run_file(rt, "v")?;
    ring::run_kind(rt, "ring-6-1")
}
