//! Values of a filter whose every instruction runs; bench/verdict_speed.py takes the time.
use anyhow::Result;
use nv_bpf::{Filter, FilterFault, Op, verify};
use nv_rules::{Pair, value};
use std::alloc::{AllocError, Global};
use std::io::Print;

// Loads the version's index, adds 1 again and again, and returns the sum.
fn adding_filter(alloc: Global, count: u32) -> Result<Result<Filter, FilterFault>, AllocError> {
    let mut ops = Vec::new(alloc);
    ops.push(Op {
        code: 0x20,
        jt: 0,
        jf: 0,
        k: 128,
    })?;
    for _ in 0..count.saturating_sub(2) {
        ops.push(Op {
            code: 0x04,
            jt: 0,
            jf: 0,
            k: 1,
        })?;
    }
    ops.push(Op {
        code: 0x16,
        jt: 0,
        jf: 0,
        k: 0,
    })?;
    Ok(verify(ops))
}

// The sum of the values for the versions below a number.
fn sum_of_values(filter: &Filter, versions: u32) -> u32 {
    let mut pair = Pair { words: [0; 36] };
    let mut sum = 0u32;
    for version in 0..versions {
        pair.words[32] = version;
        sum = sum.wrapping_add(value(filter, &pair));
    }
    sum
}

fn number(word: Option<&String>, default: u32) -> u32 {
    match word {
        Some(word) => word.as_str().parse().unwrap_or(default),
        None => default,
    }
}

/// Takes how many instructions the filter has and how many values are asked for.
pub fn run_words<R: Print + AllocGlobal>(rt: &R, words: &[String]) -> Result<()> {
    run_filter(rt, number(words.first(), 10), number(words.get(1), 1000))
}

/// Prints the sum of so many values of a filter with so many instructions.
pub fn run_filter<R: Print + AllocGlobal>(rt: &R, count: u32, versions: u32) -> Result<()> {
    match adding_filter(rt.alloc(), count)? {
        Ok(filter) => println!(rt; "{count} {versions} {}", sum_of_values(&filter, versions))?,
        Err(fault) => println!(rt; "{fault:?}")?,
    }
    Ok(())
}
