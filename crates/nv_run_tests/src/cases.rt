//! Rooms of small programs.

use crate::seed::Seed;
use nv_bpf::Filter;
use std::alloc::{AllocError, Global};

/// A room and its versions.
#[derive(Drop)]
pub struct Case {
    /// The versions' programs, as texts for the assembler.
    pub texts: Vec<String>,
    pub rules: Option<Filter>,
    pub places: u32,
    /// The lengths of the log at which the lead is to be handed over.
    pub hands: Vec<u32>,
}

// What a thread does after its calls: it exits, faults at a load from address 0 or at an illegal word, spins until its budget is gone, or makes a call that the
// others don't make.
const ENDINGS: [&str; 6] = [
    "li a0, 7\nli a7, 94\necall\n",
    "li a0, 7\nli a7, 93\necall\n",
    "lw a0, 0(zero)\n",
    ".word 0\n",
    "spin: j spin\n",
    "li a7, 172\necall\nli a0, 7\nli a7, 94\necall\n",
];

// Makes a second thread, which goes on at the same place.
const MAKES_THREAD: &str =
    "li a0, 0xd0f00\nla a1, top\nli a2, 0\nli a3, 0\nli a4, 0\nli a7, 220\necall\n";

// Filters in the form that `tcpdump -ddd` prints. Where a call isn't the log's, the first allows it, the second skips the log's event, and the third answers error
// 4 (EINTR).
const FILTERS: [&str; 3] = [
    "1\n6 0 0 2147418112\n",
    "1\n6 0 0 393216\n",
    "1\n6 0 0 327684\n",
];

impl Case {
    /// A room of 1 to 8 versions over 2 or 3 places, one in two with a filter, with up to 4 planned lengths.
    pub fn draw(alloc: Global, seed: &mut Seed) -> Result<Case, AllocError> {
        let texts = draw_texts(alloc, seed)?;
        let rules = draw_filter(alloc, seed);
        let places = 2 + seed.below(2);
        let hands = draw_lengths(alloc, seed)?;
        Ok(Case {
            texts,
            rules,
            places,
            hands,
        })
    }
}

fn draw_texts(alloc: Global, seed: &mut Seed) -> Result<Vec<String>, AllocError> {
    let mut texts = Vec::new(alloc);
    for _version in 0..1 + seed.below(8) {
        texts.push(draw_text(alloc, seed)?)?;
    }
    Ok(texts)
}

// A program of one thread or two, each of which makes up to 7 calls getuid and comes to one of the endings.
fn draw_text(alloc: Global, seed: &mut Seed) -> Result<String, AllocError> {
    let start = if seed.below(4) == 0 { MAKES_THREAD } else { "" };
    let calls = 1 + seed.below(7);
    let ending = ENDINGS[seed.below(6) as usize];
    format!(in alloc;
        ".text\n{start}li s0, {calls}\nnext: li a7, 174\necall\naddi s0, s0, -1\nbne s0, zero, next\n{ending}.data\n.zero 64\ntop: .zero 4\n"
    )
}

fn draw_filter(alloc: Global, seed: &mut Seed) -> Option<Filter> {
    if seed.tosses() {
        return None;
    }
    let text = FILTERS[seed.below(3) as usize];
    nv_bpf::read(alloc, text.as_bytes()).ok()
}

// Up to 4 lengths, each greater than the one before.
fn draw_lengths(alloc: Global, seed: &mut Seed) -> Result<Vec<u32>, AllocError> {
    let mut lengths = Vec::new(alloc);
    for planned in 0..seed.below(5) {
        lengths.push(3 * planned + 1 + seed.below(3))?;
    }
    Ok(lengths)
}
