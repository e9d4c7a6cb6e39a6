//! Words through rtrb, one by one.
ghost use Rattle.std.specs.Prelude.{◌≤◌};

use rtrb::{Consumer, Producer, RingBuffer};
use std::alloc::{AllocError, Global};
use std::thread::{Threads, join, yield_now};

// How many events' words the queue holds.
const PLACES: u32 = 64;

/// How many events' words came through.
pub fn run<R: Threads>(rt: &R, alloc: Global, words: u32, events: u32) -> Result<u64, AllocError>
    requires words { words ≤ 518 }
    requires events { events ≤ 131072 }
{
    let (producer, consumer) = RingBuffer::new(alloc, (PLACES * words) as usize)?;
    let count = words * events;
    let (_, came) = join(
        rt,
        move || push_all(producer, count),
        move || pop_all(consumer, count),
    );
    Ok(came.checked_div(words).unwrap_or(0) as u64)
}

fn push_all(mut producer: Producer<u64, Global>, count: u32) {
    let mut sent = 0;
    for _turn in 0..u64::MAX {
        if sent >= count {
            return;
        }
        if producer.push(sent as u64).is_ok() {
            sent += 1;
        } else {
            yield_now();
        }
    }
}

fn pop_all(mut consumer: Consumer<u64, Global>, count: u32) -> u32 {
    let mut came = 0;
    for _turn in 0..u64::MAX {
        if came >= count {
            return came;
        }
        if consumer.pop().is_ok() {
            came += 1;
        } else {
            yield_now();
        }
    }
    came
}
