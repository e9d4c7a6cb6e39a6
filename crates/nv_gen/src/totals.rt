// The line that sums a run up.
ghost use Rattle.std.specs.Prelude.{◌≡◌, ◌++◌, IfOk, OnOk};
ghost use Rattle.nv_gen.specs.Made.{named_number, summary};
ghost use Rattle.nv_gen.specs.Measures.{totals_in};

use crate::measures::Measures;
use itoa::Buffer;
use std::alloc::{AllocError, Global};

/// What the run of a number came to.
#[derive(Clone, Copy, Debug, PartialEq, Eq)]
pub struct Totals {
    /// The bytes of its output.
    pub output: u64,
    /// The events of its log.
    pub log: u64,
    /// The versions that exited.
    pub exited: u64,
    /// The rewrites of all versions.
    pub rewrites: u64,
}

fn push_field(text: &mut Vec<u8>, name: &[u8], value: u64) -> Result<(), AllocError>
    ensures { OnOk result (text.new.items ≡ text.old.items ++ named_number name.now value) }
{
    let mut buffer = Buffer::new();
    text.extend_from_slice(name)?;
    text.extend_from_slice(buffer.format(value).as_bytes())
}

/// The line that sums the run of a number up.
#[tactic(auto, unfolding(crate::specs::Made::summary))]
pub fn summary(alloc: Global, number: u32, totals: &Totals) -> Result<Vec<u8>, AllocError>
    ensures { IfOk result (λ line. line.items ≡ summary number (totals_in totals.now)) }
{
    let versions = Measures::of(number).versions;
    let mut line = Vec::new(alloc);
    push_field(&mut line, b"gen ", u64::from(number))?;
    push_field(&mut line, b" versions ", u64::from(versions))?;
    push_field(&mut line, b" output ", totals.output)?;
    push_field(&mut line, b" log ", totals.log)?;
    push_field(&mut line, b" exited ", totals.exited)?;
    push_field(&mut line, b" rewrites ", totals.rewrites)?;
    line.push(b'\n')?;
    Ok(line)
}
