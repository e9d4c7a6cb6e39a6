// The verdict of a filter's value.
ghost use Rattle.std.specs.Prelude.{◌≡◌};
ghost use Rattle.nv_rules.specs.Verdicts.{verdict_of};

use crate::outcome::Verdict;

/// The verdict that a filter's value stands for, by its high half.
pub fn verdict(value: u32) -> Verdict
    ensures { result ≡ verdict_of value }
{
    match value / 65536 {
        0x7fff => Verdict::Allow,
        0x0005 => Verdict::Errno((value % 65536) as u16),
        0x0006 => Verdict::Skip,
        0x0007 => Verdict::Take,
        _ => Verdict::Refuse(value),
    }
}
