// Where leaders hand over.
ghost use Rattle.std.specs.Prelude.{◌≡◌, ◌≤◌, ◌++◌, ◌∷◌, [], true, length};
ghost use Rattle.nv_live.specs.HandOvers.{lengths_of};
ghost use Rattle.nv_script.specs.HandLines.{can_plan};

use arrayvec::ArrayVec;
use nv_script::can_plan;

// The most lengths that a script has.
const MOST: usize = 8;

/// The lengths of the log at which leaders hand over: those that a script plans, and then those of operators' words.
#[derive(Drop)]
pub struct HandOvers {
    lengths: ArrayVec<u32, MOST>,
}

impl HandOvers {
    /// Those that a script plans.
    pub fn new(planned: &[u32]) -> HandOvers
        requires { length planned.now ≤ 8 }
        ensures { lengths_of result ≡ planned.now }
    {
        let mut lengths = ArrayVec::new();
        match lengths.try_extend_from_slice(planned) {
            Ok(()) => HandOvers { lengths },
            Err(_) => unreachable!(),
        }
    }

    /// Whether the script can have this length as well.
    pub fn can_take(&self, length: usize) -> bool
        ensures { result ≡ can_plan length (lengths_of self.now) }
    {
        can_plan(length, &self.lengths)
    }

    /// A leader hands over at this length.
    pub fn take(&mut self, length: usize)
        requires { can_plan length (lengths_of self.old) ≡ true }
        ensures { lengths_of self.new ≡ lengths_of self.old ++ length ∷ [] }
    {
        self.lengths.push(length as u32);
    }
}
