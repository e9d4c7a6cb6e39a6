ghost use Rattle.std.specs.Prelude.{◌≡◌, []};

use crate::learning::LearningKernel;
use crate::outside::Outside;
use crate::runs::{beside, one_by_one, text_of};
use nv_calls::Recorded;
use nv_workers::OpenGate;
use std::alloc::Global;
use std::process::Abort;

// The letters from one on up to c, and then the end.
#[derive(Drop)]
struct Letters {
    next: u8,
}

impl Outside for Letters {
    ghost use Rattle.std.specs.Prelude.{None};

    ghost told = { λ letters. None };

    fn next(&mut self) -> Option<u8> {
        let letter = self.next;
        if letter > b'c' {
            return None;
        }
        self.next = letter + 1;
        Some(letter)
    }
}

// It reads the input byte by byte up to its end, and exits with how many bytes it got.
const READS: &str =
    ".text\nli s0, 0\nnext: li a7, 63\nli a0, 0\nmv a1, sp\nli a2, 1\necall\nbeq a0, zero, done\naddi s0, s0, 1\nj next\ndone: mv a0, s0\nli a7, 94\necall\n";

fn kernel_from<R: Abort>(rt: &R, alloc: Global, first: u8) -> LearningKernel<Letters>
    ensures { result.log ≡ [] }
{
    LearningKernel::make(alloc, Letters { next: first }).expect(rt, "a kernel")
}

// Two versions beside each other read what comes, on one thread and on two, and tell the account of one after another.
#[test]
fn letters_come(rt: HostRuntime) {
    let alloc = rt.alloc();
    let hands = Vec::new(alloc);
    let texts = [
        String::from_str(alloc, READS).expect(&rt, "memory"),
        String::from_str(alloc, READS).expect(&rt, "memory"),
    ];
    for (first, events) in [(b'a', 5), (b'c', 3), (b'd', 2)] {
        let plain = one_by_one(alloc, kernel_from(&rt, alloc, first), &texts, None, &hands);
        let account = plain.expect(&rt, "a run");
        assert_eq!(&rt; account.kernel.history().len(), events);
        let plain = text_of(&rt, alloc, Some(account));
        for threads in [1, 2] {
            let account = beside(
                &rt,
                alloc,
                kernel_from(&rt, alloc, first),
                &texts,
                None,
                &OpenGate,
                &hands,
                2,
                threads,
            );
            assert_eq!(&rt;
                text_of(&rt, alloc, account.ok()).as_slice(),
                plain.as_slice()
            );
        }
    }
}
