// Standard output as a sink, as the monitor has it. It tells no bytes.
ghost use Rattle.std.specs.Prelude.{None};

use nv_outside::{Sink, Wrote};
use std::io;
use std::io::{Print, Write};

#[derive(Drop)]
pub struct Output<'a, R: Print> {
    rt: &'a R,
    faults: u64,
}

impl<'a, R: Print> Output<'a, R> {
    pub fn make(rt: &'a R) -> Self {
        Output { rt, faults: 0 }
    }
}

impl<R: Print> Sink for Output<'_, R> {
    ghost told = { λ _. None };

    ghost faults = { λ s. s.faults };

    fn write(&mut self, piece: &[u8]) -> Wrote {
        match io::writer(self.rt).write(piece) {
            Ok(count) if count > 0 || piece.is_empty() => Wrote::Count(count),
            _ => {
                self.faults = self.faults.saturating_add(1);
                Wrote::Failed
            }
        }
    }
}
