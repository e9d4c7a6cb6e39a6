// The threads and their registers.
ghost use Rattle.std.specs.Prelude.{◌≡◌, ◌<◌, Contains};
ghost use Rattle.nv_outside.specs.Sink.{Puts};
ghost use Rattle.nv_guest.specs.Threads.{tids};
ghost use Rattle.nv_inspect.specs.Firsts.{texts_below};
ghost use Rattle.nv_inspect.specs.Shown.{word_text, register_text, registers_text, counter_text, thread_text, live_text, threads_text};

use itoa::Buffer;
use nv_guest::Guest;
use nv_machine::Regs;
use nv_outside::{Put, Sink, put_all, put_pieces};
use nv_report::put_hex;
use nv_threads::Process;

/// Eight hexadecimal digits.
pub fn put_word<S: Sink>(sink: &mut S, word: u32) -> Put
    ensures { Puts (S.told sink.old) (S.faults sink.old) (word_text word) result (S.told sink.new) (S.faults sink.new) }
{
    put_hex(sink, &word.to_be_bytes())
}

fn put_register<S: Sink>(sink: &mut S, regs: &Regs, n: u8) -> Put
    requires { n < 32 }
    ensures { Puts (S.told sink.old) (S.faults sink.old) (register_text regs.now n) result (S.told sink.new) (S.faults sink.new) }
{
    put_all(sink, b" ")?;
    put_word(sink, regs.get(n))
}

fn put_each_register<S: Sink>(sink: &mut S, regs: &Regs) -> Put
    ensures { Puts (S.told sink.old) (S.faults sink.old) (texts_below (register_text regs.now) 32) result (S.told sink.new) (S.faults sink.new) }
{
    for n in 0..32 {
        put_register(sink, regs, n)?;
    }
    Ok(())
}

fn put_registers<S: Sink>(sink: &mut S, regs: &Regs) -> Put
    ensures { Puts (S.told sink.old) (S.faults sink.old) (registers_text regs.now) result (S.told sink.new) (S.faults sink.new) }
{
    put_all(sink, b"x")?;
    put_each_register(sink, regs)?;
    put_all(sink, b"\n")
}

fn put_counter<S: Sink>(sink: &mut S, tid: u32, pc: u32) -> Put
    ensures { Puts (S.told sink.old) (S.faults sink.old) (counter_text tid pc) result (S.told sink.new) (S.faults sink.new) }
{
    let mut buffer = Buffer::new();
    put_pieces(sink, &[b"thread ", buffer.format(tid).as_bytes(), b" pc "])?;
    put_word(sink, pc)?;
    put_all(sink, b"\n")
}

fn put_thread<S: Sink>(sink: &mut S, guest: &Guest, tid: u32) -> Put
    requires { Contains (tids guest.now.threads) tid }
    ensures { Puts (S.told sink.old) (S.faults sink.old) (thread_text guest.now tid) result (S.told sink.new) (S.faults sink.new) }
{
    put_counter(sink, tid, guest.pc(tid))?;
    put_registers(sink, guest.regs(tid))
}

fn put_live<S: Sink>(sink: &mut S, process: &Process, tid: u32) -> Put
    ensures { Puts (S.told sink.old) (S.faults sink.old) (live_text process.now tid) result (S.told sink.new) (S.faults sink.new) }
{
    if process.lives(tid) {
        put_thread(sink, process.guest(), tid)
    } else {
        Ok(())
    }
}

/// Each thread that lives, with its registers.
pub fn put_threads<S: Sink>(sink: &mut S, process: &Process) -> Put
    ensures { Puts (S.told sink.old) (S.faults sink.old) (threads_text process.now) result (S.told sink.new) (S.faults sink.new) }
{
    let end = u64::from(process.highest()) + 1;
    for tid in 0..end {
        put_live(sink, process, tid as u32)?;
    }
    Ok(())
}
