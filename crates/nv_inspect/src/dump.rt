// Bytes of the memory.
ghost use Rattle.std.specs.Prelude.{◌≡◌, ◌+◌, ◌*◌, ◌≤◌, ◌<◌, Some};
ghost use Rattle.nv_outside.specs.Sink.{Puts};
ghost use Rattle.nv_inspect.specs.Firsts.{texts_below};
ghost use Rattle.nv_inspect.specs.Shown.{cell_text, byte_text, row_text, memory_line, dump_text, IsDump};

use crate::threads::put_word;
use nv_memory::Memory;
use nv_outside::{Put, Sink, put_all};
use nv_report::put_hex;

const ROW: u32 = 16;

fn put_cell<S: Sink>(sink: &mut S, byte: Option<u8>) -> Put
    ensures { Puts (S.told sink.old) (S.faults sink.old) (cell_text byte) result (S.told sink.new) (S.faults sink.new) }
{
    match byte {
        Some(byte) => put_hex(sink, &[byte]),
        None => put_all(sink, b"--"),
    }
}

fn put_byte<S: Sink>(sink: &mut S, memory: &Memory, address: u32, i: u32) -> Put
    requires { address + i ≤ 4_294_967_295 }
    ensures { Puts (S.told sink.old) (S.faults sink.old) (byte_text memory.now address i) result (S.told sink.new) (S.faults sink.new) }
{
    put_all(sink, b" ")?;
    put_cell(sink, memory.byte(address + i))
}

fn put_bytes<S: Sink>(sink: &mut S, memory: &Memory, address: u32, length: u32) -> Put
    requires { address + length ≤ 4_294_967_295 }
    ensures { Puts (S.told sink.old) (S.faults sink.old) (texts_below (byte_text memory.now address) length) result (S.told sink.new) (S.faults sink.new) }
{
    for i in 0..length {
        put_byte(sink, memory, address, i)?;
    }
    Ok(())
}

fn put_row<S: Sink>(sink: &mut S, memory: &Memory, address: u32, length: u32) -> Put
    requires { address + length ≤ 4_294_967_295 }
    ensures { Puts (S.told sink.old) (S.faults sink.old) (row_text memory.now address length) result (S.told sink.new) (S.faults sink.new) }
{
    put_all(sink, b"mem ")?;
    put_word(sink, address)?;
    put_bytes(sink, memory, address, length)?;
    put_all(sink, b"\n")
}

fn put_line<S: Sink>(sink: &mut S, memory: &Memory, address: u32, length: u32, i: u32) -> Put
    requires ends { address + length ≤ 4_294_967_295 }
    requires inside { 16 * i < length }
    ensures { Puts (S.told sink.old) (S.faults sink.old) (memory_line memory.now address length i) result (S.told sink.new) (S.faults sink.new) }
{
    let done = ROW * i;
    put_row(sink, memory, address + done, ROW.min(length - done))
}

fn put_range<S: Sink>(sink: &mut S, memory: &Memory, address: u32, length: u32) -> Put
    requires few { length ≤ 4096 }
    requires ends { address + length ≤ 4_294_967_295 }
    ensures { Puts (S.told sink.old) (S.faults sink.old) (dump_text memory.now (Some (address, length))) result (S.told sink.new) (S.faults sink.new) }
{
    for i in 0..length.div_ceil(ROW) {
        put_line(sink, memory, address, length, i)?;
    }
    Ok(())
}

/// The bytes of the range that is asked for.
pub fn put_dump<S: Sink>(sink: &mut S, memory: &Memory, dump: Option<(u32, u32)>) -> Put
    requires { IsDump dump }
    ensures { Puts (S.told sink.old) (S.faults sink.old) (dump_text memory.now dump) result (S.told sink.new) (S.faults sink.new) }
{
    match dump {
        Some((address, length)) => put_range(sink, memory, address, length),
        None => Ok(()),
    }
}
