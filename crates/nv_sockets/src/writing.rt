// What was written to each connection, as a part of a report.
ghost use Rattle.std.specs.Prelude.{◌≡◌, ◌+◌, ◌<◌, ◌^◌, ℕ, length, map, slice_index};
ghost use Rattle.nv_calls.specs.Logs.{connections_of};
ghost use Rattle.nv_outside.specs.Sink.{Puts};
ghost use Rattle.nv_sockets.specs.Serving.{start_of_script};
ghost use Rattle.nv_sockets.specs.Texts.{connection_count_text, connection_text, connection_texts, connections_text};
ghost use Rattle.nv_sockets.specs.Views.{written_of, gone_of};

use crate::connection::Connection;
use crate::kernel::{SocketKernel, connections};
use itoa::Buffer;
use nv_outside::{Put, Sink, put_pieces};

fn put_count<S: Sink>(sink: &mut S, connections: usize) -> Put
    ensures { Puts (S.told sink.old) (S.faults sink.old) (connection_count_text connections) result (S.told sink.new) (S.faults sink.new) }
{
    let mut buffer = Buffer::new();
    put_pieces(
        sink,
        &[
            b"connections ",
            buffer.format(connections).as_bytes(),
            b"\n",
        ],
    )
}

fn put_line<S: Sink>(sink: &mut S, index: usize, connection: &Connection) -> Put
    requires { gone_of connection.now ≡ 0 }
    ensures { Puts (S.told sink.old) (S.faults sink.old) (connection_text index (written_of connection.now)) result (S.told sink.new) (S.faults sink.new) }
{
    put_written(sink, index, connection.port, connection.output.kept())
}

fn put_written<S: Sink>(sink: &mut S, index: usize, port: u32, output: &[u8]) -> Put
    ensures { Puts (S.told sink.old) (S.faults sink.old) (connection_text index (record { port = port; bytes = output.now })) result (S.told sink.new) (S.faults sink.new) }
{
    let mut first = Buffer::new();
    let mut second = Buffer::new();
    let mut third = Buffer::new();
    put_pieces(
        sink,
        &[
            b"connection ",
            first.format(index).as_bytes(),
            b" ",
            second.format(port).as_bytes(),
            b" ",
            third.format(output.len()).as_bytes(),
            b"\n",
            output,
            b"\n",
        ],
    )
}

// Each connection, with its number.
fn put_lines<S: Sink>(sink: &mut S, connections: &[Connection]) -> Put
    requires { (i : ℕ) → slice_index (map gone_of connections.now) i ≡ 0 }
    ensures { Puts (S.told sink.old) (S.faults sink.old) (connection_texts 0 (map written_of connections.now)) result (S.told sink.new) (S.faults sink.new) }
{
    for index in 0..connections.len() {
        put_line(sink, index, &connections[index])?;
    }
    Ok(())
}

/// Writes how many connections there are, and of each its number, its port and what was written to it; nothing where there is none. It takes no memory.
pub fn put_connections<S: Sink>(sink: &mut S, connections: &[Connection]) -> Put
    requires { (i : ℕ) → slice_index (map gone_of connections.now) i ≡ 0 }
    ensures { Puts (S.told sink.old) (S.faults sink.old) (connections_text (map written_of connections.now)) result (S.told sink.new) (S.faults sink.new) }
{
    if connections.is_empty() {
        return Ok(());
    }
    put_count(sink, connections.len())?;
    put_lines(sink, connections)
}

/// Writes a kernel's connections so.
pub fn write_connections<S: Sink>(sink: &mut S, kernel: &SocketKernel) -> Put
    ensures { Puts (S.told sink.old) (S.faults sink.old) (connections_text (connections_of (start_of_script kernel.now.setup) kernel.now.log)) result (S.told sink.new) (S.faults sink.new) }
{
    put_connections(sink, connections(kernel))
}
