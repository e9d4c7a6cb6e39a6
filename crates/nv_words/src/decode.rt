//! An event, read from its words.
ghost use Rattle.std.specs.Prelude.{◌≡◌, ℕ, ◌+◌, ◌*◌, ◌/◌, ◌%◌, ◌≤◌, length, take};
ghost use Rattle.std.specs.List.{flat_map};
ghost use Rattle.byteorder.specs.Endian.{little_bytes};
ghost use Rattle.nv_calls.specs.Calls.{entry};
ghost use Rattle.nv_words.specs.Spelling.{low as low_of, high as high_of};
ghost use Rattle.nv_words.specs.Read.{event_of, sent_of, came_of};

use byteorder::{ByteOrder, LittleEndian};
use nv_calls::Event;

// `bytes` is where the payload words are unpacked.
pub(crate) fn decode(words: &[u64], bytes: &mut [u8], event: &mut Event)
    requires words { 6 ≤ length words.now }
    requires bytes { 8 * length words.now ≤ length bytes.old + 48 }
    requires payload { sent_of words.now + came_of words.now + 48 ≤ 8 * length words.now }
    requires sent { sent_of words.now ≤ event.old.call.payload.capacity }
    requires came { came_of words.now ≤ event.old.reply.payload.capacity }
    ensures event { entry event.new ≡ event_of words.now }
    ensures sent { event.new.call.payload.capacity ≡ event.old.call.payload.capacity }
    ensures came { event.new.reply.payload.capacity ≡ event.old.reply.payload.capacity }
{
    unpack(&words[6..], bytes);
    let sizes = high(words[5]);
    let sent = (sizes % 65536) as usize;
    let came = (sizes / 65536) as usize;
    event.stamp = low(words[1]);
    event.call.tid = low(words[0]);
    event.call.nr = high(words[0]);
    event.call.args = [
        low(words[2]),
        high(words[2]),
        low(words[3]),
        high(words[3]),
        low(words[4]),
        high(words[4]),
    ];
    event.call.bad = high(words[1]) == 1;
    event.call.payload.set(&bytes[..sent]);
    event.reply.ret = low(words[5]).cast_signed();
    event.reply.payload.set(&bytes[sent..sent + came]);
}

fn unpack(words: &[u64], bytes: &mut [u8])
    requires { 8 * length words.now ≤ length bytes.old }
    ensures wide { length bytes.new ≡ length bytes.old }
    ensures prefix { take (8 * length words.now) bytes.new ≡ flat_map (little_bytes 8) words.now }
{
    let size = 8 * words.len();
    LittleEndian::write_u64_into(words, &mut bytes[..size]);
}

fn low(word: u64) -> u32
    ensures { result ≡ low_of word }
{
    (word % 4294967296) as u32
}

fn high(word: u64) -> u32
    ensures { result ≡ high_of word }
{
    (word / 4294967296) as u32
}
