// The argument block at the top of a guest's memory.
ghost use Rattle.std.specs.Prelude.{◌≡◌, ◌≤◌, ◌<◌, ◌+◌, ◌-◌, ◌*◌, ◌^◌, ◌++◌, ◌∷◌, [], ℕ, Some, None, IfSome, IsTrue, nat_le, if◌then◌else◌, length};
ghost use Rattle.std.specs.List.{list_any};
ghost use Rattle.nv_memory.specs.Bytes.{put, little_bytes};
ghost use Rattle.nv_memory.specs.Region.{lies_in};
ghost use Rattle.nv_guest.specs.Block.{strings, addresses, words, all_arguments, strings_start, stack_pointer, stack_words, with_block};
ghost use Rattle.nv_guest.specs.Load.{texts_of, IsMemorySize};

use nv_memory::Memory;

/// The size of the stack, at the top of the memory: the block has no more bytes.
pub(crate) const STACK: u32 = 65536;

/// The text and the 0 byte of argument 0.
const NAME: [u8; 6] = *b"guest\0";

// Where the block of a memory begins, and where its strings begin.
#[derive(Clone, Copy, Debug, PartialEq, Eq)]
pub struct Block {
    pub pointer: u32,
    pub start: u32,
}

// Where the block stands in a memory of this size, unless it is larger than the stack.
pub fn place_block(arguments: &[Vec<u8>], size: u32) -> Option<Block>
    requires { IsMemorySize size }
    ensures { result ≡ (if nat_le (size - stack_pointer size (all_arguments (texts_of arguments.now))) 65536
        then Some (record { pointer = stack_pointer size (all_arguments (texts_of arguments.now)); start = strings_start size (all_arguments (texts_of arguments.now)) })
        else None) }
{
    let strings = strings_size(arguments)? + NAME.len() as u32;
    let needed = strings + 4 * (arguments.len() as u32 + 6);
    if needed > STACK {
        return None;
    }
    Some(Block {
        pointer: (size - needed) / 16 * 16,
        start: size - strings,
    })
}

// Writes the block into the stack.
pub fn write_block(memory: &mut Memory, arguments: &[Vec<u8>], block: Block)
    requires words { block.pointer + 4 * (length arguments.now + 6) ≤ block.start }
    requires fits { block.start + length (strings (all_arguments (texts_of arguments.now))) < 2 ^ 32 }
    requires inside { IsTrue (list_any (lies_in block.pointer (block.start + length (strings (all_arguments (texts_of arguments.now))) - block.pointer)) memory.old.regions) }
    ensures { memory.new ≡ record memory.old { bytes = with_block memory.old.bytes block.pointer block.start (all_arguments (texts_of arguments.now)) } }
{
    write_words(memory, arguments, block.pointer, block.start);
    write_texts(memory, arguments, block.start);
}

// Writes the number of arguments, their addresses and the four words 0.
fn write_words(memory: &mut Memory, arguments: &[Vec<u8>], pointer: u32, start: u32)
    requires fits { pointer + 4 * (length arguments.now + 6) < 2 ^ 32 }
    requires texts { start + length (strings (all_arguments (texts_of arguments.now))) < 2 ^ 32 }
    requires inside { IsTrue (list_any (lies_in pointer (4 * (length arguments.now + 6))) memory.old.regions) }
    ensures { memory.new ≡ record memory.old { bytes = put memory.old.bytes pointer (words (stack_words start (all_arguments (texts_of arguments.now)))) } }
{
    let count = arguments.len() as u32;
    write_word(memory, pointer, count + 1);
    write_word(memory, pointer + 4, start);
    write_addresses(memory, arguments, pointer + 8, start + NAME.len() as u32);
    memory.fill(pointer + 8 + 4 * count, &[0; 16]);
}

// Writes the strings of all arguments.
fn write_texts(memory: &mut Memory, arguments: &[Vec<u8>], start: u32)
    requires fits { start + length (strings (all_arguments (texts_of arguments.now))) < 2 ^ 32 }
    requires inside { IsTrue (list_any (lies_in start (length (strings (all_arguments (texts_of arguments.now))))) memory.old.regions) }
    ensures { memory.new ≡ record memory.old { bytes = put memory.old.bytes start (strings (all_arguments (texts_of arguments.now))) } }
{
    memory.fill(start, &NAME);
    write_strings(memory, arguments, start + NAME.len() as u32);
}

// How many bytes the strings have, if they are no more than the stack.
#[tactic(auto, using(crate::proofs::Strings::place_after))]
fn strings_size(arguments: &[Vec<u8>]) -> Option<u32>
    ensures size { result ≡ (if nat_le (length (strings (texts_of arguments.now))) 65536 then Some (length (strings (texts_of arguments.now))) else None) }
    ensures most { IfSome result (λ size. size ≤ 65536) }
    ensures count { IfSome result (λ size. length arguments.now ≤ size) }
{
    let mut size = 0;
    for text in arguments {
        let more = text.len();
        if more >= STACK as usize {
            return None;
        }
        size += more as u32 + 1;
        if size > STACK {
            return None;
        }
    }
    Some(size)
}

// Writes a word.
fn write_word(memory: &mut Memory, at: u32, value: u32)
    requires { IsTrue (list_any (lies_in at 4) memory.old.regions) }
    ensures { memory.new ≡ record memory.old { bytes = put memory.old.bytes at (little_bytes 4 value) } }
{
    memory.fill(at, &value.to_le_bytes());
}

// Writes the address of each string from an address on; the first string is at `first`.
fn write_addresses(memory: &mut Memory, arguments: &[Vec<u8>], start: u32, first: u32)
    requires fits { start + 4 * length arguments.now < 2 ^ 32 }
    requires strings { first + length (strings (texts_of arguments.now)) < 2 ^ 32 }
    requires inside { IsTrue (list_any (lies_in start (4 * length arguments.now)) memory.old.regions) }
    ensures { memory.new ≡ record memory.old { bytes = put memory.old.bytes start (words (addresses first (texts_of arguments.now))) } }
{
    let mut at = start;
    let mut address = first;
    for text in arguments {
        write_word(memory, at, address);
        at += 4;
        address += text.len() as u32 + 1;
    }
}

// Writes the strings, each with its 0 byte, from the address on.
#[tactic(auto, using(crate::proofs::Strings::next_string, nv_memory::proofs::BytesLaws::put_append, nv_memory::proofs::RegionsLaws::part_of))]
fn write_strings(memory: &mut Memory, arguments: &[Vec<u8>], start: u32)
    requires fits { start + length (strings (texts_of arguments.now)) < 2 ^ 32 }
    requires inside { IsTrue (list_any (lies_in start (length (strings (texts_of arguments.now)))) memory.old.regions) }
    ensures { memory.new ≡ record memory.old { bytes = put memory.old.bytes start (strings (texts_of arguments.now)) } }
{
    let mut at = start;
    for text in arguments {
        let bytes = text.as_slice();
        write_string(memory, bytes, at);
        at += bytes.len() as u32 + 1;
    }
}

// Writes the text and a 0 byte.
#[tactic(auto, using(nv_memory::proofs::BytesLaws::put_append, nv_memory::proofs::RegionsLaws::part_of))]
fn write_string(memory: &mut Memory, text: &[u8], at: u32)
    requires fits { at + length text.now + 1 < 2 ^ 32 }
    requires inside { IsTrue (list_any (lies_in at (length text.now + 1)) memory.old.regions) }
    ensures { memory.new ≡ record memory.old { bytes = put memory.old.bytes at (text.now ++ 0 ∷ []) } }
{
    memory.fill(at, text);
    memory.fill(at + text.len() as u32, &[0]);
}
