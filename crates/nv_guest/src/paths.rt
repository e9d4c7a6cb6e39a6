// Paths in the guest's memory.
ghost use Rattle.std.specs.Prelude.{◌≡◌, ◌≤◌, length, take, option_map, IfSome};
ghost use Rattle.nv_guest.specs.Paths.{byte_at, path_at};

use nv_memory::Memory;

// The byte at an address, where it may be read.
#[tactic(auto, unfolding(crate::specs::Paths::byte_at))]
fn byte_at(memory: &Memory, at: usize) -> Option<u8>
    ensures { result ≡ byte_at memory.now at }
{
    let address = u32::try_from(at).ok()?;
    let mut byte = [0];
    memory.copy_in(address, &mut byte).ok()?;
    Some(byte[0])
}

/// Reads the path at an address into the beginning of a buffer, and gives its length; nothing where it may not be read.
pub fn read_path(memory: &Memory, address: u32, out: &mut [u8]) -> Option<usize>
    ensures path { option_map (λ count. take count out.new) result ≡ path_at (length out.old) memory.now address }
    ensures inside { IfSome result (λ count. count ≤ length out.old) }
{
    for i in 0..out.len() {
        let byte = byte_at(memory, address as usize + i)?;
        if byte == 0 {
            return Some(i);
        }
        out[i] = byte;
    }
    Some(out.len())
}
