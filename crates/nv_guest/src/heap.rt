// The heap, which is the last region of the memory.
ghost use Rattle.std.specs.Prelude.{◌≡◌};
ghost use Rattle.nv_guest.specs.Threads.{break_after};
ghost use Rattle.nv_guest.specs.Heap.{moved};
ghost use Rattle.nv_guest.specs.inner.Heap.{HasHeap};

use nv_memory::Memory;

/// Where the heap stands.
#[derive(Drop)]
pub(crate) struct Heap {
    /// Its place among the regions.
    pub(crate) place: usize,
    pub(crate) start: u32,
    pub(crate) end: u32,
    /// The stack's start, which is as far as the heap may go.
    pub(crate) limit: u32,
}

/// Moves the break, if it may be there, and gives it (brk(2)).
pub(crate) fn move_heap(heap: &mut Heap, memory: &mut Memory, address: u32) -> u32
    requires { HasHeap memory.old heap.old }
    ensures answer { result ≡ break_after memory.old address }
    ensures memory { memory.new ≡ moved memory.old address }
    ensures heap { HasHeap memory.new heap.new }
{
    if address < heap.start || address > heap.limit {
        return heap.end;
    }
    memory.resize(heap.place, address);
    heap.end = address;
    address
}
