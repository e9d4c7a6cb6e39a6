// What a call hands over, and where its answer goes.
ghost use Rattle.std.specs.Prelude.{◌≡◌, ◌≤◌, ◌+◌, ◌*◌, ◌++◌, length, replicate, Some, option_map, IfSome};
ghost use Rattle.nv_guest.specs.Guest.{machine_with, machine_by};
ghost use Rattle.nv_calls.specs.Calls.{request};
ghost use Rattle.nv_calls.specs.Answers.{polled_count};
ghost use Rattle.nv_calls.specs.Numbers.{is_local};
ghost use Rattle.nv_calls.specs.Shapes.{IsShaped};
ghost use Rattle.nv_guest.specs.Threads.{asked_as};
ghost use Rattle.nv_guest.specs.Calls.{argument, call_number, call_at, kept, values, values_with, out_of, vector_count, path_in, first_bytes, readable, timeout_in, set_size, set_places, set_in, sets_in, selected_bytes, polled_bytes, polled_in, vectors_in, capacity_in, refused, with_payload, with_capacity, with_out, handed, handed_as, memory_after};

use crate::answers::{read_targets, scatter, store_bytes, store_events, store_sets};
use crate::outcome::{Asked, asked_of};
use crate::paths::read_path;
use crate::vectors::{Part, capacity_of, gather};
use arrayvec::ArrayVec;
use nv_calls::{
    Bytes, Call, MOST_ADDRESS, MOST_BYTES, MOST_PATH, MOST_VECTORS, POLLED_BYTES, Slot, Syscall,
    TIME_BYTES, polled_count, selected_count, set_bytes,
};
use nv_machine::Regs;
use nv_memory::{Memory, Right};

/// The register of a call's number, a7.
pub(crate) const NUMBER: u8 = 17;

// The bytes of the largest set of pselect6.
const MOST_SET: usize = 128;

/// What a call hands over beside its payload.
#[derive(Drop)]
pub(crate) struct Checked {
    /// A range isn't the guest's to read or write.
    pub(crate) bad: bool,
    /// How many bytes the vectors of a readv can hold.
    pub(crate) capacity: u32,
}

// An argument that is an address or isn't used counts as 0.
fn kept(slot: Slot, arg: u32) -> u32
    ensures { result ≡ kept slot arg }
{
    match slot {
        Slot::Value => arg,
        Slot::Address | Slot::Unused => 0,
    }
}

// These bytes are the payload.
fn fill(payload: &mut Bytes, bytes: &[u8]) -> Checked
    requires { length bytes.now ≤ payload.old.capacity }
    ensures handed { handed_as result payload.new.bytes ≡ with_payload (Some bytes.now) }
    ensures capacity { payload.new.capacity ≡ payload.old.capacity }
{
    payload.set(bytes);
    Checked {
        bad: false,
        capacity: 0,
    }
}

// Adds bytes, for which there is room.
fn append(all: &mut ArrayVec<u8, 4096>, bytes: &[u8])
    requires { length all.old.items + length bytes.now ≤ 4096 }
    ensures { all.new.items ≡ all.old.items ++ bytes.now }
{
    match all.try_extend_from_slice(bytes) {
        Ok(()) => {}
        Err(_) => unreachable!(),
    }
}

// These bytes one after the other are the payload.
fn fill_both(payload: &mut Bytes, first: &[u8], second: &[u8]) -> Checked
    requires few { length first.now + length second.now ≤ 4096 }
    requires capacity { MOST_BYTES ≤ payload.old.capacity }
    ensures handed { handed_as result payload.new.bytes ≡ with_payload (Some (first.now ++ second.now)) }
    ensures capacity { payload.new.capacity ≡ payload.old.capacity }
{
    let mut both = ArrayVec::<u8, 4096>::new();
    append(&mut both, first);
    append(&mut both, second);
    fill(payload, both.as_slice())
}

// These sets one after the other, and after them this time, are the payload.
fn fill_sets(payload: &mut Bytes, sets: (&[u8], &[u8], &[u8]), time: &[u8]) -> Checked
    requires few { length sets.0.now + length sets.1.now + length sets.2.now + length time.now ≤ 4096 }
    requires capacity { MOST_BYTES ≤ payload.old.capacity }
    ensures handed { handed_as result payload.new.bytes ≡ with_payload (Some (((sets.entry.0.now ++ sets.entry.1.now) ++ sets.entry.2.now) ++ time.now)) }
    ensures capacity { payload.new.capacity ≡ payload.old.capacity }
{
    let mut all = ArrayVec::<u8, 4096>::new();
    append(&mut all, sets.0);
    append(&mut all, sets.1);
    append(&mut all, sets.2);
    append(&mut all, time);
    fill(payload, all.as_slice())
}

// A range isn't the guest's.
fn refuse(payload: &mut Bytes) -> Checked
    ensures handed { handed_as result payload.new.bytes ≡ refused }
    ensures capacity { payload.new.capacity ≡ payload.old.capacity }
{
    payload.set(&[]);
    Checked {
        bad: true,
        capacity: 0,
    }
}

/// A thread at a call, with the memory.
#[derive(Clone, Copy, Drop)]
pub(crate) struct Caller<'a> {
    pub(crate) regs: &'a Regs,
    pub(crate) memory: &'a Memory,
}

impl Caller<'_> {
    // Argument `n` of the call.
    fn argument(&self, n: u8) -> u32
        requires { n ≤ 5 }
        ensures { result ≡ argument (machine_by self.now) n }
    {
        self.regs.get(10 + n)
    }

    // The arguments that are values, and 0 for the others.
    fn values(&self, syscall: Syscall) -> [u32; 6]
        ensures { result ≡ values syscall (machine_by self.now) }
    {
        let [a, b, c, d, e, f] = syscall.slots();
        [
            kept(a, self.argument(0)),
            kept(b, self.argument(1)),
            kept(c, self.argument(2)),
            kept(d, self.argument(3)),
            kept(e, self.argument(4)),
            kept(f, self.argument(5)),
        ]
    }

    /// The arguments of the call that are values; readv's fourth is the capacity of its vectors.
    pub(crate) fn values_with(&self, syscall: Syscall, capacity: u32) -> [u32; 6]
        ensures { result ≡ values_with syscall (machine_by self.now) capacity }
    {
        let mut values = self.values(syscall);
        if syscall == Syscall::Readv {
            values[3] = capacity;
        }
        values
    }

    // The part of memory that the answer goes to, unless vectors name it.
    fn out_of(&self, syscall: Syscall) -> Option<Part>
        ensures { result ≡ out_of syscall (machine_by self.now) }
    {
        let slot = syscall.answer_slot()?;
        Some(Part {
            address: self.argument(slot),
            size: syscall.most_out(&self.values(syscall)),
        })
    }

    // How many vectors the call has; of too many none is read.
    fn vector_count(&self) -> u32
        ensures value { result ≡ vector_count (machine_by self.now) }
        ensures few { result ≤ 1024 }
    {
        let count = self.argument(2);
        if count <= MOST_VECTORS { count } else { 0 }
    }

    // The path of openat and unlinkat.
    fn copy_path(&self, payload: &mut Bytes) -> Checked
        requires { MOST_BYTES ≤ payload.old.capacity }
        ensures handed { handed_as result payload.new.bytes ≡ with_payload (path_in (machine_by self.now)) }
        ensures capacity { payload.new.capacity ≡ payload.old.capacity }
    {
        let mut path = [0; MOST_PATH];
        match read_path(self.memory, self.argument(1), &mut path) {
            Some(count) => fill(payload, &path[..count]),
            None => refuse(payload),
        }
    }

    // The bytes of write, and the address of bind: at most so many.
    fn copy_bytes(&self, most: u32, payload: &mut Bytes) -> Checked
        requires { most ≤ payload.old.capacity }
        ensures handed { handed_as result payload.new.bytes ≡ with_payload (first_bytes most (machine_by self.now)) }
        ensures capacity { payload.new.capacity ≡ payload.old.capacity }
    {
        let count = self.argument(2).min(most);
        match self.memory.bytes(self.argument(1), count) {
            Ok(bytes) => fill(payload, bytes),
            Err(_) => refuse(payload),
        }
    }

    // The bytes from an address on, where they may be read.
    fn readable(&self, address: u32, count: u32) -> Option<&[u8]>
        ensures is { option_map (λ bytes. bytes.now) result ≡ readable (machine_by self.now).memory address count }
        ensures few { IfSome result (λ bytes. length bytes.now ≡ count) }
    {
        self.memory.bytes(address, count).ok()
    }

    // The time of clock_nanosleep.
    fn copy_time(&self, payload: &mut Bytes) -> Checked
        requires { MOST_BYTES ≤ payload.old.capacity }
        ensures handed { handed_as result payload.new.bytes ≡ with_payload (readable (machine_by self.now).memory (argument (machine_by self.now) 2) 16) }
        ensures capacity { payload.new.capacity ≡ payload.old.capacity }
    {
        match self.readable(self.argument(2), TIME_BYTES) {
            Some(bytes) => fill(payload, bytes),
            None => refuse(payload),
        }
    }

    // The time that argument `n` names; no bytes where none is given.
    fn timeout(&self, n: u8) -> Option<&[u8]>
        requires { n ≤ 5 }
        ensures is { option_map (λ bytes. bytes.now) result ≡ timeout_in n (machine_by self.now) }
        ensures few { IfSome result (λ bytes. length bytes.now ≤ 16) }
    {
        let address = self.argument(n);
        if address == 0 {
            return Some(&[]);
        }
        self.readable(address, TIME_BYTES)
    }

    // How many bytes the list of ppoll has.
    fn list_size(&self) -> u32
        ensures size { result ≡ 8 * polled_count (argument (machine_by self.now) 1) }
        ensures few { result ≤ 3264 }
    {
        POLLED_BYTES * polled_count(self.argument(1))
    }

    // What ppoll's descriptors are polled for, and its time.
    fn copy_polled(&self, payload: &mut Bytes) -> Checked
        requires { MOST_BYTES ≤ payload.old.capacity }
        ensures handed { handed_as result payload.new.bytes ≡ polled_in (machine_by self.now) }
        ensures capacity { payload.new.capacity ≡ payload.old.capacity }
    {
        let (list, size) = (self.argument(0), self.list_size());
        if !self.memory.holds(list, size, Right::Write) {
            return refuse(payload);
        }
        match (self.readable(list, size), self.timeout(2)) {
            (Some(polled), Some(time)) => fill_both(payload, polled, time),
            _ => refuse(payload),
        }
    }

    // How many bytes a set of pselect6 has.
    fn set_size(&self) -> u32
        ensures size { result ≡ set_size (machine_by self.now) }
        ensures few { result ≤ 128 }
    {
        set_bytes(selected_count(self.argument(0)))
    }

    // The set that argument `n` names, which may be read and written; the first of these zeros where none is given.
    fn set<'a>(&'a self, n: u8, zeros: &'a [u8; MOST_SET]) -> Option<&'a [u8]>
        requires argument { n ≤ 5 }
        requires zeros { zeros.now ≡ replicate 128 0 }
        ensures is { option_map (λ bytes. bytes.now) result ≡ set_in n (machine_by self.now) }
        ensures few { IfSome result (λ bytes. length bytes.now ≤ 128) }
    {
        let (place, size) = (self.argument(n), self.set_size());
        if place == 0 {
            return Some(&zeros[..size as usize]);
        }
        if !self.memory.holds(place, size, Right::Write) {
            return None;
        }
        self.readable(place, size)
    }

    // The sets of pselect6.
    fn sets<'a>(&'a self, zeros: &'a [u8; MOST_SET]) -> Option<(&'a [u8], &'a [u8], &'a [u8])>
        requires { zeros.now ≡ replicate 128 0 }
        ensures is { option_map (λ sets. (sets.0.now ++ sets.1.now) ++ sets.2.now) result ≡ sets_in (machine_by self.now) }
        ensures few { IfSome result (λ sets. length sets.0.now + length sets.1.now + length sets.2.now ≤ 384) }
    {
        let readable = self.set(1, zeros)?;
        let writable = self.set(2, zeros)?;
        let special = self.set(3, zeros)?;
        Some((readable, writable, special))
    }

    // The sets of pselect6, and its time.
    fn copy_selected(&self, payload: &mut Bytes) -> Checked
        requires { MOST_BYTES ≤ payload.old.capacity }
        ensures handed { handed_as result payload.new.bytes ≡ with_payload (selected_bytes (machine_by self.now)) }
        ensures capacity { payload.new.capacity ≡ payload.old.capacity }
    {
        let zeros = [0; MOST_SET];
        match (self.sets(&zeros), self.timeout(4)) {
            (Some(sets), Some(time)) => fill_sets(payload, sets, time),
            _ => refuse(payload),
        }
    }

    // The bytes of writev.
    fn gather_vectors(&self, payload: &mut Bytes) -> Checked
        requires { MOST_BYTES ≤ payload.old.capacity }
        ensures handed { handed_as result payload.new.bytes ≡ with_payload (vectors_in (machine_by self.now)) }
        ensures capacity { payload.new.capacity ≡ payload.old.capacity }
    {
        let mut bytes = [0; MOST_BYTES as usize];
        let (address, count) = (self.argument(1), self.vector_count());
        match gather(self.memory, address, count, &mut bytes) {
            Some(count) => fill(payload, &bytes[..count]),
            None => refuse(payload),
        }
    }

    // The capacity of readv.
    fn find_room(&self, payload: &mut Bytes) -> Checked
        ensures handed { handed_as result payload.new.bytes ≡ with_capacity (capacity_in (machine_by self.now)) }
        ensures capacity { payload.new.capacity ≡ payload.old.capacity }
    {
        payload.set(&[]);
        let (address, count) = (self.argument(1), self.vector_count());
        let capacity = capacity_of(self.memory, address, count, MOST_BYTES);
        Checked {
            bad: capacity.is_none(),
            capacity: capacity.unwrap_or(0),
        }
    }

    // The range that the answer goes to.
    fn check_out(&self, syscall: Syscall, payload: &mut Bytes) -> Checked
        ensures handed { handed_as result payload.new.bytes ≡ with_out (machine_by self.now).memory (out_of syscall (machine_by self.now)) }
        ensures capacity { payload.new.capacity ≡ payload.old.capacity }
    {
        payload.set(&[]);
        let bad = match self.out_of(syscall) {
            Some(part) => !self.memory.holds(part.address, part.size, Right::Write),
            None => false,
        };
        Checked { bad, capacity: 0 }
    }

    /// Checks what the call reads and writes, and fills the payload.
    pub(crate) fn copy_in(&self, syscall: Syscall, payload: &mut Bytes) -> Checked
        requires { MOST_BYTES ≤ payload.old.capacity }
        ensures handed { handed_as result payload.new.bytes ≡ handed syscall (machine_by self.now) }
        ensures capacity { payload.new.capacity ≡ payload.old.capacity }
    {
        match syscall {
            Syscall::Unlinkat | Syscall::Openat => self.copy_path(payload),
            Syscall::Write => self.copy_bytes(MOST_BYTES, payload),
            Syscall::Bind => self.copy_bytes(MOST_ADDRESS, payload),
            Syscall::Writev => self.gather_vectors(payload),
            Syscall::Readv => self.find_room(payload),
            Syscall::ClockNanosleep => self.copy_time(payload),
            Syscall::Pselect6 => self.copy_selected(payload),
            Syscall::Ppoll => self.copy_polled(payload),
            _ => self.check_out(syscall, payload),
        }
    }

    /// The call of the thread with this number.
    pub(crate) fn ask(&self, tid: u32, call: &mut Call) -> Asked
        requires { MOST_BYTES ≤ call.old.payload.capacity }
        ensures asked { result ≡ asked_as (is_local (call_number (machine_by self.now))) }
        ensures shaped { result ≡ Asked.Logged → IsShaped (request call.new) }
        ensures call { request call.new ≡ call_at (machine_by self.now) tid }
        ensures capacity { call.new.payload.capacity ≡ call.old.payload.capacity }
    {
        let nr = self.regs.get(NUMBER);
        let syscall = Syscall::of(nr);
        let checked = self.copy_in(syscall, &mut call.payload);
        call.tid = tid;
        call.nr = nr;
        call.args = self.values_with(syscall, checked.capacity);
        call.bad = checked.bad;
        asked_of(nr)
    }
}

// The bytes of readv's answer, over its vectors.
fn scatter_out(regs: &Regs, memory: &mut Memory, bytes: &[u8])
    ensures { memory.new ≡ memory_after Syscall.Readv (machine_with regs.now memory.old) bytes.now }
{
    let mut targets = [Part {
        address: 0,
        size: 0,
    }; MOST_VECTORS as usize];
    let (address, count) = vectors_of(Caller { regs, memory });
    let found = read_targets(memory, address, count, bytes.len(), &mut targets);
    scatter(memory, &targets[..found], bytes);
}

// Where the call's vectors are, and how many.
fn vectors_of(caller: Caller<'_>) -> (u32, u32)
    ensures value { result ≡ (argument (machine_by caller.entry) 1, vector_count (machine_by caller.entry)) }
    ensures few { result.1 ≤ 1024 }
{
    (caller.argument(1), caller.vector_count())
}

// What is left of the sets of pselect6.
fn copy_sets(regs: &Regs, memory: &mut Memory, bytes: &[u8])
    ensures { memory.new ≡ memory_after Syscall.Pselect6 (machine_with regs.now memory.old) bytes.now }
{
    let (size, places) = sets_of(Caller { regs, memory });
    store_sets(memory, size as usize, &places, bytes);
}

// How many bytes a set of pselect6 has, and where its sets are.
fn sets_of(caller: Caller<'_>) -> (u32, [u32; 3])
    ensures { result ≡ (set_size (machine_by caller.entry), set_places (machine_by caller.entry)) }
{
    let places = [caller.argument(1), caller.argument(2), caller.argument(3)];
    (caller.set_size(), places)
}

// What ppoll tells of its descriptors.
fn copy_events(regs: &Regs, memory: &mut Memory, bytes: &[u8])
    ensures { memory.new ≡ memory_after Syscall.Ppoll (machine_with regs.now memory.old) bytes.now }
{
    let (list, count) = polled_of(Caller { regs, memory });
    store_events(memory, list as usize, count, bytes);
}

// Where the list of ppoll is, and how many descriptors it has.
fn polled_of(caller: Caller<'_>) -> (u32, u32)
    ensures value { result ≡ (argument (machine_by caller.entry) 0, polled_count (argument (machine_by caller.entry) 1)) }
    ensures few { result.1 ≤ 408 }
{
    (caller.argument(0), polled_count(caller.argument(1)))
}

/// Stores the bytes of the answer where the call wants them.
pub(crate) fn copy_out(regs: &Regs, memory: &mut Memory, syscall: Syscall, bytes: &[u8])
    ensures { memory.new ≡ memory_after syscall (machine_with regs.now memory.old) bytes.now }
{
    match syscall {
        Syscall::Readv => scatter_out(regs, memory, bytes),
        Syscall::Pselect6 => copy_sets(regs, memory, bytes),
        Syscall::Ppoll => copy_events(regs, memory, bytes),
        _ => {
            let out = Caller { regs, memory }.out_of(syscall);
            if let Some(part) = out {
                store_bytes(memory, part.address, bytes);
            }
        }
    }
}
