// What comes as lines, read from a source.
ghost use Rattle.std.specs.Prelude.{◌≡◌, ◌+◌, ◌-◌, ◌<◌, ◌≤◌, ◌++◌, ◌∷◌, ◌^◌, [], None, Some, Ok, IfOk, OnOk, OnErr, length, drop, true, false, is_some};
ghost use Rattle.std.specs.List.{prefix_len};
ghost use Rattle.nv_bytes.specs.Lines.{line_number};
ghost use Rattle.nv_script.specs.Arrivals.{is_arrival};
ghost use Rattle.nv_script.specs.Order.{most_clients, nothing_came};
ghost use Rattle.nv_script.specs.Reading.{arrival_of};
ghost use Rattle.nv_script.specs.ArrivalViews.{view, result_view};
ghost use Rattle.nv_live.specs.Buffer.{held_in};
ghost use Rattle.nv_live.specs.ComingLines.{source_from, held_from, line_from, order_from, taken_from, asked_from, stop_from, is_plain, is_comment, is_hand, is_passed, stop_by_end, IsRefused, ComesOn, HandsOn, HasCome, AskedOnce, AskedOn, IsWhole};
ghost use Rattle.nv_live.specs.Source.{moment_of};

use crate::buffer::Buffer;
use crate::{Read, ReadBeside, Source, Stopped};
use nv_bytes::{is, line_number};
use nv_outside::Sink;
use nv_script::{Arrival, ArrivalCause, Order, read_arrival};
use std::alloc::{AllocError, Global};

// The most bytes of a line, with its newline.
const MOST_LINE: usize = 4096;

/// What comes as lines, read from a source.
#[derive(Drop)]
pub struct ComingLines<I> {
    source: I,
    buffer: Buffer,
    // The bytes of the line that comes, which goes on in the buffer.
    line: Vec<u8>,
    order: Order,
    // How many lines were taken.
    taken: usize,
    // A line `hand` has come since the leader last handed over for one.
    asked: bool,
    stopped: Option<Stopped>,
}

// Why nothing more comes after a read, where so many bytes of a line are held.
fn stop_by_end(read: Read, taken: usize, held: usize) -> Option<Stopped>
    ensures { result ≡ stop_by_end read taken held }
{
    match read {
        Read::Failed => Some(Stopped::Unreadable),
        Read::Count(0) if held == 0 => Some(Stopped::Ended),
        Read::Count(0) => Some(Stopped::CutOff(line_number(taken))),
        Read::Count(_) => None,
    }
}

// How many of these bytes stand before a newline.
fn before_newline(bytes: &[u8]) -> usize
    ensures count { result ≡ prefix_len is_plain bytes.now }
    ensures inside { result ≤ length bytes.now }
{
    bytes.iter().take_while(|byte| **byte != b'\n').count()
}

// Whether the line is a comment or empty.
fn is_comment(line: &[u8]) -> bool
    ensures { result ≡ is_comment line.now }
{
    match line {
        [] => true,
        [first, ..] => *first == b'#',
    }
}

// Whether the line is an operator's.
fn is_hand(line: &[u8]) -> bool
    ensures { result ≡ is_hand line.now }
{
    is(line, "hand")
}

// Whether the line says nothing to the guests.
fn is_passed(line: &[u8]) -> bool
    ensures { result ≡ is_passed line.now }
{
    is_comment(line) || is_hand(line)
}

impl<I: Source> ComingLines<I> {
    pub fn new(alloc: Global, buffer: Buffer, source: I) -> ComingLines<I>
        requires { held_in buffer ≡ [] }
        ensures source { source_from result ≡ source }
        ensures come { HasCome I.took I.faults result result [] 0 }
        ensures held { held_from result ≡ [] }
        ensures line { line_from result ≡ [] }
        ensures order { order_from result ≡ nothing_came (most_clients true) }
        ensures taken { taken_from result ≡ 0 }
        ensures asked { asked_from result ≡ false }
        ensures going { stop_from result ≡ None }
    {
        ComingLines {
            source,
            buffer,
            line: Vec::new(alloc),
            order: Order::new(alloc, true),
            taken: 0,
            asked: false,
            stopped: None,
        }
    }

    pub fn stopped(&self) -> Option<Stopped>
        ensures { result ≡ stop_from self.now }
    {
        self.stopped
    }

    pub fn finish(self) -> I
        ensures { result ≡ source_from self }
    {
        let ComingLines {
            source,
            buffer: _,
            line: _,
            order: _,
            taken: _,
            asked: _,
            stopped: _,
        } = self;
        source
    }

    /// The bytes of a line that has begun.
    pub fn line(&self) -> &[u8]
        ensures { result.now ≡ line_from self.now }
    {
        &self.line
    }

    /// What was read behind that line, and not yet taken.
    pub fn held(&self) -> &[u8]
        ensures { result.now ≡ held_from self.now }
    {
        self.buffer.held()
    }

    // Whether something is held, which is read where nothing was.
    fn has_more<O: Sink, T: Sink>(&mut self, said: &O, noted: &T) -> bool
    where
        I: ReadBeside<O, T>,
        ensures come { ComesOn I.took I.faults self.old self.new (λ arrivals. arrivals) }
        ensures asked { AskedOnce I.moments self.old self.new (moment_of I.took I.faults O.told O.faults T.told T.faults (source_from self.old) said.now noted.now) }
        ensures some { result ≡ true → 0 < length (held_from self.new) }
        ensures over { result ≡ false → is_some (stop_from self.new) ≡ true }
        ensures going { result ≡ true → stop_from self.new ≡ None }
        ensures line { line_from self.new ≡ line_from self.old }
        ensures taken { taken_from self.new ≡ taken_from self.old }
        ensures stays { is_some (stop_from self.old) ≡ true → (result ≡ false) × (self.new ≡ self.old) }
    {
        if self.stopped.is_some() {
            return false;
        }
        if self.buffer.is_empty() {
            let read = self.buffer.refill(&mut self.source, said, noted);
            self.stopped = stop_by_end(read, self.taken, self.line.len());
            return self.stopped.is_none();
        }
        true
    }

    // Moves what stands before a newline to the line.
    fn gather(&mut self) -> Result<(), AllocError>
        requires { stop_from self.old ≡ None }
        ensures source { source_from self.new ≡ source_from self.old }
        ensures come { ComesOn I.took I.faults self.old self.new (λ arrivals. arrivals) }
        ensures line { OnOk result (length (line_from self.new) + length (held_from self.new) ≡ length (line_from self.old) + length (held_from self.old)) }
        ensures whole { OnOk result (0 < length (held_from self.new) → IsWhole (held_from self.new)) }
        ensures taken { taken_from self.new ≡ taken_from self.old }
        ensures stop { stop_from self.new ≡ stop_from self.old }
    {
        let held = self.buffer.held();
        let count = before_newline(held);
        self.line.extend_from_slice(&held[..count])?;
        self.buffer.skip(count);
        Ok(())
    }

    /// Nothing more comes: the line is refused, for the first cause that it has.
    pub fn refuse(&mut self, cause: ArrivalCause)
        requires going { stop_from self.old ≡ None }
        requires cause { IsRefused (line_from self.old) (held_from self.old) (order_from self.old) (taken_from self.old) cause }
        ensures come { ComesOn I.took I.faults self.old self.new (λ arrivals. arrivals) }
        ensures stopped { stop_from self.new ≡ Some (Stopped.Refused (line_number (taken_from self.old)) cause) }
        ensures source { source_from self.new ≡ source_from self.old }
        ensures taken { taken_from self.new ≡ taken_from self.old }
    {
        self.stopped = Some(Stopped::Refused(line_number(self.taken), cause));
    }

    // Whether a whole line is held, which is read where none was.
    fn has_line<O: Sink, T: Sink>(&mut self, said: &O, noted: &T) -> Result<bool, AllocError>
    where
        I: ReadBeside<O, T>,
        ensures come { ComesOn I.took I.faults self.old self.new (λ arrivals. arrivals) }
        ensures asked { AskedOn I.took I.faults I.moments self.old self.new (λ source. moment_of I.took I.faults O.told O.faults T.told T.faults source said.now noted.now) }
        ensures whole { result ≡ Ok true → IsWhole (held_from self.new) × (stop_from self.new ≡ None) }
        ensures over { result ≡ Ok false → is_some (stop_from self.new) ≡ true }
        ensures taken { taken_from self.new ≡ taken_from self.old }
        ensures stays { is_some (stop_from self.old) ≡ true → (result ≡ Ok false) × (self.new ≡ self.old) }
    {
        while self.has_more(said, noted) {
            self.gather()?;
            if self.line.len() >= MOST_LINE {
                self.refuse(ArrivalCause::Long);
                return Ok(false);
            }
            if !self.buffer.is_empty() {
                return Ok(true);
            }
        }
        Ok(false)
    }

    // Takes the line with its newline.
    fn pass(&mut self)
        requires whole { 0 < length (held_from self.old) }
        requires more { taken_from self.old < 2 ^ 64 - 1 }
        ensures source { source_from self.new ≡ source_from self.old }
        ensures order { order_from self.new ≡ order_from self.old }
        ensures asked { asked_from self.new ≡ asked_from self.old }
        ensures stop { stop_from self.new ≡ stop_from self.old }
        ensures taken { taken_from self.new ≡ taken_from self.old + 1 }
        ensures line { line_from self.new ≡ [] }
        ensures held { held_from self.new ≡ drop 1 (held_from self.old) }
    {
        self.line.clear();
        self.buffer.skip(1);
        self.taken += 1;
    }

    // Takes a line that says nothing of what comes.
    fn pass_over(&mut self)
        requires whole { IsWhole (held_from self.old) }
        requires going { stop_from self.old ≡ None }
        requires passed { is_passed (line_from self.old) ≡ true }
        requires more { taken_from self.old < 2 ^ 64 - 1 }
        ensures come { ComesOn I.took I.faults self.old self.new (λ arrivals. arrivals) }
        ensures source { source_from self.new ≡ source_from self.old }
        ensures taken { taken_from self.new ≡ taken_from self.old + 1 }
        ensures stop { stop_from self.new ≡ stop_from self.old }
    {
        self.asked = self.asked || is_hand(&self.line);
        self.pass();
    }

    /// Whether a line that says something is held, which is read where none was.
    pub fn find<O: Sink, T: Sink>(&mut self, said: &O, noted: &T) -> Result<bool, AllocError>
    where
        I: ReadBeside<O, T>,
        ensures come { ComesOn I.took I.faults self.old self.new (λ arrivals. arrivals) }
        ensures asked { AskedOn I.took I.faults I.moments self.old self.new (λ source. moment_of I.took I.faults O.told O.faults T.told T.faults source said.now noted.now) }
        ensures whole { result ≡ Ok true → IsWhole (held_from self.new) × (stop_from self.new ≡ None) × (is_passed (line_from self.new) ≡ false) × (taken_from self.new < 2 ^ 64 - 1) }
        ensures over { result ≡ Ok false → is_some (stop_from self.new) ≡ true }
        ensures stays { is_some (stop_from self.old) ≡ true → (result ≡ Ok false) × (self.new ≡ self.old) }
    {
        while self.has_line(said, noted)? {
            if self.taken == usize::MAX {
                self.refuse(ArrivalCause::Long);
                return Ok(false);
            }
            if !is_passed(&self.line) {
                return Ok(true);
            }
            self.pass_over();
        }
        Ok(false)
    }

    /// Whether a line `hand` has come since the leader last handed over for one.
    pub fn asked(&self) -> bool
        ensures { result ≡ asked_from self.now }
    {
        self.asked
    }

    /// The leader hands over for the lines `hand` that have come.
    pub fn hand_over(&mut self)
        requires { asked_from self.old ≡ true }
        ensures handed { HandsOn I.took I.faults self.old self.new }
        ensures source { source_from self.new ≡ source_from self.old }
        ensures stop { stop_from self.new ≡ stop_from self.old }
    {
        self.asked = false;
    }

    /// What the line says.
    pub fn read(&self, alloc: Global) -> Result<Result<Arrival, ArrivalCause>, AllocError>
        ensures arrival { IfOk result (λ read. result_view read ≡ arrival_of (line_from self.now)) }
        ensures sound { IfOk result (λ read. IfOk read (λ arrival. is_arrival (view arrival) ≡ true)) }
    {
        read_arrival(alloc, &self.line)
    }

    /// Takes the line, whose arrival comes next, or refuses it.
    pub fn admit(&mut self, arrival: &Arrival) -> Result<bool, AllocError>
        requires whole { IsWhole (held_from self.old) }
        requires going { stop_from self.old ≡ None }
        requires says { is_passed (line_from self.old) ≡ false }
        requires more { taken_from self.old < 2 ^ 64 - 1 }
        requires arrival { arrival_of (line_from self.old) ≡ Ok (view arrival.now) }
        requires sound { is_arrival (view arrival.now) ≡ true }
        ensures took { result ≡ Ok true → ComesOn I.took I.faults self.old self.new (λ arrivals. arrivals ++ view arrival.now ∷ []) }
        ensures refused { result ≡ Ok false → ComesOn I.took I.faults self.old self.new (λ arrivals. arrivals) × (is_some (stop_from self.new) ≡ true) }
        ensures source { source_from self.new ≡ source_from self.old }
        ensures kept { OnErr result (self.new ≡ self.old) }
    {
        match self.order.admit(arrival)? {
            Ok(()) => {
                self.pass();
                Ok(true)
            }
            Err(cause) => {
                self.refuse(cause);
                Ok(false)
            }
        }
    }

    /// What comes is waited for at most up to this time.
    pub fn waits_to(&mut self, seconds: u32, nanos: u32)
        ensures took { I.took (source_from self.new) ≡ I.took (source_from self.old) }
        ensures faults { I.faults (source_from self.new) ≡ I.faults (source_from self.old) }
        ensures moments { I.moments (source_from self.new) ≡ I.moments (source_from self.old) }
        ensures stays { self.new ≡ record self.old { source = source_from self.new } }
    {
        self.source.waits_to(seconds, nanos);
    }
}
