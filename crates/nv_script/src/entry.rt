// What a line of a script says.
ghost use Rattle.std.specs.Prelude.{◌≡◌, option_map, IfOk};
ghost use Rattle.std.specs.List.{list_all};
ghost use Rattle.nv_bytes.specs.Fields.{first_word, rest_of, fields};
ghost use Rattle.nv_bytes.specs.Numbers.{number_of, unhexed};
ghost use Rattle.nv_script.specs.Entry as rule;
ghost use Rattle.nv_script.specs.Entry.{is_printable, is_argument, is_file_byte, is_dots, is_file_name, is_passed_over, argument_entry, file_with, file_entry, clock_entry, clock_with, clock_of, hand_entry, hand_with, connection_entry, connection_with, connection_of, shaped, entry_by, entry_with, cause_of, arrives, begins_arrival, kind_of, entry_of};
ghost use Rattle.nv_script.specs.Reading.{arrival_of};
ghost use Rattle.nv_script.specs.ArrivalViews as came;
ghost use Rattle.nv_script.specs.inner.Views.{found_view, result_view};

use crate::arrival::{Arrival, ArrivalCause};
use crate::fault::ScriptCause;
use crate::form::Form;
use crate::kind::{Kind, kind_of};
use nv_bytes::{is, number, split_field, unhex};
use std::alloc::{AllocError, Global};

/// When the clock begins, and how many nanoseconds it goes on with each logged call.
#[derive(Clone, Copy, Debug, PartialEq, Eq)]
pub struct Clock {
    pub seconds: u32,
    pub nanos: u32,
    pub step: u32,
}

/// What a line says.
#[derive(Drop)]
pub enum Entry<'a> {
    /// An empty line or a comment.
    Nothing,
    Argument(&'a [u8]),
    /// Input of this text and a newline.
    Line(&'a [u8]),
    Input(Vec<u8>),
    /// A file's name and its content.
    File(&'a [u8], Vec<u8>),
    Clock(Clock),
    Seed(u32),
    /// A length of the log at which the leader hands over.
    Hand(u32),
    /// A connection's port and what it sends.
    Connection(u32, Vec<u8>),
    /// What comes next.
    Arrives(Arrival),
}

const MOST_NANOS: u32 = 999_999_999;

const MOST_STEP: u32 = 1_000_000_000;

pub(crate) const MOST_HAND: u32 = 131_072;

const MOST_PORT: u32 = 65_535;

const MOST_NAME_BYTES: usize = 255;

fn are_printable(text: &[u8]) -> bool
    ensures { result ≡ list_all is_printable text.now }
{
    text.iter().all(|byte| *byte >= b' ' && *byte <= b'~')
}

#[tactic(auto, unfolding(crate::specs::Entry::is_argument))]
fn is_argument(text: &[u8]) -> bool
    ensures { result ≡ is_argument text.now }
{
    !text.is_empty() && are_printable(text)
}

fn are_file_bytes(name: &[u8]) -> bool
    ensures { result ≡ list_all is_file_byte name.now }
{
    name.iter()
        .all(|byte| *byte >= b'!' && *byte <= b'~' && *byte != b'/')
}

fn is_dots(name: &[u8]) -> bool
    ensures { result ≡ is_dots name.now }
{
    is(name, ".") || is(name, "..")
}

#[tactic(auto, unfolding(crate::specs::Entry::is_file_name))]
fn is_file_name(name: &[u8]) -> bool
    ensures { result ≡ is_file_name name.now }
{
    !name.is_empty() && name.len() <= MOST_NAME_BYTES && are_file_bytes(name) && !is_dots(name)
}

fn is_passed_over(line: &[u8]) -> bool
    ensures { result ≡ is_passed_over line.now }
{
    match line {
        [] => true,
        [first, ..] => *first == b'#',
    }
}

fn read_argument(text: &[u8]) -> Option<Entry<'_>>
    ensures { found_view result ≡ argument_entry text.now }
{
    if is_argument(text) {
        Some(Entry::Argument(text))
    } else {
        None
    }
}

fn read_input<'a>(alloc: Global, hex: &[u8]) -> Result<Option<Entry<'a>>, AllocError>
    ensures { IfOk result (λ entry. found_view entry ≡ option_map rule.Input (unhexed hex.now)) }
{
    match unhex(alloc, hex)? {
        Some(bytes) => Ok(Some(Entry::Input(bytes))),
        None => Ok(None),
    }
}

fn file_with(name: &[u8], content: Option<Vec<u8>>) -> Option<Entry<'_>>
    ensures { found_view result ≡ file_with name.now (option_map (λ bytes. bytes.items) content) }
{
    match content {
        Some(content) if is_file_name(name) => Some(Entry::File(name, content)),
        _ => None,
    }
}

// `NAME HEX` or `NAME`.
fn read_file(alloc: Global, text: &[u8]) -> Result<Option<Entry<'_>>, AllocError>
    ensures { IfOk result (λ entry. found_view entry ≡ file_entry (fields text.now)) }
{
    let (name, rest) = split_field(text);
    let Some(rest) = rest else {
        return Ok(file_with(name, Some(Vec::new(alloc))));
    };
    match split_field(rest) {
        (hex, None) => Ok(file_with(name, unhex(alloc, hex)?)),
        (_, Some(_)) => Ok(None),
    }
}

fn clock_entry<'a>(clock: Clock) -> Result<Entry<'a>, ScriptCause>
    ensures { result_view result ≡ clock_entry clock }
{
    if clock.nanos <= MOST_NANOS && clock.step <= MOST_STEP {
        Ok(Entry::Clock(clock))
    } else {
        Err(ScriptCause::Range)
    }
}

fn clock_with<'a>(
    seconds: Option<u32>,
    nanos: Option<u32>,
    step: Option<u32>,
) -> Result<Entry<'a>, ScriptCause>
    ensures { result_view result ≡ clock_with seconds nanos step }
{
    match (seconds, nanos, step) {
        (Some(seconds), Some(nanos), Some(step)) => clock_entry(Clock {
            seconds,
            nanos,
            step,
        }),
        _ => Err(ScriptCause::Shape),
    }
}

// `S N STEP`.
fn read_clock<'a>(text: &[u8]) -> Result<Entry<'a>, ScriptCause>
    ensures { result_view result ≡ clock_of (fields text.now) }
{
    let (seconds, rest) = split_field(text);
    let Some(rest) = rest else {
        return Err(ScriptCause::Shape);
    };
    let (nanos, rest) = split_field(rest);
    let Some(rest) = rest else {
        return Err(ScriptCause::Shape);
    };
    match split_field(rest) {
        (step, None) => clock_with(number(seconds), number(nanos), number(step)),
        (_, Some(_)) => Err(ScriptCause::Shape),
    }
}

fn read_seed<'a>(text: &[u8]) -> Option<Entry<'a>>
    ensures { found_view result ≡ option_map rule.Seed (number_of text.now) }
{
    match number(text) {
        Some(seed) => Some(Entry::Seed(seed)),
        None => None,
    }
}

fn hand_entry<'a>(hand: u32) -> Result<Entry<'a>, ScriptCause>
    ensures { result_view result ≡ hand_entry hand }
{
    if hand >= 1 && hand <= MOST_HAND {
        Ok(Entry::Hand(hand))
    } else {
        Err(ScriptCause::Range)
    }
}

fn read_hand<'a>(text: &[u8]) -> Result<Entry<'a>, ScriptCause>
    ensures { result_view result ≡ hand_with (number_of text.now) }
{
    match number(text) {
        Some(hand) => hand_entry(hand),
        None => Err(ScriptCause::Shape),
    }
}

fn connection_entry<'a>(port: u32, input: Vec<u8>) -> Result<Entry<'a>, ScriptCause>
    ensures { result_view result ≡ connection_entry port input.items }
{
    if port >= 1 && port <= MOST_PORT {
        Ok(Entry::Connection(port, input))
    } else {
        Err(ScriptCause::Range)
    }
}

fn connection_with<'a>(port: Option<u32>, input: Option<Vec<u8>>) -> Result<Entry<'a>, ScriptCause>
    ensures { result_view result ≡ connection_with port (option_map (λ bytes. bytes.items) input) }
{
    match (port, input) {
        (Some(port), Some(input)) => connection_entry(port, input),
        _ => Err(ScriptCause::Shape),
    }
}

// `PORT HEX` or `PORT`.
fn read_connection<'a>(
    alloc: Global,
    text: &[u8],
) -> Result<Result<Entry<'a>, ScriptCause>, AllocError>
    ensures { IfOk result (λ entry. result_view entry ≡ connection_of (fields text.now)) }
{
    let (port, rest) = split_field(text);
    let Some(rest) = rest else {
        return Ok(connection_with(number(port), Some(Vec::new(alloc))));
    };
    match split_field(rest) {
        (hex, None) => Ok(connection_with(number(port), unhex(alloc, hex)?)),
        (_, Some(_)) => Ok(Err(ScriptCause::Shape)),
    }
}

fn shaped(entry: Option<Entry<'_>>) -> Result<Entry<'_>, ScriptCause>
    ensures { result_view result ≡ shaped (found_view entry.entry) }
{
    entry.ok_or(ScriptCause::Shape)
}

// A line by its kind and the rest after the word's space.
fn entry_by(
    alloc: Global,
    kind: Kind,
    rest: &[u8],
) -> Result<Result<Entry<'_>, ScriptCause>, AllocError>
    ensures { IfOk result (λ entry. result_view entry ≡ entry_by kind rest.now) }
{
    match kind {
        Kind::Argument => Ok(shaped(read_argument(rest))),
        Kind::Line => Ok(Ok(Entry::Line(rest))),
        Kind::Input => Ok(shaped(read_input(alloc, rest)?)),
        Kind::File => Ok(shaped(read_file(alloc, rest)?)),
        Kind::Clock => Ok(read_clock(rest)),
        Kind::Random => Ok(shaped(read_seed(rest))),
        Kind::Hand => Ok(read_hand(rest)),
        Kind::Connect => read_connection(alloc, rest),
    }
}

// A line that says nothing of what comes.
fn stated(
    alloc: Global,
    form: Form,
    line: &[u8],
) -> Result<Result<Entry<'_>, ScriptCause>, AllocError>
    ensures { IfOk result (λ entry. result_view entry ≡ entry_with (kind_of form (first_word line.now)) (rest_of line.now)) }
{
    let (word, rest) = split_field(line);
    match (kind_of(form, word), rest) {
        (None, _) => Ok(Err(ScriptCause::Word)),
        (Some(_), None) => Ok(Err(ScriptCause::Shape)),
        (Some(kind), Some(rest)) => entry_by(alloc, kind, rest),
    }
}

/// The cause of a script's line for that of an arrival's.
pub fn cause_of(cause: ArrivalCause) -> ScriptCause
    ensures { result ≡ cause_of cause }
{
    match cause {
        ArrivalCause::Word => ScriptCause::Word,
        ArrivalCause::Shape => ScriptCause::Shape,
        ArrivalCause::Range => ScriptCause::Range,
        ArrivalCause::Twice => ScriptCause::Twice,
        ArrivalCause::Long => ScriptCause::Long,
    }
}

fn arrives<'a>(arrival: Result<Arrival, ArrivalCause>) -> Result<Entry<'a>, ScriptCause>
    ensures { result_view result ≡ arrives (came.result_view arrival) }
{
    match arrival {
        Ok(arrival) => Ok(Entry::Arrives(arrival)),
        Err(cause) => Err(cause_of(cause)),
    }
}

// The line of an arrival.
fn read_arrival<'a>(
    alloc: Global,
    line: &[u8],
) -> Result<Result<Entry<'a>, ScriptCause>, AllocError>
    ensures { IfOk result (λ entry. result_view entry ≡ arrives (arrival_of line.now)) }
{
    Ok(arrives(crate::line::read_arrival(alloc, line)?))
}

// Whether a line says what comes next.
fn begins_arrival(form: Form, line: &[u8]) -> bool
    ensures { result ≡ begins_arrival form line.now }
{
    match form {
        Form::Fourth => {
            let (word, _) = split_field(line);
            crate::is_timeless_word(word)
        }
        Form::Fifth => {
            let (word, _) = split_field(line);
            crate::is_word(word)
        }
        Form::First | Form::Second | Form::Third => false,
    }
}

/// What a line after the first says in a script of this form, or its first cause of those that the line has by itself.
#[tactic(auto, unfolding(crate::specs::Entry::entry_of))]
pub fn entry_of(
    alloc: Global,
    form: Form,
    line: &[u8],
) -> Result<Result<Entry<'_>, ScriptCause>, AllocError>
    ensures { IfOk result (λ entry. result_view entry ≡ entry_of form line.now) }
{
    if is_passed_over(line) {
        return Ok(Ok(Entry::Nothing));
    }
    if begins_arrival(form, line) {
        return read_arrival(alloc, line);
    }
    stated(alloc, form, line)
}
