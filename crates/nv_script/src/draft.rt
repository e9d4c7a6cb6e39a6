// A script in the making.
ghost use Rattle.std.specs.Prelude.{◌≡◌, false, ◌&&◌, nat_lt, nat_le, [], ◌∷◌, ◌++◌, length, codes, Ok, IfOk, OnOk};
ghost use Rattle.nv_script.specs.ArrivalViews as came;
ghost use Rattle.nv_script.specs.Scripts.{blank, has_name, has_hand, with_argument, with_input, with_named_file, with_clock, with_seed, with_hand, with_connection, with_arrival, with_entry, finished};
ghost use Rattle.nv_script.specs.Views.{setup_of};
ghost use Rattle.nv_script.specs.inner.Views.{view, became};

use crate::arrival::Arrival;
use crate::entry::{Clock, Entry, cause_of};
use crate::fault::ScriptCause;
use crate::form::{Form, is_fifth};
use crate::order::Order;
use crate::script::Script;
use nv_bytes::Names;
use std::alloc::{AllocError, Global};
use std::marker::Model;

const MOST_ARGUMENTS: usize = 256;

const MOST_FILES: usize = 256;

const MOST_FILE_BYTES: usize = 1_048_576;

pub(crate) const MOST_HANDS: usize = 8;

const MOST_CONNECTIONS: usize = 64;

const MOST_CONNECTION_BYTES: usize = 1_048_576;

const NO_CLOCK: Clock = Clock {
    seconds: 0,
    nanos: 0,
    step: 0,
};

/// What the lines so far say. The names of the files are those known.
#[derive(Drop)]
pub struct Draft<'a> {
    arguments: Vec<Vec<u8>>,
    input: Vec<u8>,
    files: Vec<(Vec<u8>, Vec<u8>)>,
    names: Names<'a, ()>,
    clock: Option<Clock>,
    seed: Option<u32>,
    hands: Vec<u32>,
    connections: Vec<(u32, Vec<u8>)>,
    arrivals: Vec<Arrival>,
    order: Order,
}

impl<'a> Model for Draft<'a> {
    ghost use Rattle.std.specs.Prelude.{◌≡◌, ℕ, List, is_some, map};
    ghost use Rattle.nv_bytes.specs.Names.{defined};
    ghost use Rattle.nv_script.specs.ArrivalViews as came;
    ghost use Rattle.nv_script.specs.Scripts as rule;

    ghost Value = { rule.Draft };

    ghost view = { λ draft. record {
      arguments = map (λ argument. argument.items) draft.arguments.items;
      input = draft.input.items;
      files = map (λ file. (file.0.items, file.1.items)) draft.files.items;
      clock = draft.clock;
      seed = draft.seed;
      hands = draft.hands.items;
      connections = map (λ connection. (connection.0, connection.1.items)) draft.connections.items;
      arrivals = map came.view draft.arrivals.items;
      came = draft.order;
    } };

    ghost invariant = { λ draft. (name : List ℕ) → is_some (defined draft.names name) ≡ rule.has_name name (map (λ file. (file.0.items, file.1.items)) draft.files.items) };
}

impl<'a> Draft<'a> {
    pub fn new(alloc: Global, form: Form) -> Self
        ensures { result ≡ blank form }
    {
        Draft {
            arguments: Vec::new(alloc),
            input: Vec::new(alloc),
            files: Vec::new(alloc),
            names: Names::new(alloc),
            clock: None,
            seed: None,
            hands: Vec::new(alloc),
            connections: Vec::new(alloc),
            arrivals: Vec::new(alloc),
            order: Order::new(alloc, is_fifth(form)),
        }
    }

    #[tactic(auto, unfolding(crate::specs::Scripts::with_argument))]
    fn add_argument(
        &mut self,
        alloc: Global,
        text: &[u8],
    ) -> Result<Result<(), ScriptCause>, AllocError>
        ensures { IfOk result (λ added. became self.new added ≡ with_argument text.now self.old) }
    {
        if self.arguments.len() >= MOST_ARGUMENTS {
            return Ok(Err(ScriptCause::Long));
        }
        self.arguments.push(text.to_vec(alloc)?)?;
        Ok(Ok(()))
    }

    fn add_input(&mut self, bytes: &[u8]) -> Result<(), AllocError>
        ensures { OnOk result (with_input bytes.now self.old ≡ Ok self.new) }
    {
        self.input.extend_from_slice(bytes)?;
        Ok(())
    }

    fn add_line(&mut self, text: &[u8]) -> Result<(), AllocError>
        ensures { OnOk result (with_input (text.now ++ codes "\n") self.old ≡ Ok self.new) }
    {
        self.input.extend_from_slice(text)?;
        self.input.push(b'\n')?;
        Ok(())
    }

    // Whether the name is that of a file.
    fn has_name(&self, name: &[u8]) -> bool
        ensures { result ≡ has_name name.now self.now.files }
    {
        self.names.find(name).is_some()
    }

    // Whether one more file, of this length, may be stated.
    fn takes_file(&self, len: usize) -> bool
        ensures { result ≡ (nat_lt (length self.now.files) 256 && nat_le len 1048576) }
    {
        self.files.len() < MOST_FILES && len <= MOST_FILE_BYTES
    }

    fn push_file(
        &mut self,
        alloc: Global,
        name: &'a [u8],
        content: Vec<u8>,
    ) -> Result<(), AllocError>
        requires { has_name name.now self.old.files ≡ false }
        ensures { OnOk result (self.new ≡ record self.old { files = self.old.files ++ (name.now, content.items) ∷ [] }) }
    {
        let copy = name.to_vec(alloc)?;
        self.files.reserve(1)?;
        self.names.define(name, ())?;
        self.files.push((copy, content))?;
        Ok(())
    }

    #[tactic(auto, unfolding(crate::specs::Scripts::with_named_file))]
    fn add_file(
        &mut self,
        alloc: Global,
        name: &'a [u8],
        content: Vec<u8>,
    ) -> Result<Result<(), ScriptCause>, AllocError>
        ensures { IfOk result (λ added. became self.new added ≡ with_named_file name.now content.items self.old) }
    {
        if self.has_name(name) {
            return Ok(Err(ScriptCause::Twice));
        }
        if !self.takes_file(content.len()) {
            return Ok(Err(ScriptCause::Long));
        }
        self.push_file(alloc, name, content)?;
        Ok(Ok(()))
    }

    fn add_clock(&mut self, clock: Clock) -> Result<(), ScriptCause>
        ensures { became self.new result ≡ with_clock clock self.old }
    {
        if self.clock.is_some() {
            return Err(ScriptCause::Twice);
        }
        self.clock = Some(clock);
        Ok(())
    }

    fn add_seed(&mut self, seed: u32) -> Result<(), ScriptCause>
        ensures { became self.new result ≡ with_seed seed self.old }
    {
        if self.seed.is_some() {
            return Err(ScriptCause::Twice);
        }
        self.seed = Some(seed);
        Ok(())
    }

    // Whether the leader hands over at this length already.
    fn has_hand(&self, hand: u32) -> bool
        ensures { result ≡ has_hand hand self.now.hands }
    {
        self.hands.contains(&hand)
    }

    fn add_hand(&mut self, hand: u32) -> Result<Result<(), ScriptCause>, AllocError>
        ensures { IfOk result (λ added. became self.new added ≡ with_hand hand self.old) }
    {
        if self.has_hand(hand) {
            return Ok(Err(ScriptCause::Twice));
        }
        if self.hands.len() >= MOST_HANDS {
            return Ok(Err(ScriptCause::Long));
        }
        self.hands.push(hand)?;
        Ok(Ok(()))
    }

    // Whether one more connection, which sends so many bytes, may be stated.
    fn takes_connection(&self, len: usize) -> bool
        ensures { result ≡ (nat_lt (length self.now.connections) 64 && nat_le len 1048576) }
    {
        self.connections.len() < MOST_CONNECTIONS && len <= MOST_CONNECTION_BYTES
    }

    #[tactic(auto, unfolding(crate::specs::Scripts::with_connection))]
    fn add_connection(
        &mut self,
        port: u32,
        input: Vec<u8>,
    ) -> Result<Result<(), ScriptCause>, AllocError>
        ensures { IfOk result (λ added. became self.new added ≡ with_connection port input.items self.old) }
    {
        if !self.takes_connection(input.len()) {
            return Ok(Err(ScriptCause::Long));
        }
        self.connections.push((port, input))?;
        Ok(Ok(()))
    }

    fn add_arrival(&mut self, arrival: Arrival) -> Result<Result<(), ScriptCause>, AllocError>
        ensures { IfOk result (λ added. became self.new added ≡ with_arrival (came.view arrival) self.old) }
    {
        match self.order.admit(&arrival)? {
            Ok(()) => {
                self.arrivals.push(arrival)?;
                Ok(Ok(()))
            }
            Err(cause) => Ok(Err(cause_of(cause))),
        }
    }

    /// Takes in what a line says.
    pub fn add(
        &mut self,
        alloc: Global,
        entry: Entry<'a>,
    ) -> Result<Result<(), ScriptCause>, AllocError>
        ensures { IfOk result (λ added. became self.new added ≡ with_entry (view entry.entry) self.old) }
    {
        match entry {
            Entry::Nothing => Ok(Ok(())),
            Entry::Argument(text) => self.add_argument(alloc, text),
            Entry::Line(text) => {
                self.add_line(text)?;
                Ok(Ok(()))
            }
            Entry::Input(bytes) => {
                self.add_input(&bytes)?;
                Ok(Ok(()))
            }
            Entry::File(name, content) => self.add_file(alloc, name, content),
            Entry::Clock(clock) => Ok(self.add_clock(clock)),
            Entry::Seed(seed) => Ok(self.add_seed(seed)),
            Entry::Hand(hand) => self.add_hand(hand),
            Entry::Connection(port, input) => self.add_connection(port, input),
            Entry::Arrives(arrival) => self.add_arrival(arrival),
        }
    }

    /// The script of this form, with the defaults of what no line says.
    pub fn finish(self, form: Form) -> Script
        ensures { setup_of result ≡ finished form self.entry }
    {
        let Draft {
            arguments,
            input,
            files,
            names: _,
            clock,
            seed,
            hands,
            connections,
            arrivals,
            order: _,
        } = self;
        let clock = clock.unwrap_or(NO_CLOCK);
        Script {
            arguments,
            input,
            files,
            seconds: clock.seconds,
            nanos: clock.nanos,
            step: clock.step,
            seed: seed.unwrap_or(0),
            hands,
            connections,
            arrivals,
            polls: is_fifth(form),
        }
    }
}
