// Which arrivals may come next.
ghost use Rattle.std.specs.Prelude.{◌≡◌, ◌<◌, ◌≤◌, ◌^◌, is_some, IfOk, IfSome, OnErr, length, get_or};
ghost use Rattle.nv_script.specs.Order.{most_clients, nothing_came, is_going, not_going, sending, with_client, client_ended, input_ended, clients_ended, input_going, admitted};
ghost use Rattle.nv_script.specs.ArrivalViews.{view};
ghost use Rattle.nv_script.specs.inner.ArrivalViews.{became};

use crate::arrival::{Arrival, ArrivalCause};
use std::alloc::{AllocError, Global};
use std::marker::Model;

/// How many clients may come: 65,536, or by the fifth form of a script as many as there are numbers of 32 bits.
#[tactic(auto, unfolding(crate::specs::Order::most_clients))]
fn most_clients(polls: bool) -> u64
    ensures most { result ≡ most_clients polls }
    ensures few { result ≤ 2 ^ 32 }
{
    if polls { 1 << 32 } else { 65_536 }
}

/// What has come: whether descriptor 0 and the clients are at their end, how many clients have come, and the numbers of those of them that haven't
/// sent all, as they came. Of a client that has sent all nothing is kept.
#[derive(Drop)]
pub struct Order {
    input_over: bool,
    clients_over: bool,
    clients: u64,
    going: Vec<u32>,
    polls: bool,
}

impl Model for Order {
    ghost use Rattle.nv_script.specs.Order as rule;
    ghost use Rattle.nv_script.specs.inner.Going.{AreGoing};

    ghost Value = { rule.Came };

    ghost view = { λ order. record {
      input_over = order.input_over;
      clients_over = order.clients_over;
      clients = order.clients;
      going = order.going.items;
      most = rule.most_clients order.polls;
    } };

    ghost invariant = { λ order. AreGoing order.clients order.going.items };
}

impl Order {
    /// Nothing has come. In a script of the fifth form, whose calls wait for several things at once, more clients may come.
    pub fn new(alloc: Global, polls: bool) -> Order
        ensures { result ≡ nothing_came (most_clients polls) }
    {
        Order {
            input_over: false,
            clients_over: false,
            clients: 0,
            going: Vec::new(alloc),
            polls,
        }
    }

    // Why nothing may come from a client that isn't going.
    fn not_going(&self, client: u32) -> ArrivalCause
        ensures { result ≡ not_going client self.now }
    {
        if u64::from(client) < self.clients {
            ArrivalCause::Twice
        } else {
            ArrivalCause::Range
        }
    }

    // Where the client is among those that haven't sent all.
    fn place(&self, client: u32) -> Option<usize>
        ensures going { is_some result ≡ is_going client self.now.going }
        ensures place { IfSome result (λ at. (at < length self.now.going) × (get_or self.now.going at 0 ≡ client)) }
    {
        match self.going.binary_search(&client) {
            Ok(at) => Some(at),
            Err(_) => None,
        }
    }

    // Whether more may come from the client.
    fn check(&self, client: u32) -> Result<(), ArrivalCause>
        ensures { became self.now result ≡ sending client self.now }
    {
        if self.place(client).is_some() {
            Ok(())
        } else {
            Err(self.not_going(client))
        }
    }

    #[tactic(auto, unfolding(crate::specs::Order::with_client))]
    fn connect(&mut self) -> Result<Result<(), ArrivalCause>, AllocError>
        ensures came { IfOk result (λ added. became self.new added ≡ with_client self.old) }
        ensures refused { IfOk result (λ added. OnErr added (self.new ≡ self.old)) }
        ensures kept { OnErr result (self.new ≡ self.old) }
    {
        if self.clients_over {
            return Ok(Err(ArrivalCause::Twice));
        }
        if self.clients >= most_clients(self.polls) {
            return Ok(Err(ArrivalCause::Long));
        }
        self.going.push(self.clients as u32)?;
        self.clients += 1;
        Ok(Ok(()))
    }

    fn end(&mut self, client: u32) -> Result<(), ArrivalCause>
        ensures ended { became self.new result ≡ client_ended client self.old }
        ensures kept { OnErr result (self.new ≡ self.old) }
    {
        match self.place(client) {
            Some(at) => {
                self.going.remove(at);
                Ok(())
            }
            None => Err(self.not_going(client)),
        }
    }

    fn end_input(&mut self) -> Result<(), ArrivalCause>
        ensures ended { became self.new result ≡ input_ended self.old }
        ensures kept { OnErr result (self.new ≡ self.old) }
    {
        if self.input_over {
            return Err(ArrivalCause::Twice);
        }
        self.input_over = true;
        Ok(())
    }

    fn end_clients(&mut self) -> Result<(), ArrivalCause>
        ensures ended { became self.new result ≡ clients_ended self.old }
        ensures kept { OnErr result (self.new ≡ self.old) }
    {
        if self.clients_over {
            return Err(ArrivalCause::Twice);
        }
        self.clients_over = true;
        Ok(())
    }

    fn check_input(&self) -> Result<(), ArrivalCause>
        ensures { became self.now result ≡ input_going self.now }
    {
        if self.input_over {
            Err(ArrivalCause::Twice)
        } else {
            Ok(())
        }
    }

    /// The arrival comes next, or may not.
    pub fn admit(&mut self, arrival: &Arrival) -> Result<Result<(), ArrivalCause>, AllocError>
        ensures came { IfOk result (λ came. became self.new came ≡ admitted (view arrival.now) self.old) }
        ensures refused { IfOk result (λ came. OnErr came (self.new ≡ self.old)) }
        ensures kept { OnErr result (self.new ≡ self.old) }
    {
        match arrival {
            Arrival::Input(_) => Ok(self.check_input()),
            Arrival::InputEnd => Ok(self.end_input()),
            Arrival::ClientsEnd => Ok(self.end_clients()),
            Arrival::Connect(_) => self.connect(),
            Arrival::Data(client, _) => Ok(self.check(*client)),
            Arrival::End(client) => Ok(self.end(*client)),
            Arrival::Time(_, _) => Ok(Ok(())),
        }
    }
}
