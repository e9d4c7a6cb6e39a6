// What was done outside, as text.
ghost use Rattle.std.specs.Prelude.{◌≡◌, ◌+◌, ◌%◌, ◌++◌, ◌∷◌, [], false};
ghost use Rattle.nv_script.specs.Doings.{Takes, Says};
ghost use Rattle.nv_script.specs.ArrivalViews.{view as arrival_of, said_view};
ghost use Rattle.nv_arriving.specs.Telling.{Adds};
ghost use Rattle.nv_run_tests.specs.Transcript.{Wrote, digit_of, said_text, taken_text};

use nv_script::{Arrival, Said};
use std::alloc::Global;

/// What was taken, behind a `<`, and what was said, behind a `>`, in the order in which it was done.
#[derive(Drop)]
pub struct Transcript {
    pub text: Vec<u8>,
    /// Memory was wanted for some of it.
    pub lost: bool,
}

fn digit_of(client: usize) -> u8
    ensures { result ≡ digit_of client }
{
    b'0' + (client % 10) as u8
}

impl Transcript {
    pub fn new(alloc: Global) -> Transcript
        ensures empty { result.text.items ≡ [] }
        ensures lost { result.lost ≡ false }
    {
        Transcript {
            text: Vec::new(alloc),
            lost: false,
        }
    }

    fn put(&mut self, text: &[u8])
        ensures kept { self.new.lost ≡ false → self.old.lost ≡ false }
        ensures text { self.new.lost ≡ false → self.new.text.items ≡ self.old.text.items ++ text.now }
    {
        if self.text.extend_from_slice(text).is_err() {
            self.lost = true;
        }
    }

    fn put_both(&mut self, head: &[u8], text: &[u8])
        ensures kept { self.new.lost ≡ false → self.old.lost ≡ false }
        ensures text { self.new.lost ≡ false → self.new.text.items ≡ self.old.text.items ++ (head.now ++ text.now) }
    {
        self.put(head);
        self.put(text);
    }

    fn put_taken(&mut self, arrival: &Arrival)
        ensures kept { self.new.lost ≡ false → self.old.lost ≡ false }
        ensures text { self.new.lost ≡ false → self.new.text.items ≡ self.old.text.items ++ taken_text (arrival_of arrival.now) }
    {
        match arrival {
            Arrival::Input(bytes) => self.put_both(b"<", bytes.as_slice()),
            Arrival::InputEnd => self.put(b"<."),
            Arrival::ClientsEnd => self.put(b"<-"),
            Arrival::Connect(_) => self.put(b"<+"),
            Arrival::Data(client, bytes) => self.put_both(
                &[b'<', digit_of(*client as usize), b':'],
                bytes.as_slice(),
            ),
            Arrival::End(client) => self.put(&[b'<', digit_of(*client as usize), b'.']),
            Arrival::Time(_, _) => self.put(b"<@"),
        }
    }

    fn put_said(&mut self, said: &Said<'_>)
        ensures kept { self.new.lost ≡ false → self.old.lost ≡ false }
        ensures text { self.new.lost ≡ false → self.new.text.items ≡ self.old.text.items ++ said_text (said_view said.now) }
    {
        match said {
            Said::Accepted(client) => self.put(&[b'>', b'+', digit_of(*client)]),
            Said::Sent(client, bytes) => self.put_both(&[b'>', digit_of(*client), b':'], bytes),
            Said::Closed(client) => self.put(&[b'>', b'-', digit_of(*client)]),
            Said::Printed(bytes) => self.put_both(b">", bytes),
        }
    }

    /// This is taken.
    pub fn take(&mut self, arrival: &Arrival)
        ensures { Adds Wrote self.old self.new (Takes (arrival_of arrival.now) ∷ []) }
    {
        self.put_taken(arrival);
    }

    /// This is said.
    pub fn say(&mut self, said: &Said<'_>)
        ensures { Adds Wrote self.old self.new (Says (said_view said.now) ∷ []) }
    {
        self.put_said(said);
    }
}
