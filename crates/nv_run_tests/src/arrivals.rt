ghost use Rattle.std.specs.Prelude.{◌≡◌, [], IsTrue};
ghost use Rattle.nv_script.specs.Scripts.{is_script};
ghost use Rattle.nv_script.specs.Views.{setup_of};
ghost use Rattle.nv_run_tests.specs.Transcript.{Wrote};

use crate::kept::{KeptKernel, make_kept};
use crate::runs::{beside, one_by_one, text_of};
use crate::transcript::Transcript;
use nv_arriving::{ArrivingKernel, Guests, arriving};
use nv_calls::{Recorded, SyscallKernel};
use nv_live::Telling;
use nv_script::{Arrival, Outside, Said, Script};
use nv_workers::OpenGate;
use std::alloc::{AllocError, Global};
use std::process::Abort;
use std::sync::Wait;
use std::thread::Threads;

// Lines of two letters from one on up to ef, and then the end, which comes twice where it is told.
#[derive(Drop)]
struct Pairs {
    next: u8,
    told: bool,
    done: Transcript,
}

impl Pairs {
    fn come(&mut self, alloc: Global) -> Result<Option<Arrival>, AllocError>
        ensures { self.new.done ≡ self.old.done }
    {
        let letter = self.next;
        if letter > b'e' {
            if self.told {
                self.told = false;
                return Ok(Some(Arrival::InputEnd));
            }
            return Ok(None);
        }
        let bytes = Vec::from_slice(alloc, &[letter, letter + 1])?;
        self.next = letter + 2;
        Ok(Some(Arrival::Input(bytes)))
    }
}

impl Telling for Pairs {
    ghost use Rattle.nv_live.specs.Telling.{nothing_code};

    ghost Told = { Unit {0} };

    ghost told_code = { nothing_code };

    ghost told = { λ _. tt };
}

impl Outside for Pairs {
    ghost did = { λ first now done. Wrote first.done now.done done };

    ghost is_over = { λ _. Unit {0} };

    fn next(&mut self, alloc: Global) -> Result<Option<Arrival>, AllocError> {
        let came = self.come(alloc)?;
        if let Some(arrival) = &came {
            self.done.take(arrival);
        }
        Ok(came)
    }

    fn say(&mut self, said: &Said<'_>) {
        self.done.say(said);
    }

    fn hands_over(&mut self, _length: usize) -> bool {
        false
    }

    fn waits_to(&mut self, _seconds: u32, _nanos: u32) {}
}

// It reads the input by at most 8 bytes up to its end, writes what it read, and exits with how many reads gave bytes.
const ECHOES: &str =
    ".text\nli s0, 0\nnext: li a7, 63\nli a0, 0\nmv a1, sp\nli a2, 8\necall\nbeq a0, zero, done\naddi s0, s0, 1\nmv a2, a0\nli a7, 64\nli a0, 1\nmv a1, sp\necall\nj next\ndone: mv a0, s0\nli a7, 94\necall\n";

fn kernel_from<R: Abort>(rt: &R, alloc: Global, first: u8, told: bool) -> KeptKernel<Pairs>
    ensures { result.log ≡ [] }
{
    let script = nv_script::read(alloc, b"varan-script 1\n").expect(rt, "a script");
    let pairs = Pairs {
        next: first,
        told,
        done: Transcript::new(alloc),
    };
    make_kept(alloc, &script, pairs).expect(rt, "a kernel")
}

// What comes from a first letter on, and what is made of it: the events of the log, how many reads gave bytes, what is written, and
// what is done with the outside in turn.
struct Echo {
    first: u8,
    events: usize,
    reads: u8,
    output: &'static [u8],
    done: &'static [u8],
}

const ECHOED: [Echo; 3] = [
    Echo {
        first: b'a',
        events: 8,
        reads: 3,
        output: b"abcdef",
        done: b"<ab>ab<cd>cd<ef>ef<.",
    },
    Echo {
        first: b'e',
        events: 4,
        reads: 1,
        output: b"ef",
        done: b"<ef>ef<.",
    },
    Echo {
        first: b'g',
        events: 2,
        reads: 0,
        output: b"",
        done: b"<.",
    },
];

impl Echo {
    // What is done, without the end where it isn't told.
    fn done(&self, told: bool) -> &'static [u8] {
        let kept = self.done.len().saturating_sub(2);
        if told {
            self.done
        } else {
            self.done.get(..kept).unwrap_or(self.done)
        }
    }

    fn is_of(&self, kernel: &KeptKernel<Pairs>, told: bool) -> bool {
        kernel.history().len() == self.events
            && kernel.output() == self.output
            && kernel.ended() == Some(self.reads)
            && kernel.answers().guests.outside().done.text.as_slice() == self.done(told)
    }
}

// The account of one version after another, as text.
fn echoed<R: Abort>(
    rt: &R,
    alloc: Global,
    texts: &[String; 2],
    echo: &Echo,
    told: bool,
) -> Vec<u8> {
    let kernel = kernel_from(rt, alloc, echo.first, told);
    let plain = one_by_one(alloc, kernel, texts, None, &Vec::new(alloc));
    let account = plain.expect(rt, "a run");
    assert!(rt; echo.is_of(&account.kernel, told), "from {}", echo.first);
    text_of(rt, alloc, Some(account))
}

// The same of two beside each other, on so many threads.
fn echoed_beside<R: Threads + Wait + Sync + Abort>(
    rt: &R,
    alloc: Global,
    texts: &[String; 2],
    echo: &Echo,
    told: bool,
    threads: u32,
) -> Vec<u8> {
    let kernel = kernel_from(rt, alloc, echo.first, told);
    let hands = Vec::new(alloc);
    let account = beside(
        rt, alloc, kernel, texts, None, &OpenGate, &hands, 2, threads,
    );
    let account = account.expect(rt, "a run");
    assert!(rt; echo.is_of(&account.kernel, told), "from {}", echo.first);
    text_of(rt, alloc, Some(account))
}

// Two versions beside each other read what comes, on one thread and on two, and tell the account of one after another.
#[test]
fn pairs_come(rt: HostRuntime) {
    let alloc = rt.alloc();
    let texts = [
        String::from_str(alloc, ECHOES).expect(&rt, "memory"),
        String::from_str(alloc, ECHOES).expect(&rt, "memory"),
    ];
    for echo in &ECHOED {
        for told in [false, true] {
            let plain = echoed(&rt, alloc, &texts, echo, told);
            for threads in [1, 2] {
                let text = echoed_beside(&rt, alloc, &texts, echo, told, threads);
                assert_eq!(&rt; text.as_slice(), plain.as_slice());
            }
        }
    }
}

// Clients of two ports, of which nobody listens at the second: what the second one sends comes while the first is served, the
// third is never accepted, and the fourth leaves without a word.
#[derive(Drop)]
struct Clients {
    next: u32,
    done: Transcript,
}

fn data(alloc: Global, client: u32, bytes: &[u8]) -> Result<Option<Arrival>, AllocError> {
    let bytes = Vec::from_slice(alloc, bytes)?;
    Ok(Some(Arrival::Data(client, bytes)))
}

impl Clients {
    fn come(&mut self, alloc: Global) -> Result<Option<Arrival>, AllocError>
        ensures { self.new.done ≡ self.old.done }
    {
        let place = self.next;
        self.next = place.saturating_add(1);
        match place {
            0 => Ok(Some(Arrival::Connect(80))),
            1 => Ok(Some(Arrival::Connect(80))),
            2 => data(alloc, 1, b"one "),
            3 => data(alloc, 0, b"zero"),
            4 => Ok(Some(Arrival::End(0))),
            5 => data(alloc, 1, b"more"),
            6 => Ok(Some(Arrival::End(1))),
            7 => Ok(Some(Arrival::Connect(81))),
            8 => data(alloc, 2, b"lost"),
            9 => Ok(Some(Arrival::Connect(80))),
            10 => Ok(Some(Arrival::End(3))),
            _ => Ok(None),
        }
    }
}

impl Telling for Clients {
    ghost use Rattle.nv_live.specs.Telling.{nothing_code};

    ghost Told = { Unit {0} };

    ghost told_code = { nothing_code };

    ghost told = { λ _. tt };
}

impl Outside for Clients {
    ghost did = { λ first now done. Wrote first.done now.done done };

    ghost is_over = { λ _. Unit {0} };

    fn next(&mut self, alloc: Global) -> Result<Option<Arrival>, AllocError> {
        let came = self.come(alloc)?;
        if let Some(arrival) = &came {
            self.done.take(arrival);
        }
        Ok(came)
    }

    fn say(&mut self, said: &Said<'_>) {
        self.done.say(said);
    }

    fn hands_over(&mut self, _length: usize) -> bool {
        false
    }

    fn waits_to(&mut self, _seconds: u32, _nanos: u32) {}
}

// A server at port 80 that sends each client what it sent, by at most 8 bytes up to its end, and exits with how many clients there
// were, where no more come.
const SERVES: &str =
    ".text\nli a0, 2\nli a1, 1\nli a2, 0\nli a7, 198\necall\nmv s1, a0\nla a1, address\nli a2, 16\nli a7, 200\necall\nmv a0, s1\nli a1, 8\nli a7, 201\necall\nli s0, 0\nnext: mv a0, s1\nli a1, 0\nli a2, 0\nli a7, 202\necall\nblt a0, zero, done\nmv s2, a0\naddi s0, s0, 1\nmore: mv a0, s2\nla a1, held\nli a2, 8\nli a7, 63\necall\nbge zero, a0, leave\nmv a2, a0\nmv a0, s2\nla a1, held\nli a7, 64\necall\nj more\nleave: mv a0, s2\nli a7, 57\necall\nj next\ndone: mv a0, s0\nli a7, 94\necall\n.data\naddress: .byte 2, 0, 0, 80\n.zero 12\nheld: .zero 8\n";

// The same, but that it reads from no memory at its second client.
const BREAKS: &str =
    ".text\nli a0, 2\nli a1, 1\nli a2, 0\nli a7, 198\necall\nmv s1, a0\nla a1, address\nli a2, 16\nli a7, 200\necall\nmv a0, s1\nli a1, 8\nli a7, 201\necall\nli s0, 0\nnext: mv a0, s1\nli a1, 0\nli a2, 0\nli a7, 202\necall\nblt a0, zero, done\nmv s2, a0\naddi s0, s0, 1\nmore: mv a0, s2\nla a1, held\nli a2, 8\nli a7, 63\necall\nbge zero, a0, leave\nli a1, 2\nbne s0, a1, send\nlw a1, 0(zero)\nsend: mv a2, a0\nmv a0, s2\nla a1, held\nli a7, 64\necall\nj more\nleave: mv a0, s2\nli a7, 57\necall\nj next\ndone: mv a0, s0\nli a7, 94\necall\n.data\naddress: .byte 2, 0, 0, 80\n.zero 12\nheld: .zero 8\n";

fn script_of<R: Abort>(rt: &R, alloc: Global) -> Script
    ensures { IsTrue (is_script (setup_of result)) }
{
    nv_script::read(alloc, b"varan-script 1\n").expect(rt, "a script")
}

fn made_clients(alloc: Global) -> Clients {
    Clients {
        next: 0,
        done: Transcript::new(alloc),
    }
}

fn kept_server<R: Abort>(rt: &R, alloc: Global) -> KeptKernel<Clients>
    ensures { result.log ≡ [] }
{
    make_kept(alloc, &script_of(rt, alloc), made_clients(alloc)).expect(rt, "a kernel")
}

fn live_server<R: Abort>(rt: &R, alloc: Global) -> ArrivingKernel<Clients>
    ensures { result.log ≡ [] }
{
    let made = arriving(alloc, &script_of(rt, alloc), made_clients(alloc));
    made.ok().expect(rt, "a kernel")
}

// What is done while they are served: each is answered before the next thing is asked for.
const SERVED: &[u8] =
    b"<+>+0<+<1:one <0:zero>0:zero<0.>-0>+1>1:one <1:more>1:more<1.>-1<+<2:lost<+>+3<3.>-3";

// What was done while they were served.
fn assert_done<R: Abort>(rt: &R, guests: &Guests<Clients>) {
    assert_eq!(rt; guests.outside().done.text.as_slice(), SERVED);
}

// What each client was sent, by the account, where it is kept.
fn assert_sent<R: Abort>(rt: &R, kernel: &KeptKernel<Clients>) {
    let guests = &kernel.answers().guests;
    assert_done(rt, guests);
    let sent = guests.connections();
    assert_eq!(rt; sent.len(), 4);
    for (client, port, bytes) in [
        (0, 80, b"zero".as_slice()),
        (1, 80, b"one more".as_slice()),
        (2, 81, b"".as_slice()),
        (3, 80, b"".as_slice()),
    ] {
        let connection = sent.get(client).expect(rt, "a connection");
        assert_eq!(rt; connection.port, port);
        assert_eq!(rt; connection.output.kept(), bytes);
    }
}

// Two versions beside each other serve what connects, over the kernel of a live run, which keeps the last event of its log alone.
fn served_live<R: Threads + Wait + Sync + Abort>(
    rt: &R,
    alloc: Global,
    texts: &[String; 2],
    threads: u32,
) {
    let hands = Vec::new(alloc);
    let kernel = live_server(rt, alloc);
    let account = beside(
        rt, alloc, kernel, texts, None, &OpenGate, &hands, 2, threads,
    );
    let account = account.expect(rt, "a run");
    assert_done(rt, account.kernel.answers());
    assert_eq!(rt; account.kernel.ended(), Some(3));
}

// The same over a kernel that keeps all, as text.
fn served_kept<R: Threads + Wait + Sync + Abort>(
    rt: &R,
    alloc: Global,
    texts: &[String; 2],
    threads: u32,
) -> Vec<u8> {
    let hands = Vec::new(alloc);
    let kernel = kept_server(rt, alloc);
    let account = beside(
        rt, alloc, kernel, texts, None, &OpenGate, &hands, 2, threads,
    );
    let account = account.expect(rt, "a run");
    assert_sent(rt, &account.kernel);
    text_of(rt, alloc, Some(account))
}

// They serve what connects, on one thread and on two, and tell the account of one after another, also where the first breaks in the
// middle of a client's request.
#[test]
fn clients_come(rt: HostRuntime) {
    let alloc = rt.alloc();
    let hands = Vec::new(alloc);
    for first in [SERVES, BREAKS] {
        let texts = [
            String::from_str(alloc, first).expect(&rt, "memory"),
            String::from_str(alloc, SERVES).expect(&rt, "memory"),
        ];
        let plain = one_by_one(alloc, kept_server(&rt, alloc), &texts, None, &hands);
        let account = plain.expect(&rt, "a run");
        assert_eq!(&rt; account.kernel.history().len(), 20);
        assert_eq!(&rt; account.kernel.output(), b"".as_slice());
        assert_eq!(&rt; account.kernel.ended(), Some(3));
        assert_sent(&rt, &account.kernel);
        let plain = text_of(&rt, alloc, Some(account));
        for threads in [1, 2] {
            served_live(&rt, alloc, &texts, threads);
            let text = served_kept(&rt, alloc, &texts, threads);
            assert_eq!(&rt; text.as_slice(), plain.as_slice());
        }
    }
}
