ghost use Rattle.std.specs.Prelude.{◌≡◌, ◌≤◌, ◌<◌, [], length};
ghost use Rattle.nv_run_tests.specs.Refusing.{inner_of};

use crate::refusing::RefusingKernel;
use crate::runs::{beside, kernel, one_by_one, program, text_of};
use nv_bpf::Filter;
use nv_calls::{Recorded, SyscallKernel};
use nv_kernel::ScriptKernel;
use nv_outside::MemorySink;
use nv_replay::Account;
use nv_workers::OpenGate;
use std::alloc::Global;
use std::process::Abort;
use std::sync::Wait;
use std::thread::Threads;

pub(crate) const EXITS: &str = "li a0, 7\nli a7, 94\necall\n";

// A load from address 0.
const FAULTS: &str = "lw a0, 0(zero)\n";

// A call that the others don't make.
const STRAYS: &str = "li a7, 172\necall\nli a0, 7\nli a7, 94\necall\n";

// Filters in the form that `tcpdump -ddd` prints. Each call that isn't the log's is allowed.
const ALLOWS: &str = "1\n6 0 0 2147418112\n";

// Each event that isn't the version's call is skipped.
const SKIPS: &str = "1\n6 0 0 393216\n";

// Each call that isn't the log's gets error 4 (EINTR).
const INTERRUPTS: &str = "1\n6 0 0 327684\n";

// On 1, 3 and 8 host threads, over 2 places and over 1,024, the account is the one of the plain monitor.
fn same_as_plain<R: Threads + Wait + Sync + Abort>(
    rt: &R,
    alloc: Global,
    texts: &[String],
    rules: Option<&Filter>,
)
    requires { (0 < length texts.now) × (length texts.now ≤ 8) }
{
    let hands = Vec::new(alloc);
    let fresh = kernel(alloc).expect(rt, "a kernel");
    let plain = text_of(rt, alloc, one_by_one(alloc, fresh, texts, rules, &hands));
    for threads in [1, 3, 8] {
        for places in [2, 1024] {
            let fresh = kernel(alloc).expect(rt, "a kernel");
            let account = beside(
                rt, alloc, fresh, texts, rules, &OpenGate, &hands, places, threads,
            );
            let account = account.ok();
            assert_eq!(rt; text_of(rt, alloc, account).as_slice(), plain.as_slice());
        }
    }
}

#[test]
fn one_version(rt: HostRuntime) {
    let alloc = rt.alloc();
    let only = program(alloc, 20, EXITS).expect(&rt, "memory");
    same_as_plain(&rt, alloc, &[only], None);
}

#[test]
fn eight_alike(rt: HostRuntime) {
    let alloc = rt.alloc();
    let mut texts = Vec::new(alloc);
    for _version in 0..8 {
        let text = program(alloc, 50, EXITS).expect(&rt, "memory");
        texts.push(text).expect(&rt, "memory");
    }
    assert_eq!(rt; texts.len(), 8);
    same_as_plain(&rt, alloc, &texts, None);
}

// Three leaders fault after the other, a version strays and is refused, and the last but one exits.
#[test]
fn leaders_change(rt: HostRuntime) {
    let alloc = rt.alloc();
    let texts = [
        program(alloc, 5, FAULTS).expect(&rt, "memory"),
        program(alloc, 3, STRAYS).expect(&rt, "memory"),
        program(alloc, 5, FAULTS).expect(&rt, "memory"),
        program(alloc, 9, FAULTS).expect(&rt, "memory"),
        program(alloc, 20, EXITS).expect(&rt, "memory"),
        program(alloc, 20, EXITS).expect(&rt, "memory"),
        program(alloc, 4, FAULTS).expect(&rt, "memory"),
    ];
    same_as_plain(&rt, alloc, &texts, None);
    for rules in [ALLOWS, SKIPS, INTERRUPTS] {
        let filter = nv_bpf::read(alloc, rules.as_bytes()).ok();
        let filter = filter.expect(&rt, "a filter");
        same_as_plain(&rt, alloc, &texts, Some(&filter));
    }
}

// All fault, so the log ends without an exit.
#[test]
fn none_is_left(rt: HostRuntime) {
    let alloc = rt.alloc();
    let texts = [
        program(alloc, 2, FAULTS).expect(&rt, "memory"),
        program(alloc, 6, FAULTS).expect(&rt, "memory"),
        program(alloc, 6, FAULTS).expect(&rt, "memory"),
    ];
    same_as_plain(&rt, alloc, &texts, None);
}

// Writes `hi` twice and exits with 0.
const TWICE: &str = ".text
la a1, text
li a2, 3
li a0, 1
li a7, 64
ecall
li a0, 1
ecall
li a0, 0
li a7, 94
ecall
.data
text: .ascii \"hi\\n\"
";

// A kernel that is refused the reservation with this number, counted from 0.
fn refusing<R: Abort>(rt: &R, alloc: Global, number: u32) -> RefusingKernel<ScriptKernel>
    ensures { (inner_of result).log ≡ [] }
{
    let inner = kernel(alloc).expect(rt, "a kernel");
    let refused = [number].to_vec(alloc).expect(rt, "memory");
    RefusingKernel::make(inner, refused)
}

fn finished<R: Abort, K: SyscallKernel + Recorded>(
    rt: &R,
    account: Option<Account<K>>,
) -> Account<K> {
    account.expect(rt, "a run")
}

fn report_of<R: Abort, K: SyscallKernel + Recorded>(
    rt: &R,
    alloc: Global,
    account: &Account<K>,
) -> Vec<u8> {
    let mut sink = MemorySink::make(alloc, 4096, 4096, Vec::new(alloc)).expect(rt, "memory");
    assert!(rt; nv_report::write(&mut sink, account).is_ok());
    sink.written().to_vec(alloc).expect(rt, "memory")
}

// So many versions that write `hi` twice.
pub(crate) fn alike<R: Abort>(rt: &R, alloc: Global, count: usize) -> Vec<String>
    ensures { length result.items ≡ count }
{
    let mut texts = Vec::new(alloc);
    for _version in 0..count {
        let text = String::from_str(alloc, TWICE).expect(rt, "memory");
        texts.push(text).expect(rt, "memory");
    }
    assert_eq!(rt; texts.len(), count);
    texts
}

// What each run of versions that write `hi` twice tells, but for the versions' own lines.
const SAID_TWICE: &str = "output 6
hi
hi

log 3
0 100 64 1 0 3 0 0 0 = 3 : 68690a
1 100 64 1 0 3 0 0 0 = 3 : 68690a
2 100 94 0 0 0 0 0 0 = 0 :
";

// The kernel was asked for memory once for each event, and once for the call that was refused; and so does the report say.
fn asked_once<R: Abort>(
    rt: &R,
    alloc: Global,
    account: Option<Account<RefusingKernel<ScriptKernel>>>,
    wanted: &str,
) {
    let account = finished(rt, account);
    assert_eq!(rt; account.kernel.asked(), 4);
    assert_eq!(rt;
        report_of(rt, alloc, &account).as_slice(),
        wanted.as_bytes()
    );
}

// One event finds no memory, each in turn: the first version is dropped before that call is served, and the second one makes it. No
// other memory is asked for, so none is between a call served and its event published.
#[test]
fn leader_wants_memory(rt: HostRuntime) {
    let alloc = rt.alloc();
    let texts = alike(&rt, alloc, 2);
    let hands = Vec::new(alloc);
    for number in 0..3 {
        let wanted = format!(in alloc;
            "{SAID_TWICE}fates 2\n0 memory seen {number} led 0-{number} rewrites 0\n1 exited 0 seen 3 led {number}-3 rewrites 0\n"
        );
        let wanted = wanted.expect(&rt, "memory");
        let kernel = refusing(&rt, alloc, number);
        let account = one_by_one(alloc, kernel, &texts, None, &hands);
        asked_once(&rt, alloc, account, wanted.as_str());
        for threads in [1, 2] {
            let kernel = refusing(&rt, alloc, number);
            let account = beside(
                &rt, alloc, kernel, &texts, None, &OpenGate, &hands, 2, threads,
            );
            asked_once(&rt, alloc, account.ok(), wanted.as_str());
        }
    }
}

// These versions come with these planned lengths to these lines: one after another, and on 1 to 3 host threads.
fn come_to<R: Threads + Wait + Sync + Abort>(
    rt: &R,
    alloc: Global,
    texts: &[String],
    planned: &[u32],
    lines: &str,
)
    requires texts { (0 < length texts.now) × (length texts.now ≤ 8) }
    requires planned { length planned.now ≤ 8 }
{
    let hands = planned.to_vec(alloc).expect(rt, "memory");
    let count = texts.len();
    let wanted = format!(in alloc; "{SAID_TWICE}fates {count}\n{lines}").expect(rt, "memory");
    let fresh = kernel(alloc).expect(rt, "a kernel");
    let account = one_by_one(alloc, fresh, texts, None, &hands);
    assert_eq!(rt;
        report_of(rt, alloc, &finished(rt, account)).as_slice(),
        wanted.as_bytes()
    );
    for threads in [1, 2, 3] {
        for places in [2, 1024] {
            let fresh = kernel(alloc).expect(rt, "a kernel");
            let account = beside(
                rt, alloc, fresh, texts, None, &OpenGate, &hands, places, threads,
            );
            assert_eq!(rt;
                report_of(rt, alloc, &finished(rt, account.ok())).as_slice(),
                wanted.as_bytes()
            );
        }
    }
}

#[test]
fn lead_is_handed_over(rt: HostRuntime) {
    let alloc = rt.alloc();
    let two = alike(&rt, alloc, 2);
    let once = "0 exited 0 seen 3 led 0-1 rewrites 0\n1 exited 0 seen 3 led 1-3 rewrites 0\n";
    come_to(&rt, alloc, &two, &[1], once);
    let twice = "0 exited 0 seen 3 led 0-1,2-3 rewrites 0\n1 exited 0 seen 3 led 1-2 rewrites 0\n";
    come_to(&rt, alloc, &two, &[1, 2], twice);
}

#[test]
fn one_version_hands_over_to_itself(rt: HostRuntime) {
    let alloc = rt.alloc();
    let one = alike(&rt, alloc, 1);
    come_to(
        &rt,
        alloc,
        &one,
        &[1],
        "0 exited 0 seen 3 led 0-1,1-3 rewrites 0\n",
    );
}

// Writes `hi` twice and faults, at the ninth word of its text.
const TWICE_AND_FAULTS: &str = ".text
la a1, text
addi a0, zero, 1
addi a2, zero, 3
addi a7, zero, 64
ecall
addi a0, zero, 1
ecall
lw a0, 0(zero)
.data
text: .ascii \"hi\\n\"
";

#[test]
fn former_leader_faults(rt: HostRuntime) {
    let alloc = rt.alloc();
    let texts = [
        String::from_str(alloc, TWICE_AND_FAULTS).expect(&rt, "memory"),
        String::from_str(alloc, TWICE).expect(&rt, "memory"),
    ];
    let lines =
        "0 fault load 100 00010020 seen 2 led 0-1 rewrites 0\n1 exited 0 seen 3 led 1-3 rewrites 0\n";
    come_to(&rt, alloc, &texts, &[1], lines);
}
