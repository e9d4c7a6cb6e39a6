use nv_bpf::read;
use nv_calls::{Bytes, Call, Event, Reply};
use nv_rules::{Pair, Verdict, pair_of, value, verdict};
use std::alloc::{AllocError, Global};
use std::process::Abort;
use std::test::Fail;

// The words that the filters here read: each call's number and its third argument, the version, and how many bytes each call hands in, which is
// the third argument of a write that is whole.
fn pair(follower: (u32, u32), leader: (u32, u32), version: u32) -> Pair {
    let mut words = [0; 36];
    words[0] = follower.0;
    words[8] = follower.1;
    words[16] = leader.0;
    words[24] = leader.1;
    words[32] = version;
    words[34] = follower.1;
    words[35] = leader.1;
    Pair { words }
}

fn expect_value(rt: &impl Abort, alloc: Global, text: &str, pair: &Pair, want: u32) {
    match read(alloc, text.as_bytes()) {
        Ok(filter) => assert_eq!(rt; value(&filter, pair), want, "of {text:?} on {pair:?}"),
        Err(fault) => panic!(rt; "{fault:?} in {text:?}"),
    }
}

// Small filters whose values are worked out by hand.
#[test]
fn values_of_instructions(rt: HostRuntime) {
    for (text, want) in [
        ("2\n0 0 0 7\n22 0 0 0\n", 7),
        ("3\n1 0 0 7\n135 0 0 0\n22 0 0 0\n", 7),
        ("3\n0 0 0 4294967295\n4 0 0 2\n22 0 0 0\n", 1),
        ("3\n0 0 0 3\n20 0 0 5\n22 0 0 0\n", 4294967294),
        ("3\n0 0 0 65537\n36 0 0 65536\n22 0 0 0\n", 65536),
        ("3\n0 0 0 4294967295\n52 0 0 2\n22 0 0 0\n", 2147483647),
        ("3\n0 0 0 12\n68 0 0 10\n22 0 0 0\n", 14),
        ("3\n0 0 0 12\n84 0 0 10\n22 0 0 0\n", 8),
        ("3\n0 0 0 3\n100 0 0 31\n22 0 0 0\n", 2147483648),
        ("3\n0 0 0 4294967295\n116 0 0 31\n22 0 0 0\n", 1),
        // by X: A is 100, X is 7
        ("4\n0 0 0 100\n1 0 0 7\n12 0 0 0\n22 0 0 0\n", 107),
        ("4\n0 0 0 100\n1 0 0 7\n28 0 0 0\n22 0 0 0\n", 93),
        ("4\n0 0 0 100\n1 0 0 7\n44 0 0 0\n22 0 0 0\n", 700),
        ("4\n0 0 0 100\n1 0 0 7\n60 0 0 0\n22 0 0 0\n", 14),
        ("4\n0 0 0 100\n1 0 0 7\n76 0 0 0\n22 0 0 0\n", 103),
        ("4\n0 0 0 100\n1 0 0 7\n92 0 0 0\n22 0 0 0\n", 4),
        // a shift by X uses its low five bits
        ("4\n0 0 0 1\n1 0 0 33\n108 0 0 0\n22 0 0 0\n", 2),
        ("4\n0 0 0 256\n1 0 0 36\n124 0 0 0\n22 0 0 0\n", 16),
        // a division by X = 0 ends with 0
        ("3\n0 0 0 7\n60 0 0 0\n6 0 0 2147418112\n", 0),
        ("3\n0 0 0 1\n132 0 0 0\n22 0 0 0\n", 4294967295),
        ("2\n132 0 0 0\n22 0 0 0\n", 0),
        // jumps count from the next instruction
        ("4\n5 0 0 1\n6 0 0 1\n6 0 0 2\n6 0 0 3\n", 2),
        ("3\n21 0 1 0\n6 0 0 1\n6 0 0 2\n", 1),
        ("3\n21 0 1 1\n6 0 0 1\n6 0 0 2\n", 2),
        // comparisons are unsigned
        ("4\n0 0 0 4294967295\n37 0 1 1\n6 0 0 1\n6 0 0 2\n", 1),
        ("4\n0 0 0 5\n37 0 1 5\n6 0 0 1\n6 0 0 2\n", 2),
        ("4\n0 0 0 5\n53 0 1 5\n6 0 0 1\n6 0 0 2\n", 1),
        ("4\n0 0 0 5\n53 0 1 2147483648\n6 0 0 1\n6 0 0 2\n", 2),
        ("4\n0 0 0 5\n69 0 1 12\n6 0 0 1\n6 0 0 2\n", 1),
        ("4\n0 0 0 5\n69 0 1 10\n6 0 0 1\n6 0 0 2\n", 2),
        ("5\n0 0 0 5\n1 0 0 6\n45 0 1 0\n6 0 0 1\n6 0 0 2\n", 2),
        ("5\n0 0 0 5\n1 0 0 5\n29 0 1 0\n6 0 0 1\n6 0 0 2\n", 1),
        ("5\n0 0 0 5\n1 0 0 5\n61 0 1 0\n6 0 0 1\n6 0 0 2\n", 1),
        ("5\n0 0 0 5\n1 0 0 8\n77 0 1 0\n6 0 0 1\n6 0 0 2\n", 2),
        // the scratch memory, which begins as 0
        ("2\n96 0 0 15\n22 0 0 0\n", 0),
        ("5\n0 0 0 9\n2 0 0 15\n0 0 0 1\n96 0 0 15\n22 0 0 0\n", 9),
        ("5\n1 0 0 9\n3 0 0 4\n97 0 0 5\n135 0 0 0\n22 0 0 0\n", 0),
        ("5\n0 0 0 9\n7 0 0 0\n0 0 0 1\n135 0 0 0\n22 0 0 0\n", 9),
        ("2\n128 0 0 0\n22 0 0 0\n", 132),
        ("3\n129 0 0 0\n135 0 0 0\n22 0 0 0\n", 132),
        ("2\n32 0 0 128\n22 0 0 0\n", 3),
        // how many bytes the calls hand in
        ("2\n32 0 0 136\n22 0 0 0\n", 10),
        ("2\n32 0 0 140\n22 0 0 0\n", 20),
    ] {
        expect_value(&rt, rt.alloc(), text, &pair((64, 10), (94, 20), 3), want);
    }
}

// Filters that tcpdump 4.99.3 printed with -ddd, of expressions on the length alone, which is 132 here: of
// '(len + 5) * 3 > 400 or len / 2 = 66', 'len << 3 != len - 7', 'less 200', 'len & 7 = 4', 'greater 133', and of the first two with -O.
const PRINTED: [(&str, u32); 7] = [
    (
        "9\n128 0 0 0\n4 0 0 5\n36 0 0 3\n37 3 0 400\n128 0 0 0\n52 0 0 2\n21 0 1 66\n6 0 0 65535\n6 0 0 0\n",
        65535,
    ),
    (
        "10\n128 0 0 0\n100 0 0 3\n2 0 0 1\n128 0 0 0\n20 0 0 7\n7 0 0 3\n96 0 0 1\n29 0 1 0\n6 0 0 0\n6 0 0 65535\n",
        65535,
    ),
    ("4\n128 0 0 0\n37 0 1 200\n6 0 0 0\n6 0 0 65535\n", 65535),
    (
        "5\n128 0 0 0\n84 0 0 7\n21 0 1 4\n6 0 0 65535\n6 0 0 0\n",
        65535,
    ),
    ("4\n128 0 0 0\n53 0 1 133\n6 0 0 65535\n6 0 0 0\n", 0),
    (
        "35\n128 0 0 0\n2 0 0 0\n0 0 0 5\n2 0 0 1\n97 0 0 1\n96 0 0 0\n12 0 0 0\n2 0 0 1\n0 0 0 3\n2 0 0 2\n97 0 0 2\n96 0 0 1\n44 0 0 0\n2 0 0 2\n0 0 0 400\n2 0 0 3\n97 0 0 3\n96 0 0 2\n45 14 0 0\n128 0 0 0\n2 0 0 3\n0 0 0 2\n2 0 0 4\n97 0 0 4\n96 0 0 3\n60 0 0 0\n2 0 0 4\n0 0 0 66\n2 0 0 5\n97 0 0 5\n96 0 0 4\n28 0 0 0\n21 0 1 0\n6 0 0 65535\n6 0 0 0\n",
        65535,
    ),
    (
        "22\n128 0 0 0\n2 0 0 0\n0 0 0 3\n2 0 0 1\n97 0 0 1\n96 0 0 0\n108 0 0 0\n2 0 0 1\n128 0 0 0\n2 0 0 2\n0 0 0 7\n2 0 0 3\n97 0 0 3\n96 0 0 2\n28 0 0 0\n2 0 0 3\n97 0 0 3\n96 0 0 1\n28 0 0 0\n21 0 1 0\n6 0 0 0\n6 0 0 65535\n",
        65535,
    ),
];

// A filter that bpfc 0.6.8 printed with -f tcpdump, after its count, of this text:
//         ld [0]
//         jeq #64, write, other
//  write: ld [64]
//         jeq #64, both, refuse
//  both:  ld [32]
//         st M[3]
//         ld [96]
//         tax
//         ld M[3]
//         jge x, more, fewer
//  more:  sub x
//         jgt #16, refuse, allow
//  fewer: txa
//         ldx M[3]
//         sub x
//         jgt #16, refuse, allow
//  other: jset #128, high, refuse
//  high:  ld #327680
//         stx M[1]
//         tax
//         ld [128]
//         mul #3
//         add #7
//         lsh #4
//         rsh #3
//         or x
//         st M[0]
//         ld [64]
//         and #1
//         jeq #1, error, skip
//  error: ld M[0]
//         ret a
//  skip:  ld len
//         neg
//         and #393216
//         or #393216
//         div #1
//         ret a
//  allow: ret #2147418112
//  refuse: ret #0
const WRITES: &str =
    "40\n32 0 0 0\n21 0 14 64\n32 0 0 64\n21 0 35 64\n32 0 0 32\n2 0 0 3\n32 0 0 96\n7 0 0 0\n96 0 0 3\n61 0 2 0\n28 0 0 0\n37 27 26 16\n135 0 0 0\n97 0 0 3\n28 0 0 0\n37 23 22 16\n69 0 22 128\n0 0 0 327680\n3 0 0 1\n7 0 0 0\n32 0 0 128\n36 0 0 3\n4 0 0 7\n100 0 0 4\n116 0 0 3\n76 0 0 0\n2 0 0 0\n32 0 0 64\n84 0 0 1\n21 0 2 1\n96 0 0 0\n22 0 0 0\n128 0 0 0\n132 0 0 0\n84 0 0 393216\n68 0 0 393216\n52 0 0 1\n22 0 0 0\n6 0 0 2147418112\n6 0 0 0\n";

const ALLOW: u32 = 2147418112;

#[test]
fn printed_filters(rt: HostRuntime) {
    for (text, want) in PRINTED {
        expect_value(&rt, rt.alloc(), text, &pair((64, 10), (94, 20), 3), want);
    }
    for (follower, leader, version, want) in [
        ((64, 100), (64, 100), 1, ALLOW),
        ((64, 116), (64, 100), 1, ALLOW),
        ((64, 117), (64, 100), 1, 0),
        ((64, 84), (64, 100), 0, ALLOW),
        ((64, 83), (64, 100), 0, 0),
        ((64, 0), (64, 4294967295), 0, 0),
        ((64, 4294967295), (64, 4294967280), 0, ALLOW),
        ((64, 100), (93, 100), 0, 0),
        ((93, 0), (93, 0), 0, 0),
        // 2 * (3 * version + 7), with the high half 5
        ((172, 0), (177, 0), 0, 327694),
        ((172, 0), (177, 0), 1, 327700),
        ((172, 0), (177, 0), 7, 327736),
        ((172, 0), (174, 0), 3, 393216),
    ] {
        expect_value(
            &rt,
            rt.alloc(),
            WRITES,
            &pair(follower, leader, version),
            want,
        );
    }
}

// The rule that permits getppid before the leader's getegid.
#[test]
fn permitted_extra_call(rt: HostRuntime) {
    let rule = "6\n32 0 0 64\n21 0 3 177\n32 0 0 0\n21 0 1 174\n6 0 0 2147418112\n6 0 0 0\n";
    for (follower, leader, want) in [
        (174, 177, ALLOW),
        (174, 176, 0),
        (177, 177, 0),
        (177, 174, 0),
    ] {
        expect_value(
            &rt,
            rt.alloc(),
            rule,
            &pair((follower, 0), (leader, 0), 1),
            want,
        );
    }
}

#[test]
fn verdicts(rt: HostRuntime) {
    for (value, want) in [
        (0x7fff0000, Verdict::Allow),
        (0x7fff1234, Verdict::Allow),
        (0x00050000, Verdict::Errno(0)),
        (0x0005ffff, Verdict::Errno(65535)),
        (0x00060000, Verdict::Skip),
        (0x0006abcd, Verdict::Skip),
        (0, Verdict::Refuse(0)),
        (0x00070000, Verdict::Take),
        (0x0007abcd, Verdict::Take),
        (0x00080000, Verdict::Refuse(0x80000)),
        (0xffffffff, Verdict::Refuse(0xffffffff)),
    ] {
        assert_eq!(rt; verdict(value), want, "of {value:x}");
    }
}

fn bytes_of(alloc: Global, text: &str) -> Result<Bytes, AllocError> {
    let mut bytes = Bytes::make(alloc, 16)?;
    if text.len() <= bytes.capacity() {
        bytes.set(text.as_bytes());
    }
    Ok(bytes)
}

fn call(alloc: Global, nr: u32, args: [u32; 6], payload: &str) -> Result<Call, AllocError> {
    Ok(Call {
        tid: 100,
        nr,
        args,
        bad: false,
        payload: bytes_of(alloc, payload)?,
    })
}

#[test]
fn words_of_a_pair(rt: HostRuntime) -> Result<(), Fail> {
    let follower = call(rt.alloc(), 63, [1, 2, 3, 4, 5, 6], "green")?;
    let event = Event {
        stamp: 9,
        call: call(rt.alloc(), 64, [10, 20, 30, 40, 50, 60], "red")?,
        reply: Reply {
            ret: -11,
            payload: bytes_of(rt.alloc(), "as")?,
        },
    };
    let pair = pair_of(&follower, &event, 7);
    let want = [
        63, 0x400000f3, 0, 0, 1, 0, 2, 0, 3, 0, 4, 0, 5, 0, 6, 0, 64, 0x400000f3, 0, 0, 10, 0, 20,
        0, 30, 0, 40, 0, 50, 0, 60, 0, 7, 0, 5, 3,
    ];
    assert_eq!(rt; pair.words, want);
    Ok(())
}
