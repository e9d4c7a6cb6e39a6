// What `usage` writes, line by line.
ghost use Rattle.std.specs.Prelude.{◌≡◌, Some, option_map};
ghost use Rattle.std.specs.List.{flat_map};
ghost use Rattle.nv_driver.specs.Help.{help_of};
ghost use Rattle.nv_driver.specs.Tables.{name_view};

use crate::names::Name;

const RUN_USAGE: &[u8] = b"varan run --script S [options] V1 [V2 .. V8]\n";

const SERVE_USAGE: &[u8] = b"varan serve [options] V1 [V2 .. V8]\n";

const RECORD_USAGE: &[u8] = b"varan record --script S [options] V1 [V2 .. V8]\n";

const REPLAY_USAGE: &[u8] = b"varan replay --script S [options] TRACE V\n";

const INSPECT_USAGE: &[u8] = b"varan inspect --script S [options] POINT TRACE V\n";

const ASM_USAGE: &[u8] = b"varan asm FILE\n";

const RULES_USAGE: &[u8] = b"varan rules [--asm] FILE\n";

const GEN_USAGE: &[u8] = b"varan gen N\n";

const HELP_USAGE: &[u8] = b"varan usage [COMMAND]\n";

const SCRIPT: &[u8] = b"  --script S      the script; it must be given, or --transcript\n";

const TRANSCRIPT: &[u8] =
    b"  --transcript T  in place of --script: up to 1073741824 bytes, where a script has 4194304\n";

const START: &[u8] = b"  --script S      the script; default none\n";

const RULES: &[u8] =
    b"  --rules FILE    a rule file that judges the calls of followers which differ\n";

const RING: &[u8] = b"  --ring N        size of the event ring: 2 to 1024, default 256\n";

const MEMORY: &[u8] =
    b"  --memory BYTES  memory of a version, in pages of 4096: 131072 to 16777216, default 1048576\n";

const BUDGET: &[u8] =
    b"  --budget N      instructions of a version: 1 to 1000000000, default 10000000\n";

const NO_BUDGET: &[u8] =
    b"  --budget N      instructions of a version in place of --hang: 1 to 1000000000\n";

const HANG: &[u8] =
    b"  --hang N        instructions after each answer in place of --budget: 1 to 1000000000\n";

const USUAL_HANG: &[u8] =
    b"  --hang N        instructions of a version after each answer: 1 to 1000000000, default 100000000\n";

const CALLS: &[u8] = b"  --calls N       events of the log: 1 to 131072, default 65536\n";

const MANY_CALLS: &[u8] =
    b"  --calls N       events of the log: 1 to 500000000, default 500000000\n";

const THREADS: &[u8] = b"  --threads N     host threads that run the versions: 1 to 8, default 8\n";

const JSON: &[u8] = b"  --json          the report is written as JSON\n";

const CLIENTS: &[u8] =
    b"  --clients       clients come and go by lines on standard input and output\n";

const PATIENCE: &[u8] =
    b"  --patience MS   wait for a follower before it is let go, with --clients: 1 to 3600000; default none\n";

const LOG: &[u8] = b"  --log           each event is told on standard error\n";

const INDEX: &[u8] = b"  --index N       number of the version that rules see: 0 to 7, default 1\n";

const STAMP: &[u8] = b"  --stamp N       point: after so many events: 0 to 4294967295\n";

const CALL: &[u8] =
    b"  --call N        point: before the first event with this call number: 0 to 4294967295\n";

const COUNT: &[u8] = b"  --count N       point: after so many instructions: 1 to 1000000000\n";

const DUMP: &[u8] =
    b"  --dump ADDRESS  memory from this address on, with --length: 0 to 4294967295 less the length\n";

const LENGTH: &[u8] = b"  --length BYTES  how many bytes --dump shows: 1 to 4096\n";

const ASM: &[u8] = b"  --asm           a rule text is assembled\n";

const RUN_HELP: [&[u8]; 12] = [
    RUN_USAGE,
    SCRIPT,
    TRANSCRIPT,
    RULES,
    RING,
    MEMORY,
    BUDGET,
    HANG,
    CALLS,
    THREADS,
    JSON,
    b"example: varan run --script clients update old\n",
];

const SERVE_HELP: [&[u8]; 13] = [
    SERVE_USAGE,
    START,
    RULES,
    RING,
    MEMORY,
    USUAL_HANG,
    NO_BUDGET,
    MANY_CALLS,
    THREADS,
    CLIENTS,
    PATIENCE,
    LOG,
    b"example: varan serve --clients update old\n",
];

const RECORD_HELP: [&[u8]; 11] = [
    RECORD_USAGE,
    SCRIPT,
    TRANSCRIPT,
    RULES,
    RING,
    MEMORY,
    BUDGET,
    HANG,
    CALLS,
    THREADS,
    b"example: varan record --script clients old > trace\n",
];

const REPLAY_HELP: [&[u8]; 9] = [
    REPLAY_USAGE,
    SCRIPT,
    TRANSCRIPT,
    RULES,
    MEMORY,
    BUDGET,
    HANG,
    INDEX,
    b"example: varan replay --script clients trace patch\n",
];

const INSPECT_HELP: [&[u8]; 14] = [
    INSPECT_USAGE,
    SCRIPT,
    TRANSCRIPT,
    RULES,
    MEMORY,
    BUDGET,
    HANG,
    INDEX,
    STAMP,
    CALL,
    COUNT,
    DUMP,
    LENGTH,
    b"example: varan inspect --script clients --stamp 60 trace patch\n",
];

const ASM_HELP: [&[u8]; 2] = [ASM_USAGE, b"example: varan asm program.s > program\n"];

const RULES_HELP: [&[u8]; 3] = [
    RULES_USAGE,
    ASM,
    b"example: varan rules --asm rules.txt > rules\n",
];

const GEN_HELP: [&[u8]; 2] = [GEN_USAGE, b"example: varan gen 7\n"];

const HELP_HELP: [&[u8]; 2] = [HELP_USAGE, b"example: varan usage run\n"];

const ALL_HELP: [&[u8]; 10] = [
    RUN_USAGE,
    SERVE_USAGE,
    RECORD_USAGE,
    REPLAY_USAGE,
    INSPECT_USAGE,
    ASM_USAGE,
    RULES_USAGE,
    GEN_USAGE,
    HELP_USAGE,
    b"varan usage COMMAND writes the options of a command, and an example\n",
];

// The lines of one command's help.
fn command_help(name: Name) -> &'static [&'static [u8]]
    ensures { flat_map (λ line. line.now) result.now ≡ help_of (Some (name_view name)) }
{
    match name {
        Name::Run => &RUN_HELP,
        Name::Serve => &SERVE_HELP,
        Name::Record => &RECORD_HELP,
        Name::Replay => &REPLAY_HELP,
        Name::Inspect => &INSPECT_HELP,
        Name::Asm => &ASM_HELP,
        Name::Rules => &RULES_HELP,
        Name::Gen => &GEN_HELP,
        Name::Help => &HELP_HELP,
    }
}

/// The lines that `usage` writes, of one command or of all.
pub fn help_text(topic: Option<Name>) -> &'static [&'static [u8]]
    ensures { flat_map (λ line. line.now) result.now ≡ help_of (option_map name_view topic) }
{
    match topic {
        Some(name) => command_help(name),
        None => &ALL_HELP,
    }
}
