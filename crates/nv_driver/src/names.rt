// The commands' names, and the arguments of each.
use crate::simple::{Form, Kind};

/// The name of a command.
#[derive(Clone, Copy)]
pub enum Name {
    Run,
    Serve,
    Rules,
    Asm,
    Gen,
    Record,
    Replay,
    Inspect,
    Help,
}

// The options that `run`, `record` and `serve` share.
const RUN_OPTIONS: [(&str, Kind); 7] = [
    ("rules", Kind::Value),
    ("ring", Kind::Value),
    ("memory", Kind::Value),
    ("budget", Kind::Value),
    ("hang", Kind::Value),
    ("calls", Kind::Value),
    ("threads", Kind::Value),
];

// The options of a version that follows a trace.
const TRAIL_OPTIONS: [(&str, Kind); 7] = [
    ("script", Kind::Value),
    ("transcript", Kind::Value),
    ("rules", Kind::Value),
    ("memory", Kind::Value),
    ("budget", Kind::Value),
    ("hang", Kind::Value),
    ("index", Kind::Value),
];

const RUN: Form = Form {
    name: "run",
    options: &RUN_OPTIONS,
    rest: &[
        ("script", Kind::Value),
        ("transcript", Kind::Value),
        ("json", Kind::Flag),
        ("version", Kind::Files),
    ],
};

const SERVE: Form = Form {
    name: "serve",
    options: &RUN_OPTIONS,
    rest: &[
        ("script", Kind::Value),
        ("clients", Kind::Flag),
        ("patience", Kind::Value),
        ("log", Kind::Flag),
        ("version", Kind::Files),
    ],
};

const RULES: Form = Form {
    name: "rules",
    options: &[("asm", Kind::Flag)],
    rest: &[("file", Kind::File)],
};

const ASM: Form = Form {
    name: "asm",
    options: &[],
    rest: &[("file", Kind::File)],
};

const GEN: Form = Form {
    name: "gen",
    options: &[],
    rest: &[("number", Kind::File)],
};

const RECORD: Form = Form {
    name: "record",
    options: &RUN_OPTIONS,
    rest: &[
        ("script", Kind::Value),
        ("transcript", Kind::Value),
        ("version", Kind::Files),
    ],
};

const REPLAY: Form = Form {
    name: "replay",
    options: &TRAIL_OPTIONS,
    rest: &[("trace", Kind::File), ("version", Kind::File)],
};

const INSPECT: Form = Form {
    name: "inspect",
    options: &TRAIL_OPTIONS,
    rest: &[
        ("stamp", Kind::Value),
        ("call", Kind::Value),
        ("count", Kind::Value),
        ("dump", Kind::Value),
        ("length", Kind::Value),
        ("trace", Kind::File),
        ("version", Kind::File),
    ],
};

const HELP: Form = Form {
    name: "usage",
    options: &[],
    rest: &[("command", Kind::Word)],
};

impl Name {
    ghost use Rattle.std.specs.Prelude.{◌≡◌, true, option_map};
    ghost use Rattle.clap.specs.Faults.{is_simple_and_free};
    ghost use Rattle.nv_driver.specs.Words.{name_spelt};
    ghost use Rattle.nv_driver.specs.Tables.{name_view, app_by, app_named};

    /// The command that a word names.
    pub fn of(word: &str) -> Option<Name>
        ensures { option_map name_view result ≡ name_spelt word.now }
    {
        match word {
            "run" => Some(Name::Run),
            "serve" => Some(Name::Serve),
            "rules" => Some(Name::Rules),
            "asm" => Some(Name::Asm),
            "gen" => Some(Name::Gen),
            "record" => Some(Name::Record),
            "replay" => Some(Name::Replay),
            "inspect" => Some(Name::Inspect),
            "usage" => Some(Name::Help),
            _ => None,
        }
    }

    /// Its name and its arguments.
    pub fn form(self) -> Form
        ensures named { app_by result ≡ app_named (name_view self) }
        ensures simple { is_simple_and_free (app_by result) ≡ true }
    {
        match self {
            Name::Run => RUN,
            Name::Serve => SERVE,
            Name::Rules => RULES,
            Name::Asm => ASM,
            Name::Gen => GEN,
            Name::Record => RECORD,
            Name::Replay => REPLAY,
            Name::Inspect => INSPECT,
            Name::Help => HELP,
        }
    }
}
