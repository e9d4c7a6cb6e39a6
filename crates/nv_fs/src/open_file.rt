// What descriptors name.
ghost use Rattle.std.specs.Prelude.{◌≡◌};
ghost use Rattle.nv_fs.specs.States.{is_target, one_way};

/// What an open file is of: the input, the console, a file by its number, or an end of a pipe by its number.
#[derive(Clone, Copy)]
pub enum Target {
    Input,
    Console,
    File(usize),
    Reader(usize),
    Writer(usize),
}

impl Target {
    /// Whether both are the same file, or the same end of a pipe.
    pub fn is(self, other: Target) -> bool
        ensures { result ≡ is_target self other }
    {
        match (self, other) {
            (Target::File(i), Target::File(j)) => i == j,
            (Target::Reader(i), Target::Reader(j)) => i == j,
            (Target::Writer(i), Target::Writer(j)) => i == j,
            _ => false,
        }
    }
}

/// An open file description (open(2)): what it is of, its offset, and what its flags allow.
#[derive(Clone, Copy)]
pub struct OpenFile {
    pub target: Target,
    pub offset: usize,
    pub reads: bool,
    pub writes: bool,
    pub appends: bool,
}

impl OpenFile {
    /// What is only read or only written, from its beginning on.
    pub fn one_way(target: Target, reads: bool) -> OpenFile
        ensures { result ≡ one_way target reads }
    {
        OpenFile {
            target,
            offset: 0,
            reads,
            writes: !reads,
            appends: false,
        }
    }
}
