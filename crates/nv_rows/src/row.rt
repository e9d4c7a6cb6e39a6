// What a row says.

/// How a file comes from the bytes that its row has.
#[derive(Clone, Copy, Debug, PartialEq, Eq)]
pub enum Kind {
    /// They are the file.
    Plain,
    /// They are the one segment of a version file, at 0x10000.
    Code,
    /// They are the assembler text of a version, which the monitor assembles.
    Assembler,
    /// They are a rule text, which the monitor assembles.
    Rules,
}

/// A change of a file.
#[derive(Drop)]
pub enum Change {
    /// These bytes stand at this place.
    Set(usize, Vec<u8>),
    /// So many bytes are left.
    Cut(usize),
}

/// A file that a call finds.
#[derive(Drop)]
pub struct RowFile {
    pub name: String,
    pub kind: Kind,
    pub content: Vec<u8>,
    /// What is changed in the file, in this order.
    pub changes: Vec<Change>,
}

/// What has to be written.
#[derive(Drop)]
pub struct Wanted {
    pub whole: Option<Vec<u8>>,
    pub begin: Vec<u8>,
    pub end: Vec<u8>,
    /// What stands on the output of a live run.
    pub said: Vec<u8>,
    /// The transcript of a live run.
    pub noted: Vec<u8>,
}

impl Wanted {
    /// Whether these bytes may be what was written.
    pub fn is(&self, written: &[u8]) -> bool {
        let is_whole = match &self.whole {
            Some(whole) => whole.as_slice() == written,
            None => true,
        };
        is_whole && written.starts_with(&self.begin) && written.ends_with(&self.end)
    }

    /// Whether these may be what a live run said and its transcript.
    pub fn is_of_live_run(&self, said: &[u8], noted: &[u8]) -> bool {
        self.said.as_slice() == said && self.noted.as_slice() == noted
    }
}

/// A call of the monitor, and what has to come of it.
#[derive(Drop)]
pub struct Row {
    pub name: String,
    /// The words of the command line, the command's name among them.
    pub words: Vec<String>,
    pub files: Vec<RowFile>,
    /// The numbers, from 0, of the reads that fail.
    pub failing_reads: Vec<u32>,
    /// How many bytes the sink takes a write, at least 1.
    pub takes: usize,
    /// The numbers, from 0, of the writes that fail.
    pub failing_writes: Vec<u32>,
    /// What the reads of a live run give, in order. A read after the last fails.
    pub input: Vec<Vec<u8>>,
    /// The numbers, from 0, of the writes of what a live run says that fail.
    pub failing_says: Vec<u32>,
    /// The numbers, from 0, of the writes of its transcript that fail.
    pub failing_notes: Vec<u32>,
    /// The run has a gate at which its two versions meet, and so many events.
    pub meets: Option<u32>,
    /// A run isn't done again with other options of timing.
    pub is_once: bool,
    /// The call is done again for each byte of what was written, with a sink that takes a byte a write and fails at that one: the
    /// status is 6, and what comes before the byte is written.
    pub each_write_fails: bool,
    pub status: u8,
    pub wanted: Wanted,
}
