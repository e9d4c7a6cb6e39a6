// The tables, and what they are at the start.
ghost use Rattle.std.specs.Prelude.{◌≡◌, ◌+◌, ◌≤◌, IfOk, map, vec_len, length, drop};
ghost use Rattle.nv_fs.specs.Views.{inode_of};
ghost use Rattle.nv_fs.specs.States.{is_open};
ghost use Rattle.nv_fs.specs.Starts.{first_state, first_descriptors, first_opens, inode_from, console_limit};

use crate::blocks::Blocks;
use crate::open_file::{OpenFile, Target};
use nv_calls::{MOST_BYTES, Past};
use std::alloc::{AllocError, Global};
use std::marker::Model;

/// How many descriptors there are.
pub const DESCRIPTORS: usize = 64;

/// How many bytes the console takes in all, where the later calls aren't in the table.
const CONSOLE: usize = 16_777_216;

/// A file in memory: its name until it is unlinked, and its bytes.
#[derive(Drop)]
pub struct MemoryFile {
    pub name: Option<Vec<u8>>,
    pub bytes: Blocks,
}

/// The files of a run, with the descriptors that name them. A free place in a table is used again. The beginning of the console may be let go. A read of a file gathers its bytes in `part`.
#[derive(Drop)]
pub struct FileSystem {
    pub(crate) alloc: Global,
    pub(crate) descriptors: [Option<usize>; DESCRIPTORS],
    pub(crate) opens: Vec<OpenFile>,
    pub(crate) files: Vec<MemoryFile>,
    pub(crate) pipes: Vec<Vec<u8>>,
    pub(crate) input: Vec<u8>,
    pub(crate) taken: usize,
    pub(crate) console: Past<u8>,
    pub(crate) limit: usize,
    pub(crate) name: Vec<u8>,
    pub(crate) part: Vec<u8>,
}

impl Model for FileSystem {
    ghost use Rattle.std.specs.Prelude.{◌≡◌, ◌≤◌, vec_len, map};
    ghost use Rattle.nv_calls.specs.Limits.{MOST_BYTES};
    ghost use Rattle.nv_fs.specs.Reserved.{Disk};

    ghost Value = { Disk };

    ghost use Rattle.nv_fs.specs.Views.{disk_of};

    ghost view = { disk_of };

    ghost invariant = { λ k. (k.taken ≤ vec_len k.input) × (vec_len k.part ≡ MOST_BYTES) };
}

fn zeros(alloc: Global, n: usize) -> Result<Vec<u8>, AllocError>
    ensures { IfOk result (λ made. vec_len made ≡ n) }
{
    vec![in alloc; 0; n]
}

#[tactic(auto, unfolding(crate::specs::Starts::first_descriptors))]
fn first_descriptors() -> [Option<usize>; DESCRIPTORS]
    ensures { result ≡ first_descriptors }
{
    let mut descriptors = [None; DESCRIPTORS];
    descriptors[0] = Some(0);
    descriptors[1] = Some(1);
    descriptors[2] = Some(1);
    descriptors
}

#[tactic(auto, unfolding(crate::specs::Starts::console_limit))]
fn console_limit(polls: bool) -> usize
    ensures { result ≡ console_limit polls }
{
    if polls { usize::MAX } else { CONSOLE }
}

fn first_opens(alloc: Global) -> Result<Vec<OpenFile>, AllocError>
    ensures { IfOk result (λ made. made.items ≡ first_opens) }
{
    let mut opens = Vec::new(alloc);
    opens.push(OpenFile::one_way(Target::Input, true))?;
    opens.push(OpenFile::one_way(Target::Console, false))?;
    Ok(opens)
}

impl FileSystem {
    /// The files with these names and contents, the input at descriptor 0 and the console at 1 and 2. How many bytes the console takes
    /// goes by whether the later calls are in the table.
    pub fn make(
        alloc: Global,
        polls: bool,
        input: &Vec<u8>,
        files: &Vec<(Vec<u8>, Vec<u8>)>,
    ) -> Result<FileSystem, AllocError>
        ensures state { IfOk result (λ made. made.state ≡ first_state polls input.now.items (map inode_from files.now.items)) }
        ensures gone { IfOk result (λ made. made.gone ≡ 0) }
    {
        let input = Vec::from_slice(alloc, input.as_slice())?;
        let files = stored(alloc, files.as_slice())?;
        let opens = first_opens(alloc)?;
        let part = zeros(alloc, MOST_BYTES as usize)?;
        Ok(FileSystem {
            alloc,
            descriptors: first_descriptors(),
            opens,
            files,
            pipes: Vec::new(alloc),
            input,
            taken: 0,
            console: Past::new(alloc),
            limit: console_limit(polls),
            name: Vec::new(alloc),
            part,
        })
    }

    /// Whether the descriptor is open.
    pub fn has(&self, fd: u32) -> bool
        ensures { result ≡ is_open self.now.state fd }
    {
        self.open_of(fd).is_some()
    }

    /// The bytes on the console that weren't let go.
    pub fn console(&self) -> &[u8]
        ensures kept { result.now ≡ drop self.now.gone self.now.state.console }
        ensures inside { self.now.gone + length result.now ≡ length self.now.state.console }
    {
        self.console.kept()
    }

    /// How many bytes are on the console, with those that were let go.
    pub fn printed(&self) -> usize
        ensures { result ≡ length self.now.state.console }
    {
        self.console.len()
    }

    /// No byte of the console is there any more, but all of them count.
    pub fn let_console_go(&mut self)
        ensures state { self.new.state ≡ self.old.state }
        ensures reserved { self.new.reserved ≡ record self.old.reserved { console = self.new.reserved.console } }
        ensures room { self.old.reserved.console ≤ self.new.reserved.console }
        ensures gone { self.new.gone ≡ length self.old.state.console }
    {
        self.console.let_go();
    }
}

// The files of a script, each with its name.
fn stored(alloc: Global, files: &[(Vec<u8>, Vec<u8>)]) -> Result<Vec<MemoryFile>, AllocError>
    ensures { IfOk result (λ made. map inode_of made.items ≡ map inode_from files.now) }
{
    let mut made = Vec::new(alloc);
    for (name, bytes) in files {
        let name = Vec::from_slice(alloc, name.as_slice())?;
        let bytes = Blocks::from_slice(alloc, bytes.as_slice())?;
        made.push(MemoryFile {
            name: Some(name),
            bytes,
        })?;
    }
    Ok(made)
}
