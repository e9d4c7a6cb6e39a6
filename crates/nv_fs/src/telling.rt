// What a descriptor names, as it is told.
ghost use Rattle.std.specs.Prelude.{◌≡◌, ◌≤◌, false};
ghost use Rattle.nv_fs.specs.Told.{opened_as, prints};

use crate::disk::FileSystem;
use crate::open_file::Target;

/// What a descriptor names.
#[derive(Clone, Copy, Debug, PartialEq, Eq)]
pub enum Opened {
    /// Nothing.
    Closed,
    Input,
    Console,
    /// A file in memory: where the next byte is read or written, and how many bytes it has.
    File { offset: u64, size: u64 },
    /// An end of a pipe.
    PipeRead,
    PipeWrite,
}

#[tactic(auto, unfolding(crate::specs::Told::opened_as, crate::specs::Told::prints))]
impl FileSystem {
    /// What the descriptor names.
    pub fn opened(&self, fd: u32) -> Opened
        ensures { result ≡ opened_as self.now.state fd }
    {
        let Some((_, description)) = self.open_of(fd) else {
            return Opened::Closed;
        };
        match description.target {
            Target::Input => Opened::Input,
            Target::Console => Opened::Console,
            Target::File(i) => Opened::File {
                offset: description.offset as u64,
                size: self.size_of(i) as u64,
            },
            Target::Reader(_) => Opened::PipeRead,
            Target::Writer(_) => Opened::PipeWrite,
        }
    }

    /// Whether what is written to the descriptor goes to the console.
    pub fn prints(&self, fd: u32) -> bool
        ensures is { result ≡ prints self.now.state fd }
        ensures below { 64 ≤ fd → result ≡ false }
    {
        let Some((_, description)) = self.open_of(fd) else {
            return false;
        };
        match description.target {
            Target::Console => true,
            Target::Input | Target::File(_) | Target::Reader(_) | Target::Writer(_) => false,
        }
    }
}
