// What the calls read of the tables, and how they change them.
ghost use Rattle.std.specs.Prelude.{◌≡◌, ◌+◌, ◌<◌, ◌≤◌, length, is_some, vec_len, vec_capacity};
ghost use Rattle.nv_fs.specs.States.{install, moved_to, file_at, with_at};
ghost use Rattle.nv_fs.specs.Closes.{with_descriptor};
ghost use Rattle.nv_fs.specs.Seeks.{bytes_of};
ghost use Rattle.nv_fs.specs.Fetched.{pipe_at};
ghost use Rattle.nv_fs.specs.Reserved.{HasOpens};

use crate::disk::FileSystem;
use crate::open_file::OpenFile;

fn put_open(opens: &mut Vec<OpenFile>, i: usize, description: OpenFile)
    requires inside { i ≤ vec_len opens.old }
    requires reserved { vec_len opens.old < vec_capacity opens.old }
    ensures items { opens.new.items ≡ with_at opens.old.items i description }
    ensures capacity { vec_capacity opens.old ≤ vec_capacity opens.new }
    ensures len { vec_len opens.new ≤ vec_len opens.old + 1 }
{
    if i < opens.len() {
        opens[i] = description;
        return;
    }
    match opens.push(description) {
        Ok(()) => {}
        Err(_) => unreachable!(),
    }
}

#[tactic(auto, unfolding(crate::specs::Seeks::seek_of, crate::specs::States::install))]
impl FileSystem {
    /// The descriptor names this open file from now on, or none.
    pub(crate) fn name_at(&mut self, fd: usize, number: Option<usize>)
        requires { fd < 64 }
        ensures { self.new ≡ record self.old { state = with_descriptor self.old.state fd number } }
    {
        self.descriptors[fd] = number;
    }

    /// The descriptor names a new open file.
    pub(crate) fn install(&mut self, fd: usize, description: OpenFile)
        requires fd { fd < 64 }
        requires reserved { HasOpens self.old 1 }
        ensures state { self.new.state ≡ install self.old.state fd description }
        ensures reserved { self.old.reserved.opens ≤ self.new.reserved.opens }
        ensures len { length self.new.state.opens ≤ length self.old.state.opens + 1 }
        ensures gone { self.new.gone ≡ self.old.gone }
    {
        let number = self.free_open();
        put_open(&mut self.opens, number, description);
        self.descriptors[fd] = Some(number);
    }

    /// The open file moves its offset.
    pub(crate) fn move_to(&mut self, number: usize, description: OpenFile, offset: usize)
        requires { number < length self.old.state.opens }
        ensures state { self.new.state ≡ moved_to self.old.state number description offset }
        ensures gone { self.new.gone ≡ self.old.gone }
    {
        self.opens[number] = OpenFile {
            offset,
            ..description
        };
    }

    /// Whether the file has a name.
    pub(crate) fn has_name(&self, i: usize) -> bool
        ensures { result ≡ is_some (file_at self.now.state i).name }
    {
        if i < self.files.len() {
            self.files[i].name.is_some()
        } else {
            false
        }
    }

    /// How many bytes a file has.
    pub(crate) fn size_of(&self, i: usize) -> usize
        ensures { result ≡ length (bytes_of self.now.state i) }
    {
        if i < self.files.len() {
            self.files[i].bytes.len()
        } else {
            0
        }
    }

    /// The bytes in a pipe.
    pub(crate) fn buffer(&self, k: usize) -> &[u8]
        ensures { result.now ≡ pipe_at self.now.state k }
    {
        if k < self.pipes.len() {
            self.pipes[k].as_slice()
        } else {
            &[]
        }
    }
}
