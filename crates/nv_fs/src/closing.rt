// close, dup and dup3.
ghost use Rattle.std.specs.Prelude.{◌≡◌, []};
ghost use Rattle.nv_calls.specs.Answer.{answer};
ghost use Rattle.nv_fs.specs.Closes.{close_of, dup_of, dup3_of};

use crate::disk::{DESCRIPTORS, FileSystem};
use nv_calls::errors::{EBADF, EINVAL, EMFILE};

/// A flag that changes nothing here.
pub const O_CLOEXEC: u32 = 0x80000;

#[tactic(auto, unfolding(crate::specs::Closes::close_of, crate::specs::Closes::dup_of, crate::specs::Closes::dup3_of))]
impl FileSystem {
    /// close(2).
    pub fn close(&mut self, fd: u32) -> i32
        ensures answer { close_of self.old.state fd ≡ answer self.new.state result [] }
        ensures gone { self.new.gone ≡ self.old.gone }
    {
        if self.open_of(fd).is_none() {
            return EBADF;
        }
        self.name_at(fd as usize, None);
        0
    }

    /// dup(2).
    pub fn dup(&mut self, fd: u32) -> i32
        ensures answer { dup_of self.old.state fd ≡ answer self.new.state result [] }
        ensures gone { self.new.gone ≡ self.old.gone }
    {
        let Some((number, _)) = self.open_of(fd) else {
            return EBADF;
        };
        let Some(free) = self.free_descriptor() else {
            return EMFILE;
        };
        self.name_at(free, Some(number));
        free as i32
    }

    /// dup3(2).
    pub fn dup3(&mut self, from: u32, to: u32, flags: u32) -> i32
        ensures answer { dup3_of self.old.state from to flags ≡ answer self.new.state result [] }
        ensures gone { self.new.gone ≡ self.old.gone }
    {
        if flags != 0 && flags != O_CLOEXEC {
            return EINVAL;
        }
        if from == to {
            return EINVAL;
        }
        let Some((number, _)) = self.open_of(from) else {
            return EBADF;
        };
        if to as usize >= DESCRIPTORS {
            return EBADF;
        }
        self.name_at(to as usize, Some(number));
        to as i32
    }
}
