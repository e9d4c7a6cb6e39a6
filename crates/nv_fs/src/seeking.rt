// _llseek.
ghost use Rattle.std.specs.Prelude.{◌≡◌, ◌≤◌, ◌<◌, ◌+◌, ◌*◌, length};
ghost use Rattle.nv_calls.specs.Answer.{answer};
ghost use Rattle.nv_fs.specs.Seeks.{seek_of, base_of, plus_signed, seek_from, SumIs};

use crate::disk::FileSystem;
use crate::open_file::{OpenFile, Target};
use crate::parts::refuse;
use nv_calls::Bytes;
use nv_calls::errors::{EBADF, EINVAL, ESPIPE};

const SIGN: u64 = 1 << 63;

const MOST_OFFSET: usize = 0x7fff_ffff;

// Adds a number of 64 bits in two's complement; a sum past the last number stays there.
fn plus_signed(base: usize, number: u64) -> Option<usize>
    ensures { SumIs result (plus_signed base number) }
{
    if number < SIGN {
        return Some(base.saturating_add(number as usize));
    }
    let back = (u64::MAX - number) as usize + 1;
    if base < back { None } else { Some(base - back) }
}

#[tactic(auto, unfolding(crate::specs::Seeks::seek_of, crate::specs::States::install))]
impl FileSystem {
    fn base_of(&self, description: OpenFile, i: usize, whence: u32) -> Option<usize>
        ensures { result ≡ base_of self.now.state description i whence }
    {
        match whence {
            0 => Some(0),
            1 => Some(description.offset),
            2 => Some(self.size_of(i)),
            _ => None,
        }
    }

    fn seek_file(
        &mut self,
        number: usize,
        description: OpenFile,
        base: Option<usize>,
        n: u64,
        out: &mut Bytes,
    ) -> i32
        requires number { number < length self.old.state.opens }
        requires capacity { 8 ≤ out.old.capacity }
        ensures answer { seek_from self.old.state number description base n ≡ answer self.new.state result out.new.bytes }
        ensures capacity { out.new.capacity ≡ out.old.capacity }
        ensures gone { self.new.gone ≡ self.old.gone }
    {
        let Some(base) = base else {
            return refuse(out, EINVAL);
        };
        let Some(offset) = plus_signed(base, n) else {
            return refuse(out, EINVAL);
        };
        if offset > MOST_OFFSET {
            return refuse(out, EINVAL);
        }
        self.move_to(number, description, offset);
        out.set(&(offset as u64).to_le_bytes());
        0
    }

    /// _llseek(2). The new offset is handed out in 8 bytes.
    pub fn seek(&mut self, fd: u32, high: u32, low: u32, whence: u32, out: &mut Bytes) -> i32
        requires { 8 ≤ out.old.capacity }
        ensures answer { seek_of self.old.state fd high low whence ≡ answer self.new.state result out.new.bytes }
        ensures capacity { out.new.capacity ≡ out.old.capacity }
        ensures gone { self.new.gone ≡ self.old.gone }
    {
        let Some((number, description)) = self.open_of(fd) else {
            return refuse(out, EBADF);
        };
        let Target::File(i) = description.target else {
            return refuse(out, ESPIPE);
        };
        let base = self.base_of(description, i, whence);
        let n = u64::from(high) * 0x1_0000_0000 + u64::from(low);
        self.seek_file(number, description, base, n, out)
    }
}
