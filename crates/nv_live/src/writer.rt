// A sink that is written up to its first failed write.
ghost use Rattle.std.specs.Prelude.{◌≡◌, IsOk, IsErr};
ghost use Rattle.nv_live.specs.Writer.{sink_in, put_of, WritesOn};

use nv_outside::{Put, Sink, put_all};

/// A sink, which is written up to its first failed write.
#[derive(Drop)]
pub struct Writer<S> {
    sink: S,
    put: Put,
}

impl<S: Sink> Writer<S> {
    pub fn make(sink: S) -> Writer<S>
        ensures sink { sink_in result ≡ sink }
        ensures put { IsOk (put_of result) }
    {
        Writer { sink, put: Ok(()) }
    }

    pub fn put(&self) -> Put
        ensures { result ≡ put_of self.now }
    {
        self.put
    }

    pub fn sink(&self) -> &S
        ensures { result.now ≡ sink_in self.now }
    {
        &self.sink
    }

    pub fn finish(self) -> S
        ensures { result ≡ sink_in self }
    {
        let Writer { sink, put: _ } = self;
        sink
    }

    /// Writes one more text, unless a write has failed.
    pub fn write(&mut self, text: &[u8])
        ensures text { WritesOn S.told S.faults self.old self.new text.now }
        ensures stays { IsErr (put_of self.old) → IsErr (put_of self.new) }
    {
        if self.put.is_ok() {
            self.put = put_all(&mut self.sink, text);
        }
    }
}
