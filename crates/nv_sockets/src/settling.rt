// What was written to a connection, and how it is let go.
ghost use Rattle.std.specs.Prelude.{◌≡◌, ◌≢◌, ◌+◌, ◌≤◌, ℕ, true, false, length, drop, slice_index, slice_set};
ghost use Rattle.nv_sockets.specs.Sockets.{is_going, link_output};
ghost use Rattle.nv_sockets.specs.Reserved.{is_there};
ghost use Rattle.nv_sockets.specs.Changes.{IsAt};

use crate::sockets::Sockets;

impl Sockets {
    /// What was written to a connection since it was let go.
    pub fn written_to(&self, i: usize) -> &[u8]
        ensures is { result.now ≡ drop (slice_index self.now.held.gone i) (link_output self.now.net i) }
        ensures inside { slice_index self.now.held.gone i + length result.now ≡ length (link_output self.now.net i) }
    {
        match self.place(i) {
            Some(p) => self.connection(p, i).output.kept(),
            None => &[],
        }
    }

    /// How many bytes were written to a connection that is there, as each is that the guests haven't closed.
    pub fn written_len(&self, i: usize) -> usize
        ensures there { is_there self.now.held.there i ≡ true → result ≡ length (link_output self.now.net i) }
        ensures going { is_going self.now.net i ≡ true → result ≡ length (link_output self.now.net i) }
    {
        match self.place(i) {
            Some(p) => self.connection(p, i).output.len(),
            None => 0,
        }
    }

    // What was written to the connection at a place is let go.
    fn let_go_of(&mut self, p: usize, i: usize)
        requires { IsAt self.old p i }
        ensures net { self.new.net ≡ self.old.net }
        ensures there { self.new.held.there ≡ self.old.held.there }
        ensures gone { self.new.held.gone ≡ slice_set self.old.held.gone i (length (link_output self.old.net i)) }
        ensures promised { self.new.promised ≡ self.old.promised }
        ensures places { self.new.places ≡ self.old.places }
        ensures waits { self.new.waits ≡ self.old.waits }
        ensures at { IsAt self.new p i }
        ensures all { slice_index self.new.held.gone i ≡ length (link_output self.new.net i) }
    {
        let mut one = self.lift(p, i);
        one.output.let_go();
        self.lay(p, i, one);
    }

    // The connection at a place, which is closed and of which nothing is left, isn't there any more.
    fn drop_closed(&mut self, p: usize, i: usize)
        requires at { IsAt self.old p i }
        requires closed { is_going self.old.net i ≡ false }
        requires all { slice_index self.old.held.gone i ≡ length (link_output self.old.net i) }
        ensures net { self.new.net ≡ self.old.net }
        ensures gone { self.new.held.gone ≡ self.old.held.gone }
        ensures dropped { is_there self.new.held.there i ≡ false }
        ensures rest { (j : ℕ) → j ≢ i → is_there self.new.held.there j ≡ is_there self.old.held.there j }
        ensures promised { self.new.promised ≡ self.old.promised }
        ensures places { self.old.places ≤ self.new.places }
        ensures waits { self.new.waits ≡ self.old.waits }
    {
        let _ = self.connections.numbers();
        self.connections.let_go(p);
    }

    /// What was written to a connection is let go, and the connection itself where it is closed.
    pub fn settle(&mut self, i: usize)
        ensures net { self.new.net ≡ self.old.net }
        ensures gone { self.new.held.gone ≡ slice_set self.old.held.gone i (length (link_output self.old.net i)) }
        ensures there { is_going self.old.net i ≡ true → self.new.held.there ≡ self.old.held.there }
        ensures dropped { is_going self.old.net i ≡ false → is_there self.new.held.there i ≡ false }
        ensures rest { (j : ℕ) → j ≢ i → is_there self.new.held.there j ≡ is_there self.old.held.there j }
        ensures promised { self.new.promised ≡ self.old.promised }
        ensures places { self.old.places ≤ self.new.places }
        ensures waits { self.new.waits ≡ self.old.waits }
    {
        let Some(p) = self.place(i) else {
            return;
        };
        self.let_go_of(p, i);
        if !self.is_going(i) {
            self.drop_closed(p, i);
        }
    }
}
