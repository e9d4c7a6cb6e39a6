// What a descriptor from 64 on names.

/// A socket (socket(2)): as it was made; bound to a port; listening at a port; or that of an accepted connection, by its number.
#[derive(Clone, Copy)]
pub enum Socket {
    Fresh,
    Bound(u32),
    Listening(u32),
    Connected(usize),
}
