// Connections that wait to be accepted.

/// One that waits: the port that it comes to, and its number.
#[derive(Clone, Copy)]
pub struct Waiting {
    pub port: u32,
    pub connection: usize,
}
