// Connections.
use crate::inbox::Inbox;
use nv_calls::Past;

/// A connection of a client.
#[derive(Drop)]
pub struct Connection {
    /// The port that it comes to.
    pub port: u32,
    /// What has come over it and isn't read yet, until the guests close it.
    pub inbox: Option<Inbox>,
    /// What was written to it, of which the beginning may have been let go.
    pub output: Past<u8>,
}
