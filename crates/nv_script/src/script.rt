// What a script says.
use crate::arrival::Arrival;

/// What a run begins with. The limits that every script is within are `is_script` of specs/Scripts.antt.
#[derive(Drop)]
pub struct Script {
    /// The arguments of each version, after its name.
    pub arguments: Vec<Vec<u8>>,
    /// What stands on descriptor 0.
    pub input: Vec<u8>,
    /// The files, each by its name and its content, in the script's order.
    pub files: Vec<(Vec<u8>, Vec<u8>)>,
    /// The clock at the first call, in seconds.
    pub seconds: u32,
    /// The nanoseconds after these seconds.
    pub nanos: u32,
    /// How many nanoseconds the clock goes on with each logged call.
    pub step: u32,
    /// Where the random numbers begin.
    pub seed: u32,
    /// The lengths of the log at which the leader hands over, in the script's order.
    pub hands: Vec<u32>,
    /// The connections that come, each by the port that it comes to and what it sends, in the script's order.
    pub connections: Vec<(u32, Vec<u8>)>,
    /// What comes one after another, in a script of the fourth form or the fifth.
    pub arrivals: Vec<Arrival>,
    /// The script is of the fifth form: the calls that wait for several things at once are in the table.
    pub polls: bool,
}
