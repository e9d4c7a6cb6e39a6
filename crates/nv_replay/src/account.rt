// What a run comes to.
use crate::Version;

/// What a run comes to: the kernel has its log and its output, each version what there is to tell of it.
#[derive(Drop)]
pub struct Account<K> {
    pub kernel: K,
    /// In the order in which they were given.
    pub versions: Vec<Version>,
}
