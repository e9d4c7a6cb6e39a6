// A label of a rule text.

/// Where a label is first defined.
#[derive(Clone, Copy, Debug, PartialEq, Eq)]
pub struct Label {
    /// How many lines are before its line.
    pub line: usize,
    /// How many instructions are before it.
    pub place: usize,
}
