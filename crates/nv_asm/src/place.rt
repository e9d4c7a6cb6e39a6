// Places in a program.

/// The instructions, or the data that they work on.
#[derive(Clone, Copy, Debug, PartialEq, Eq)]
pub enum Section {
    Text,
    Data,
}

/// A place in a section, in bytes from its beginning.
#[derive(Clone, Copy, Debug, PartialEq, Eq)]
pub struct Place {
    pub section: Section,
    pub offset: u128,
}

/// Where a label is first defined.
#[derive(Clone, Copy, Debug, PartialEq, Eq)]
pub struct Label {
    /// How many lines are before its line.
    pub line: usize,
    pub place: Place,
}

/// How far a text has come: the section that its next statement is for, and how many bytes each section has.
#[derive(Clone, Copy, Debug, PartialEq, Eq)]
pub struct Reached {
    pub section: Section,
    pub text_len: u128,
    pub data_len: u128,
}
