//! The characters of the text of a statement. Sections 3.1 and 3.3 of the standard, ANSI X3.9-1978.
#![tactic(auto)]

/// A character of a text, and whether it stands inside a character constant.
#[derive(Clone, Copy, Debug, PartialEq, Eq)]
pub struct Character {
    pub code: u8,
    pub quoted: bool,
}

/// Where a text has come to.
#[derive(Clone, Copy, Debug, PartialEq, Eq)]
pub enum Standing {
    /// Outside constants, with the number that the digits just before write.
    Outside(Option<u64>),
    /// Inside a constant.
    Inside,
    /// Behind the apostrophe that may end a constant.
    Closed,
    /// Behind blanks after that.
    Parted,
    /// In the text after nH, with the number of its characters that come after the next one.
    Counted(u64),
}
