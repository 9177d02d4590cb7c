//! How many of something there are, in words.
use std::fmt;

/// So many of what this word names: `1 device`, `2 devices`.
#[derive(Clone, Copy, Debug, PartialEq, Eq)]
pub struct Count {
    pub count: usize,
    /// The word for one.
    pub what: &'static str,
}

impl fmt::Display for Count {
    fn fmt<W: fmt::Write>(&self, f: &mut fmt::Formatter<W>) -> fmt::Result {
        let end = if self.count == 1 { "" } else { "s" };
        write!(f, "{} {}{end}", self.count, self.what)
    }
}
