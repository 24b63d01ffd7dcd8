//! Sessions, as they are called.

use std::fmt::{self, Display, Formatter, Write};

/// A session by its number, of which 0 is the setup part.
#[derive(Clone, Copy, Debug, PartialEq, Eq)]
pub struct SessionName(pub u8);

impl Display for SessionName {
    fn fmt<W: Write>(&self, f: &mut Formatter<W>) -> fmt::Result {
        match self.0 {
            0 => write!(f, "the setup part"),
            number => write!(f, "session {number}"),
        }
    }
}
