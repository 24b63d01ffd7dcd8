//! What the program tells of how it ended.

use crate::top::Ended;
use std::fmt;

const USAGE: &str =
    "usage: qcache run [--size N] [--limit N] [--unit N] [--type N] or qcache workload N";

/// The line that the program writes to the standard error, without its end: the usage at status 1, the refusal with its line at 2, and the fault, or that
/// memory was wanting, at 3 to 5. Nothing at 0.
impl fmt::Display for Ended {
    fn fmt<W: fmt::Write>(&self, f: &mut fmt::Formatter<W>) -> fmt::Result {
        match (self.status, &self.bad) {
            (1, _) => write!(f, "{USAGE}"),
            (2, Some(refusal)) => write!(f, "{refusal}"),
            (3, _) => write!(f, "read fault"),
            (4, _) => write!(f, "write fault"),
            (5, _) => write!(f, "no memory"),
            _ => Ok(()),
        }
    }
}
