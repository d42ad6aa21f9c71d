// How a refusal and a decision are printed, in words.
use crate::{Decision, Refusal};
use std::error::Error;
use std::fmt;

// A refusal and its three numbers, as in `refused 4 0 2`.
impl fmt::Display for Refusal {
    fn fmt<W: fmt::Write>(&self, f: &mut fmt::Formatter<W>) -> fmt::Result {
        write!(f, "refused {} {} {}", self.number, self.list, self.position)
    }
}

impl Error for Refusal {}

// What an element is answered.
impl fmt::Display for Decision {
    fn fmt<W: fmt::Write>(&self, f: &mut fmt::Formatter<W>) -> fmt::Result {
        f.write_str(match self {
            Decision::Deny => "deny",
            Decision::Permit => "permit",
            Decision::None => "none",
        })
    }
}
