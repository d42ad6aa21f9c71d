// How a report and its verdict are printed, in words.
use crate::{Report, Verdict};
use std::fmt;

// A verdict: `least`, `longer by 1`, or `wrong at 2, answer deny`.
impl fmt::Display for Verdict {
    fn fmt<W: fmt::Write>(&self, f: &mut fmt::Formatter<W>) -> fmt::Result {
        match self {
            Verdict::Least => f.write_str("least"),
            Verdict::Longer(excess) => write!(f, "longer by {excess}"),
            Verdict::Wrong(position, answer) => write!(f, "wrong at {position}, answer {answer}"),
        }
    }
}

// A report: the count and the verdict, as in `rules 3, least`.
impl fmt::Display for Report {
    fn fmt<W: fmt::Write>(&self, f: &mut fmt::Formatter<W>) -> fmt::Result {
        write!(f, "rules {}, {}", self.count, self.verdict)
    }
}
