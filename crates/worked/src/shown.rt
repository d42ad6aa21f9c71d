// What is printed, in words: each of these is written as the lines show it.
use dossier::{Effect, Mark, Refusal, WIDTH};
use rules::{Combining, Reach};
use std::fmt;

// What came of a call: its value, or the refusal.
#[derive(Drop)]
pub(crate) struct Outcome<T>(pub(crate) Result<T, Refusal>);

impl<T: fmt::Display> fmt::Display for Outcome<T> {
    fn fmt<W: fmt::Write>(&self, f: &mut fmt::Formatter<W>) -> fmt::Result {
        match &self.0 {
            Ok(value) => write!(f, "{value}"),
            Err(refusal) => write!(f, "{refusal}"),
        }
    }
}

// The combining number of a call to the folder or the judge, after a comma: any, since what is refused is shown too. Nothing where
// none is said, and then it is first applicable.
#[derive(Clone, Copy)]
pub(crate) struct Said(pub(crate) Option<usize>);

impl fmt::Display for Said {
    fn fmt<W: fmt::Write>(&self, f: &mut fmt::Formatter<W>) -> fmt::Result {
        let Some(number) = self.0 else {
            return Ok(());
        };
        match Combining::try_from(number) {
            Ok(Combining::FirstApplicable) => f.write_str(", first applicable"),
            Ok(Combining::DenyOverrides) => f.write_str(", deny overrides"),
            Ok(Combining::PermitOverrides) => f.write_str(", permit overrides"),
            Err(_) => write!(f, ", combining {number}"),
        }
    }
}

// How many elements the reader counts.
#[derive(Clone, Copy)]
pub(crate) struct Elements(pub(crate) usize);

impl fmt::Display for Elements {
    fn fmt<W: fmt::Write>(&self, f: &mut fmt::Formatter<W>) -> fmt::Result {
        write!(f, "{} elements", self.0)
    }
}

// The marks of a dossier, each after a space.
#[derive(Clone, Copy)]
pub(crate) struct Marks<'a>(pub(crate) &'a [u8]);

impl fmt::Display for Marks<'_> {
    fn fmt<W: fmt::Write>(&self, f: &mut fmt::Formatter<W>) -> fmt::Result {
        let (records, _) = self.0.as_chunks::<WIDTH>();
        for record in records {
            f.write_str(match Mark::from(record[2]) {
                Mark::N => " n",
                Mark::Minus => " -",
                Mark::Plus => " +",
                Mark::PlusMinus => " ±",
            })?;
        }
        Ok(())
    }
}

// A rule by its bytes: its target, its effect and its reach, where there are any.
#[derive(Clone, Copy)]
pub(crate) struct Rule<'a>(pub(crate) &'a [u8]);

impl fmt::Display for Rule<'_> {
    fn fmt<W: fmt::Write>(&self, f: &mut fmt::Formatter<W>) -> fmt::Result {
        let [low, high, effect, reach, ..] = self.0 else {
            return f.write_str("no rule");
        };
        let target = u16::from_le_bytes([*low, *high]);
        let effect = match Effect::from(*effect) {
            Effect::Deny => "deny",
            Effect::Permit => "permit",
        };
        let reach = match Reach::from(*reach) {
            Reach::Itself => "self",
            Reach::All => "all",
        };
        write!(f, "{target} {effect} {reach}")
    }
}

// Two lists over case B, a rule in each.
#[derive(Clone, Copy)]
pub(crate) struct Lists<'a> {
    pub(crate) house: Rule<'a>,
    pub(crate) recipient: Rule<'a>,
}

impl fmt::Display for Lists<'_> {
    fn fmt<W: fmt::Write>(&self, f: &mut fmt::Formatter<W>) -> fmt::Result {
        write!(f, "B, house {}, recipient {}", self.house, self.recipient)
    }
}

// The rules of a list, each after a comma.
#[derive(Clone, Copy)]
pub(crate) struct Rules<'a>(pub(crate) &'a [u8]);

impl fmt::Display for Rules<'_> {
    fn fmt<W: fmt::Write>(&self, f: &mut fmt::Formatter<W>) -> fmt::Result {
        for rule in self.0.chunks_exact(WIDTH) {
            write!(f, ", {}", Rule(rule))?;
        }
        Ok(())
    }
}
