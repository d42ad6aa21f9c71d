// What numbers stand for in a rule and in a request: how far a rule reaches, and how a gateway combines the rules that apply.
// Document 01, "Records" and "How a decision comes about".
ghost use Rattle.std.specs.Prelude.{◌≡◌};
ghost use Rattle.rules.specs.Rules.{reach_number, reach_of};
ghost use Rattle.rules.specs.Deciding.{combining_asked};

use dossier::Refusal;

// A rule reaches its target alone, or its target and everything below it.
#[derive(Clone, Copy, Debug, PartialEq, Eq)]
pub enum Reach {
    Itself,
    All,
}

// How a gateway combines the rules that apply.
#[derive(Clone, Copy, Debug, PartialEq, Eq)]
pub enum Combining {
    FirstApplicable,
    DenyOverrides,
    PermitOverrides,
}

// The last combining number: 0 is first applicable, 1 deny overrides, 2 permit overrides.
pub const LAST_COMBINING: usize = Combining::PermitOverrides as usize;

// What a byte stands for. One past the last number stands for the last: the reader refuses it in a rule.
impl From<u8> for Reach {
    ghost from_gives = { λ number reach. reach ≡ reach_of number };

    fn from(number: u8) -> Reach {
        match number {
            0 => Reach::Itself,
            _ => Reach::All,
        }
    }
}

// And the number that it has.
impl From<Reach> for u8 {
    ghost from_gives = { λ reach number. number ≡ reach_number reach };

    fn from(reach: Reach) -> u8 {
        reach as u8
    }
}

// What a number asks for; one over the last is refused by 11.
impl TryFrom<usize> for Combining {
    type Error = Refusal;

    ghost try_from_gives = { λ number reply. reply ≡ combining_asked number };

    fn try_from(number: usize) -> Result<Combining, Refusal> {
        match number {
            0 => Ok(Combining::FirstApplicable),
            1 => Ok(Combining::DenyOverrides),
            2 => Ok(Combining::PermitOverrides),
            _ => dossier::refused(11, 0, 0),
        }
    }
}
