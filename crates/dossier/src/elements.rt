// What the bytes of an element stand for: its set decision, its mark, and what it is answered. Document 01, "Records".
ghost use Rattle.std.specs.Prelude.{◌≡◌};
ghost use Rattle.dossier.specs.Elements.{effect_number, mark_number, decision_number, effect_of, mark_of, decision_of, is, opposite};

// What an element is set to, and what a rule says.
#[derive(Clone, Copy, Debug, PartialEq, Eq)]
pub enum Effect {
    Deny,
    Permit,
}

// A mark: n, -, + or ±.
#[derive(Clone, Copy, Debug, PartialEq, Eq)]
pub enum Mark {
    N,
    Minus,
    Plus,
    PlusMinus,
}

// What an element is answered, and what comes from above.
#[derive(Clone, Copy, Debug, PartialEq, Eq)]
pub enum Decision {
    Deny,
    Permit,
    None,
}

// What a byte stands for. One past the last number stands for the last: the reader refuses it in a record.
impl From<u8> for Effect {
    ghost from_gives = { λ number effect. effect ≡ effect_of number };

    fn from(number: u8) -> Effect {
        match number {
            0 => Effect::Deny,
            _ => Effect::Permit,
        }
    }
}

impl From<u8> for Mark {
    ghost from_gives = { λ number mark. mark ≡ mark_of number };

    fn from(number: u8) -> Mark {
        match number {
            0 => Mark::N,
            1 => Mark::Minus,
            2 => Mark::Plus,
            _ => Mark::PlusMinus,
        }
    }
}

impl From<u8> for Decision {
    ghost from_gives = { λ number decision. decision ≡ decision_of number };

    fn from(number: u8) -> Decision {
        match number {
            0 => Decision::Deny,
            1 => Decision::Permit,
            _ => Decision::None,
        }
    }
}

// The answer that an effect is.
impl From<Effect> for Decision {
    ghost from_gives = { λ effect decision. decision ≡ is effect };

    fn from(effect: Effect) -> Decision {
        match effect {
            Effect::Deny => Decision::Deny,
            Effect::Permit => Decision::Permit,
        }
    }
}

// And the numbers that they have.
impl From<Effect> for u8 {
    ghost from_gives = { λ effect number. number ≡ effect_number effect };

    fn from(effect: Effect) -> u8 {
        effect as u8
    }
}

impl From<Mark> for u8 {
    ghost from_gives = { λ mark number. number ≡ mark_number mark };

    fn from(mark: Mark) -> u8 {
        mark as u8
    }
}

impl From<Decision> for u8 {
    ghost from_gives = { λ decision number. number ≡ decision_number decision };

    fn from(decision: Decision) -> u8 {
        decision as u8
    }
}

impl Effect {
    // The other effect.
    pub fn opposite(self) -> Effect
        ensures { result ≡ opposite self }
    {
        match self {
            Effect::Deny => Effect::Permit,
            Effect::Permit => Effect::Deny,
        }
    }
}
