// What a marking answers, by the definition alone: its rules are listed, and those that apply to an element decide it, as they are combined.
// Its effects, marks and combinings are its own and not the library's, which is what it judges.

ghost use Rattle.std.specs.Prelude.{◌≤◌};

use crate::tree::{Place, Tree};

// What a rule says, and what an element is set to; in the order of their bytes.
#[derive(Clone, Copy, PartialEq, Eq)]
pub(crate) enum Effect {
    Deny,
    Permit,
}

impl Effect {
    // The other effect.
    fn opposite(self) -> Effect {
        match self {
            Effect::Deny => Effect::Permit,
            Effect::Permit => Effect::Deny,
        }
    }
}

// A mark, `n`, `-`, `+` or `±`, by the rules that it sets; in the order of their bytes.
#[derive(Clone, Copy, PartialEq, Eq)]
pub(crate) enum Mark {
    NoRule,
    OnSelf,
    OnAll,
    Both,
}

impl Mark {
    // A mark that differs from this one.
    pub(crate) fn other(self) -> Mark {
        match self {
            Mark::NoRule => Mark::Both,
            Mark::OnSelf => Mark::OnAll,
            Mark::OnAll => Mark::OnSelf,
            Mark::Both => Mark::NoRule,
        }
    }

    // How many rules it sets.
    fn rules(self) -> usize
        ensures { result ≤ 2 }
    {
        match self {
            Mark::NoRule => 0,
            Mark::OnSelf | Mark::OnAll => 1,
            Mark::Both => 2,
        }
    }

    // The effect of the first of its rules, on an element with this decision, that applies to an element at this place.
    fn first_effect(self, decision: Effect, place: Place) -> Option<Effect> {
        match (self, place) {
            (Mark::NoRule, _) | (_, Place::Elsewhere) | (Mark::OnSelf, Place::Below) => None,
            (_, Place::Itself) | (Mark::OnAll, Place::Below) => Some(decision),
            (Mark::Both, Place::Below) => Some(decision.opposite()),
        }
    }

    // Whether one of its rules, on an element with this decision, has this effect and applies to an element at this place. A ± sets two
    // rules: the decision on self, and the opposite on all, which takes in the element itself.
    fn has_effect(self, decision: Effect, place: Place, effect: Effect) -> bool {
        match (self, place) {
            (Mark::NoRule, _) | (_, Place::Elsewhere) | (Mark::OnSelf, Place::Below) => false,
            (Mark::Both, Place::Itself) => true,
            (_, Place::Itself) | (Mark::OnAll, Place::Below) => effect == decision,
            (Mark::Both, Place::Below) => effect != decision,
        }
    }
}

// How the rules that apply to an element are combined; in the order of their numbers.
#[derive(Clone, Copy, PartialEq, Eq)]
pub(crate) enum Combining {
    FirstApplicable,
    DenyOverrides,
    PermitOverrides,
}

// An element that is answered otherwise than it is set, and its answer.
#[derive(Clone, Copy, PartialEq, Eq)]
pub(crate) struct Wrong {
    pub(crate) position: usize,
    pub(crate) answer: Option<Effect>,
}

// A dossier without its marks, and how its rules are combined.
#[derive(Clone, Copy)]
pub(crate) struct Trial<const N: usize> {
    pub(crate) combining: Combining,
    pub(crate) tree: Tree<N>,
    pub(crate) decisions: [Effect; N],
}

impl<const N: usize> Trial<N> {
    // The effect of the first listed rule that applies to the element at these places.
    fn first_effect(&self, marks: &[Mark; N], places: &[Place; N]) -> Option<Effect> {
        self.tree
            .order
            .iter()
            .find_map(|&q| marks[q].first_effect(self.decisions[q], places[q]))
    }

    // Whether any listed rule with this effect applies to the element at these places.
    fn any_has(&self, marks: &[Mark; N], places: &[Place; N], effect: Effect) -> bool {
        (0..N).any(|q| marks[q].has_effect(self.decisions[q], places[q], effect))
    }

    // This effect, where any listed rule that has it applies; else the opposite, where any does.
    fn overriding(&self, marks: &[Mark; N], places: &[Place; N], effect: Effect) -> Option<Effect> {
        [effect, effect.opposite()]
            .into_iter()
            .find(|&one| self.any_has(marks, places, one))
    }

    // What the listed rules answer for the element at these places.
    fn answer(&self, marks: &[Mark; N], places: &[Place; N]) -> Option<Effect> {
        match self.combining {
            Combining::FirstApplicable => self.first_effect(marks, places),
            Combining::DenyOverrides => self.overriding(marks, places, Effect::Deny),
            Combining::PermitOverrides => self.overriding(marks, places, Effect::Permit),
        }
    }

    // The first element that is answered otherwise than it is set.
    pub(crate) fn first_wrong(&self, marks: &[Mark; N]) -> Option<Wrong> {
        for position in 0..N {
            let answer = self.answer(marks, &self.tree.places[position]);
            if answer != Some(self.decisions[position]) {
                return Some(Wrong { position, answer });
            }
        }
        None
    }

    // How many rules a marking lists.
    pub(crate) fn count(&self, marks: &[Mark; N]) -> usize {
        marks.iter().map(|mark| mark.rules()).sum()
    }
}
