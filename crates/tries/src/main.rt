// The independent second program. For every dossier of up to seven elements, six where any deny or any permit wins, it tries all
// markings by the definition alone (list the rules, decide every element by those that apply, count), finds the least count and
// the first least marking, and holds the library's folder and judge to them. It shares nothing with the library but the layout
// of the bytes.
#![tactic(auto)]

mod answers;
mod library;
mod tree;
mod turns;

ghost use Rattle.std.specs.Prelude.{◌≤◌};

use answers::{Combining, Mark, Trial};
use std::{fmt, io};
use tree::Tree;

// The most elements of a dossier that is tried for first applicable; for the other combinings it is one fewer.
// A size is a parameter of the types, which have no clause of their own, so the functions that count with it ask for `N ≤ SIZE`.
const SIZE: usize = 7;

// Of dossiers of that size every 61st marking is judged, counted on from one dossier to the next: an odd number, so that
// every mark comes up at every element.
const STRIDE: u64 = 61;

// The least count of a dossier, and the first right marking that has it.
#[derive(Clone, Copy)]
struct Best<const N: usize> {
    count: usize,
    marks: [Mark; N],
}

// What was tried of one size. The sums stay far below where they would saturate.
#[derive(Clone, Copy, Default)]
struct Tally {
    dossiers: u64,
    counts: u64,
    folded_otherwise: u64,
    markings: u64,
    judged: u64,
    judged_otherwise: u64,
}

impl Tally {
    // Notes one dossier more, with its least count, and whether it was folded as it should be.
    fn note_folded(&mut self, count: usize, is_so: bool) {
        self.dossiers = self.dossiers.saturating_add(1);
        self.counts = self.counts.saturating_add(count as u64);
        self.folded_otherwise = self.folded_otherwise.saturating_add(u64::from(!is_so));
    }

    // Notes one marking more that was judged, and whether as it should be.
    fn note_judged(&mut self, is_so: bool) {
        self.judged = self.judged.saturating_add(1);
        self.judged_otherwise = self.judged_otherwise.saturating_add(u64::from(!is_so));
    }
}

impl fmt::Display for Tally {
    fn fmt<W: fmt::Write>(&self, f: &mut fmt::Formatter<W>) -> fmt::Result {
        write!(
            f,
            "{} dossiers, least counts together {}, folded otherwise {}; {} markings judged, otherwise {}",
            self.dossiers, self.counts, self.folded_otherwise, self.judged, self.judged_otherwise
        )
    }
}

// Goes through every marking in their order, and decides the elements of each that lists fewer rules than the best so far: one that
// lists as many or more can be neither less nor the first of the least.
fn best_of<const N: usize>(trial: &Trial<N>) -> Option<Best<N>> {
    let mut best: Option<Best<N>> = None;
    for number in 0..1 << (2 * N) {
        let marks = trial.tree.marking(number);
        let count = trial.count(&marks);
        let is_less = best.as_ref().is_none_or(|best| count < best.count);
        if is_less && trial.first_wrong(&marks).is_none() {
            best = Some(Best { count, marks });
        }
    }
    best
}

// Whether the marking of this number among all is judged.
fn is_due<const N: usize>(number: u64) -> bool {
    N < SIZE || number % STRIDE == 0
}

// Holds the judge to the markings of a dossier.
fn judge_all<const N: usize>(trial: &Trial<N>, least: usize, tally: &mut Tally) {
    for number in 0..1 << (2 * N) {
        if is_due::<N>(tally.markings) {
            tally.note_judged(library::judges_so(trial, &trial.tree.marking(number), least));
        }
        tally.markings = tally.markings.saturating_add(1);
    }
}

// Holds the folder and the judge to a dossier. A best marking is always found, since `-` everywhere is right.
fn try_dossier<const N: usize>(trial: &Trial<N>, tally: &mut Tally) {
    if let Some(best) = best_of(trial) {
        let is_so = library::folds_so(trial, &best.marks, best.count)
            && library::judges_so(trial, &best.marks, best.count);
        tally.note_folded(best.count, is_so);
        judge_all(trial, best.count, tally);
    }
}

// Every choice of decisions over one tree.
fn try_tree<const N: usize>(combining: Combining, tree: Tree<N>, tally: &mut Tally) {
    for number in 0..1 << N {
        let decisions = tree.decisions(number);
        let trial = Trial {
            combining,
            tree,
            decisions,
        };
        try_dossier(&trial, tally);
    }
}

// Every tree of N elements.
fn try_size<const N: usize>(combining: Combining) -> Tally
    requires { N ≤ SIZE }
{
    let mut tally = Tally::default();
    for number in 0..1 << (3 * N) {
        if let Some(tree) = Tree::<N>::numbered(number) {
            try_tree(combining, tree, &mut tally);
        }
    }
    tally
}

// One line: what was tried of this size. One that can't be written is passed over.
fn say(rt: &impl Print, combining: Combining, size: usize, tally: Tally) {
    let heading = match combining {
        Combining::FirstApplicable => "",
        Combining::DenyOverrides => "deny overrides, ",
        Combining::PermitOverrides => "permit overrides, ",
    };
    let _ = println!(rt; "{heading}{size} elements: {tally}");
}

// Every combining, and of each every size up to the most: a size is a parameter of the types, so that each is named.
fn main(rt: HostRuntime) {
    for combining in [
        Combining::FirstApplicable,
        Combining::DenyOverrides,
        Combining::PermitOverrides,
    ] {
        say(&rt, combining, 1, try_size::<1>(combining));
        say(&rt, combining, 2, try_size::<2>(combining));
        say(&rt, combining, 3, try_size::<3>(combining));
        say(&rt, combining, 4, try_size::<4>(combining));
        say(&rt, combining, 5, try_size::<5>(combining));
        say(&rt, combining, 6, try_size::<6>(combining));
        if combining == Combining::FirstApplicable {
            say(&rt, combining, SIZE, try_size::<SIZE>(combining));
        }
    }
}
