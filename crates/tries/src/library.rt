// The library, held to what this program found by itself. The two share nothing but the bytes.

use crate::answers::{Combining, Effect, Mark, Trial, Wrong};
use dossier::{Decision, Refusal, WIDTH};
use least::{Report, Verdict};

// The records that a dossier has room for; those past its end are there to be left alone.
const ROOM: usize = 8;

// What the bytes hold that say nothing here.
const FILLING: u8 = 170;

// The records of a dossier with these marks; a key begins with its element's position.
fn records<const N: usize>(trial: &Trial<N>, marks: &[Mark; N]) -> [[u8; WIDTH]; ROOM] {
    let mut records = [[FILLING; WIDTH]; ROOM];
    for i in 0..N {
        records[i] = [
            trial.tree.depths[i],
            trial.decisions[i] as u8,
            marks[i] as u8,
            0,
            i as u8,
            FILLING,
            FILLING,
            FILLING,
        ];
    }
    records
}

// The folder for this combining, which has one of its own for first applicable.
fn fold(combining: Combining, d: &mut [u8]) -> Result<usize, Refusal> {
    match combining {
        Combining::FirstApplicable => least::fold(d),
        _ => least::fold_for(d, combining as usize),
    }
}

// Whether the folder turns a dossier whose marks are all others into one with these byte for byte, and replies with this count.
pub(crate) fn folds_so<const N: usize>(trial: &Trial<N>, marks: &[Mark; N], count: usize) -> bool {
    let mut found = records(trial, &marks.map(|mark| mark.other()));
    let reply = fold(trial.combining, found[..N].as_flattened_mut());
    reply == Ok(count) && found == records(trial, marks)
}

// The judge for this combining, which has one of its own for first applicable.
fn judge(combining: Combining, d: &[u8]) -> Result<Report, Refusal> {
    match combining {
        Combining::FirstApplicable => least::judge(d),
        _ => least::judge_for(d, combining as usize),
    }
}

// The effect that a decision of the library's stands for.
fn effect_of(decision: Decision) -> Option<Effect> {
    match decision {
        Decision::Deny => Some(Effect::Deny),
        Decision::Permit => Some(Effect::Permit),
        Decision::None => None,
    }
}

// Whether a verdict says what is so of a marking with this count, of which `wrong` was found, where `least` is the least count.
fn is_so(verdict: Verdict, count: usize, wrong: Option<Wrong>, least: usize) -> bool {
    match (verdict, wrong) {
        (Verdict::Least, None) => count == least,
        (Verdict::Longer(excess), None) => least < count && excess == count - least,
        (Verdict::Wrong(position, answer), Some(wrong)) => {
            let answer = effect_of(answer);
            wrong == Wrong { position, answer }
        }
        _ => false,
    }
}

// Whether the judge reports on these marks what is so of them.
pub(crate) fn judges_so<const N: usize>(trial: &Trial<N>, marks: &[Mark; N], least: usize) -> bool {
    let count = trial.count(marks);
    let wrong = trial.first_wrong(marks);
    judge(trial.combining, records(trial, marks)[..N].as_flattened()).is_ok_and(|report| {
        report.count == count && is_so(report.verdict, count, wrong, least)
    })
}
