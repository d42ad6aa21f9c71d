// A walk over the records of a dossier.
use dossier::{Decision, Refusal, WIDTH};
use marks::Walk;

// What the walk answers this record, which it takes.
pub(crate) fn answer(walk: &mut Walk, record: &[u8]) -> Result<Decision, Refusal> {
    let stepped = walk.step(record);
    *walk = stepped.walk;
    stepped.answer
}

// What a fresh walk answers the last of these records, if there is one.
pub(crate) fn last_answer(d: &[u8]) -> Option<Result<Decision, Refusal>> {
    let mut walk = Walk::fresh();
    let mut last = None;
    for record in d.chunks_exact(WIDTH) {
        last = Some(answer(&mut walk, record));
    }
    last
}
