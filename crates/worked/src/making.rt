// Dossiers, made from what is written of them on paper. All lie in arrays, so that none asks for memory.
use arrayvec::ArrayVec;
use dossier::{Effect, Mark, WIDTH};
use std::io;

// A record with the mark n, from its depth, its set decision and its key.
fn record(depth: u16, decision: Effect, key: u32) -> [u8; WIDTH] {
    let [low, high] = depth.to_le_bytes();
    let [a, b, c, d] = key.to_le_bytes();
    [low, u8::from(decision), u8::from(Mark::N), high, a, b, c, d]
}

// The depth and the set decision of an element that is written as in `2:0`.
fn element(written: &str) -> Option<(u16, Effect)> {
    let (depth, decision) = written.split_once(':')?;
    let decision = match decision {
        "0" => Effect::Deny,
        "1" => Effect::Permit,
        _ => return None,
    };
    Some((depth.parse().ok()?, decision))
}

// The elements of a line such as `0:0 1:1 2:0`, with the mark n and the keys 10, 20 and so on. A line has at most eight.
pub(crate) fn elements(line: &str) -> io::Result<ArrayVec<u8, 64>> {
    let mut d = ArrayVec::new();
    for (written, key) in line.split(' ').zip((10..).step_by(10)) {
        let (depth, decision) = element(written).ok_or(io::ErrorKind::InvalidInput)?;
        if d.try_extend_from_slice(&record(depth, decision, key))
            .is_err()
        {
            return Err(io::ErrorKind::InvalidInput.into());
        }
    }
    Ok(d)
}

// The first n of these bytes, or all of them.
pub(crate) fn front(s: &[u8], n: usize) -> &[u8] {
    s.get(..n).unwrap_or(s)
}

// The mark that is written so, if one is.
fn mark(written: char) -> Option<Mark> {
    match written {
        'n' => Some(Mark::N),
        '-' => Some(Mark::Minus),
        '+' => Some(Mark::Plus),
        '±' => Some(Mark::PlusMinus),
        _ => None,
    }
}

// Writes the marks of a line such as `+ - n`.
pub(crate) fn put_marks(d: &mut [u8], line: &str) {
    let (records, _) = d.as_chunks_mut::<WIDTH>();
    for (record, mark) in records.iter_mut().zip(line.chars().filter_map(mark)) {
        record[2] = u8::from(mark);
    }
}

// A root and children below it, to the end of an area of noughts: all bytes stay 0 but each child's byte 0, its depth, which is 1.
pub(crate) fn put_flat(d: &mut [u8]) {
    for child in d.chunks_exact_mut(WIDTH).skip(1) {
        child[0] = 1;
    }
}

// Elements each below the one before it, to the end of the area.
pub(crate) fn put_chain(d: &mut [u8]) {
    for (place, depth) in d.chunks_exact_mut(WIDTH).zip(0..) {
        place.copy_from_slice(&record(depth, Effect::Deny, 0));
    }
}
