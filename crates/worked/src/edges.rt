// The edges of the refusal table: lengths, depths, which fault of a record is told, and the limits of a walk.
use crate::shown::{Elements, Outcome};
use crate::{making, walking};
use anyhow::{Context, Result};
use dossier::{Decision, WIDTH};

// Records with several faults: 5 is told before 4 and 6, and 4 before 6.
const FAULTS: [(&str, &[[u8; WIDTH]]); 4] = [
    ("byte 3 of 4 first", &[[0, 0, 0, 4, 0, 0, 0, 0]]),
    ("byte 3 of 1 first", &[[0, 0, 0, 1, 0, 0, 0, 0]]),
    (
        "depth 1030 with mark 9 after depth 0",
        &[[0, 0, 0, 0, 0, 0, 0, 0], [6, 0, 9, 4, 0, 0, 0, 0]],
    ),
    (
        "depth 5 with decision 2 after depths 0 and 1",
        &[
            [0, 0, 0, 0, 0, 0, 0, 0],
            [1, 0, 0, 0, 0, 0, 0, 0],
            [5, 2, 0, 0, 0, 0, 0, 0],
        ],
    ),
];

// The depths to which chains go: past 63, which was the deepest before byte 3 was part of a depth, down to the deepest, and one too deep.
const CHAINS: [u16; 3] = [64, 1023, 1024];

// What the reader says of bytes.
fn read(d: &[u8]) -> Outcome<Elements> {
    Outcome(dossier::read(d).map(Elements))
}

// What a walk answers the last of these records.
fn last_answer(d: &[u8]) -> Result<Outcome<Decision>> {
    let last = walking::last_answer(d);
    Ok(Outcome(last.context("a walk over no records")?))
}

// A chain, cut and then read and walked. A call of its own, as the other that has a large area, so that no two of these lie on the stack at once.
#[inline(never)]
fn say_chains(rt: &impl Print) -> Result<()> {
    let mut d = [0; 8200];
    making::put_chain(&mut d);
    for deepest in CHAINS {
        let chain = making::front(&d, (usize::from(deepest) + 1) * WIDTH);
        println!(rt; "depths 0 to {deepest}: {}", read(chain))?;
    }
    for deepest in CHAINS {
        let chain = making::front(&d, (usize::from(deepest) + 1) * WIDTH);
        println!(rt;
            "depths 0 to {deepest}, walked, the last: {}",
            last_answer(chain)?
        )?;
    }
    Ok(())
}

// A root and children, cut at these lengths and read; then as many records as a walk takes, and one more.
#[inline(never)]
fn say_lengths(rt: &impl Print) -> Result<()> {
    let mut d = [0; 32776];
    making::put_flat(&mut d);
    for bytes in [32768, 32776, 32775, 7, 0] {
        println!(rt; "{bytes} bytes: {}", read(making::front(&d, bytes)))?;
    }
    for records in [4096u16, 4097] {
        println!(rt;
            "{records} records, walked, the last: {}",
            last_answer(making::front(&d, usize::from(records) * WIDTH))?
        )?;
    }
    Ok(())
}

// What the reader and the walk say at their edges.
pub(crate) fn say_edges(rt: &impl Print) -> Result<()> {
    for line in ["0:0 2:0", "0:0 0:0"] {
        println!(rt; "{line}: {}", read(&making::elements(line)?))?;
    }
    say_chains(rt)?;
    say_lengths(rt)?;
    for (name, records) in FAULTS {
        println!(rt; "{name}: {}", read(records.as_flattened()))?;
    }
    Ok(())
}
