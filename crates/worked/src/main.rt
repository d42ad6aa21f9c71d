// The cases that were worked by hand, run through the library: a line for each says what was given and what came out.
#![tactic(auto)]

mod edges;
mod lists;
mod making;
mod passing;
mod shown;
mod walking;

use anyhow::Result;
use arrayvec::ArrayVec;
use dossier::{Refusal, WIDTH};
use least::Report;
use marks::Walk;
use passing::PassingOver;
use rules::{Combining, LAST_COMBINING};
use shown::{Marks, Outcome, Rules, Said};

// A case: its name, and its elements as they are written.
#[derive(Clone, Copy)]
struct Case {
    name: &'static str,
    line: &'static str,
}

const A: Case = Case {
    name: "A",
    line: "0:1",
};

const B: Case = Case {
    name: "B",
    line: "0:0 1:1 2:0",
};

const D: Case = Case {
    name: "D",
    line: "0:1 1:0",
};

// The table of cases.
const CASES: [Case; 8] = [
    A,
    B,
    Case {
        name: "C",
        line: "0:1 1:0 2:0 1:1 1:1 1:1",
    },
    D,
    Case {
        name: "E",
        line: "0:1 1:1 2:0 2:0 1:0 1:0",
    },
    Case {
        name: "F",
        line: "0:1 1:0 1:0",
    },
    Case {
        name: "G",
        line: "0:0 1:0 1:1",
    },
    Case {
        name: "H",
        line: "0:0 1:1 2:0 3:1",
    },
];

// The rules for which the area of a list has room.
const ROOM: usize = 8;

// The folder, called for this combining number, which may be one that is refused; with none where none is said.
fn fold(d: &mut [u8], combining: Option<usize>) -> Result<usize, Refusal> {
    match combining {
        None => least::fold(d),
        Some(number) => least::fold_for(d, number),
    }
}

// The judge, called likewise.
fn judge(d: &[u8], combining: Option<usize>) -> Result<Report, Refusal> {
    match combining {
        None => least::judge(d),
        Some(number) => least::judge_for(d, number),
    }
}

// The marks that are read back from a folded dossier's rules, over the elements of its line, and the walk's answers.
fn say_walked(rt: &impl Print, d: &[u8], line: &str, list: &[u8]) -> Result<()> {
    let mut back = making::elements(line)?;
    listing::read_back(&mut back, list)?;
    print!(rt; "; read back{}; walked", Marks(&back))?;
    let mut walk = Walk::fresh();
    for record in d.chunks_exact(WIDTH) {
        print!(rt; " {}", walking::answer(&mut walk, record)?)?;
    }
    Ok(())
}

// What a folded dossier's rules answer each element under this combining, with nothing in the recipient's list, and the judge's verdict on its marks.
fn say_combined(rt: &impl Print, d: &[u8], list: &[u8], combining: usize) -> Result<()> {
    print!(rt; "; decided")?;
    for element in 0..d.len() / WIDTH {
        let answer = rules::decide(d, list, &[], combining, element)?;
        print!(rt; " {answer}")?;
    }
    print!(rt; "; judged {}", judge(d, Some(combining))?)?;
    Ok(())
}

// A case, folded: the elements, the folder's marks and count, and the rules that they list. Then the marks read back from these and the walk's
// answers; or, where the combining is said, the rules' answers under it and the judge's verdict.
fn say_case(rt: &impl Print, case: Case, combining: Option<usize>) -> Result<()> {
    let Case { name, line } = case;
    let mut d = making::elements(line)?;
    let count = fold(&mut d, combining)?;
    print!(rt;
        "{name}, {line}{}: folded{}; rules {count}",
        Said(combining),
        Marks(&d)
    )?;
    let mut area = ArrayVec::from([[0u8; WIDTH]; ROOM]);
    let listed = listing::list(&d, area.as_flattened_mut())?;
    area.truncate(listed);
    let list = area.as_flattened();
    print!(rt; "{}", Rules(list))?;
    match combining {
        None => say_walked(rt, &d, line, list)?,
        Some(number) => say_combined(rt, &d, list, number)?,
    }
    println!(rt)?;
    Ok(())
}

// The verdict on a case with other marks.
fn say_judged(rt: &impl Print, case: Case, marks: &str, combining: Option<usize>) -> Result<()> {
    let Case { name, line } = case;
    let mut d = making::elements(line)?;
    making::put_marks(&mut d, marks);
    println!(rt;
        "{name} with {marks}{}: {}",
        Said(combining),
        Outcome(judge(&d, combining))
    )?;
    Ok(())
}

// What the folder and the judge say of elements that they refuse for this combining.
fn say_refused(rt: &impl Print, line: &str, combining: Option<usize>) -> Result<()> {
    let mut d = making::elements(line)?;
    println!(rt;
        "folding {line}{}: {}",
        Said(combining),
        Outcome(fold(&mut d, combining))
    )?;
    println!(rt;
        "judging {line}{}: {}",
        Said(combining),
        Outcome(judge(&d, combining))
    )?;
    Ok(())
}

// Each case, folded.
fn say_cases(rt: &impl Print) -> Result<()> {
    for case in CASES {
        say_case(rt, case, None)?;
    }
    Ok(())
}

// The verdicts on other marks.
fn say_verdicts(rt: &impl Print) -> Result<()> {
    let judged = [
        (D, "+ -"),
        (D, "± n"),
        (D, "+ n"),
        (B, "+ + -"),
        (A, "n"),
        (A, "±"),
    ];
    for (case, marks) in judged {
        say_judged(rt, case, marks, None)?;
    }
    Ok(())
}

// Case B for each combining, verdicts where a deny or a permit overrides, and what comes of a combining number past the last.
fn say_combinings(rt: &impl Print) -> Result<()> {
    for combining in 0..=LAST_COMBINING {
        say_case(rt, B, Some(combining))?;
    }
    let (deny, permit) = (Combining::DenyOverrides, Combining::PermitOverrides);
    let judged = [
        (B, "+ - n", deny),
        (B, "± n -", deny),
        (B, "+ - n", permit),
        (D, "± n", deny),
        (D, "+ n", permit),
    ];
    for (case, marks, combining) in judged {
        say_judged(rt, case, marks, Some(combining as usize))?;
    }
    for line in [B.line, "0:0 2:0"] {
        say_refused(rt, line, Some(LAST_COMBINING + 1))?;
    }
    Ok(())
}

// Every line that was worked by hand, one after the other.
fn say_all(rt: &impl Print) -> Result<()> {
    say_cases(rt)?;
    say_verdicts(rt)?;
    edges::say_edges(rt)?;
    lists::say_deciding(rt)?;
    lists::say_refusing(rt)?;
    say_combinings(rt)
}

fn main(rt: HostRuntime) -> Result<()> {
    say_all(&PassingOver(rt))
}
