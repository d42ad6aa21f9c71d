// The program: reads a dossier on standard input, folds it, and prints its rules or why it is refused.
#![tactic(auto)]

mod lines;

ghost use Rattle.listing.specs.Area.{listed_of};
ghost use Rattle.programs.specs.Area.{Puts};
ghost use Rattle.front.specs.Printing.{rules_text};
ghost use Rattle.front.specs.Inner.{Short, Answered};

use dossier::{MOST_ELEMENTS, WIDTH};

// The numbers of standard input and output: std's streams come from a runtime, and `whole`, which is public, takes none.
const STDIN: i32 = 0;

const STDOUT: i32 = 1;

// The most records that are kept; their bytes; and what is enough for all that can stand for a longer input.
const MOST: u16 = MOST_ELEMENTS as u16;

const MOST_BYTES: usize = MOST_ELEMENTS * WIDTH;

const KEPT: usize = MOST_BYTES + 2 * WIDTH;

// The most bytes that are printed: 17 for each rule, and the line before them.
const MOST_TEXT: usize = MOST_ELEMENTS * 17 + 80;

// Lists the rules of a folded dossier and puts their lines. They are at most as many as the elements, so the lister never
// refuses for want of room.
#[tactic(auto, using(crate::proofs::Replies::lister))]
fn list(d: &[u8], rules: &mut [u8; MOST_BYTES], out: &mut [u8; MOST_TEXT]) -> usize
    requires { Short d.now }
    ensures { Puts out.old 0 (rules_text (listed_of d.now)) out.new result }
{
    match listing::list(d, rules) {
        Ok(n) => lines::put_rules(out, &rules[..n * WIDTH]),
        Err(f) => programs::put_refusal(out, 0, f),
    }
}

// Folds a dossier and puts what is printed at the front of `out`: how many bytes.
fn answer(d: &mut [u8], rules: &mut [u8; MOST_BYTES], out: &mut [u8; MOST_TEXT]) -> usize
    ensures { Answered d.old out.new result }
{
    match least::fold(d) {
        Ok(_) => list(d, rules, out),
        Err(f) => programs::put_refusal(out, 0, f),
    }
}

// The whole program: reads standard input and prints.
pub fn whole() {
    let mut kept = [0u8; KEPT];
    let mut rules = [0u8; MOST_BYTES];
    let mut out = [0u8; MOST_TEXT];
    let size = programs::gather(STDIN, MOST, &mut kept, &mut out);
    let to = answer(&mut kept[..size], &mut rules, &mut out);
    io::write_all(STDOUT, &out[..to]);
}
