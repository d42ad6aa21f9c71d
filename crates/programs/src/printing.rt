// Putting text into an area from a place on. Each function replies the place after its text; where the text does not fit, the
// area is left as it was and the reply is the place that was given.
// The area and the place stay apart, and an effect comes as its number, since the functions are public and keep their parameters. None of this is a
// `Display`, since nothing proves which bytes that puts.
ghost use Rattle.std.specs.Prelude.{◌≡◌, ◌≤◌, length};
ghost use Rattle.dossier.specs.Elements.{effect_of};
ghost use Rattle.dossier.specs.Replies.{area_after};
ghost use Rattle.programs.specs.Area.{place_after, Puts};
ghost use Rattle.programs.specs.Printing.{decimal, effect_word, refusal_text, most_refusal};

use dossier::{Effect, Refusal};

// The most bytes of a refusal's line: its word, two numbers of three digits and one of twenty, and what ends them.
const MOST_REFUSAL: usize = 37;

// Puts a word.
#[tactic(auto, using(crate::proofs::Putting::put_mid_sets), unfolding(crate::specs::Area::place_after, dossier::specs::Replies::area_after))]
pub fn put_word(out: &mut [u8], at: usize, word: &[u8]) -> usize
    ensures place { result ≡ place_after out.old at word.now }
    ensures written { out.new ≡ area_after out.old at word.now }
{
    match at.checked_add(word.len()) {
        Some(to) if to <= out.len() => {
            out[at..to].copy_from_slice(word);
            to
        }
        _ => at,
    }
}

// Puts a number in decimal.
#[tactic(auto, using(crate::proofs::Decimals::fewest_decimal))]
pub fn put_number(out: &mut [u8], at: usize, n: usize) -> usize
    ensures place { result ≡ place_after out.old at (decimal n) }
    ensures written { out.new ≡ area_after out.old at (decimal n) }
{
    let mut digits = [0u8; 20];
    let k = io::decimal(n as u64, &mut digits);
    put_word(out, at, &digits[..k])
}

// Puts the word of an effect.
pub fn put_effect(out: &mut [u8], at: usize, effect: u8) -> usize
    ensures place { result ≡ place_after out.old at (effect_word (effect_of effect)) }
    ensures written { out.new ≡ area_after out.old at (effect_word (effect_of effect)) }
{
    let word: &[u8] = match Effect::from(effect) {
        Effect::Deny => b" deny",
        Effect::Permit => b" permit",
    };
    put_word(out, at, word)
}

// Puts the line of a refusal at the front of an area that has room for the longest.
fn write_refusal(line: &mut [u8; MOST_REFUSAL], refusal: Refusal) -> usize
    ensures { Puts line.old 0 (refusal_text refusal) line.new result }
{
    let named = put_word(line, 0, b"refused ");
    let numbered = put_number(line, named, usize::from(refusal.number));
    let spaced = put_word(line, numbered, b" ");
    let listed = put_number(line, spaced, usize::from(refusal.list));
    let spaced = put_word(line, listed, b" ");
    let placed = put_number(line, spaced, refusal.position);
    put_word(line, placed, b"\n")
}

// Puts the line of a refusal, which is never longer than the longest.
pub fn put_refusal(out: &mut [u8], at: usize, refusal: Refusal) -> usize
    ensures place { result ≡ place_after out.old at (refusal_text refusal) }
    ensures written { out.new ≡ area_after out.old at (refusal_text refusal) }
    ensures within { length (refusal_text refusal) ≤ most_refusal }
{
    let mut line = [0u8; MOST_REFUSAL];
    let n = write_refusal(&mut line, refusal);
    put_word(out, at, &line[..n])
}
