// The recipient's view of a dossier.
#![tactic(auto)]

ghost use Rattle.std.specs.Prelude.{◌≡◌, ◌*◌, ◌≤◌, ◌<◌, nat_le, length};
ghost use Rattle.std.proofs.lemmas.List.Edits.{sets};
ghost use Rattle.dossier.specs.Limits.{width};
ghost use Rattle.dossier.specs.Bytes.{records, record_at};
ghost use Rattle.view.specs.View.{Views};
ghost use Rattle.view.specs.Inner.{memory, no_limit, shows, after, shown_of, bytes_of};

use dossier::{Decision, Refusal, WIDTH};
use marks::DEPTHS;

// A depth that a record exceeds exactly if it lies below a hidden one. What each open depth hands down, as far as the limit, stands in an
// array beside it: in one struct with an array the compiler keeps a number in memory, and the view takes up to three tenths longer.
#[derive(Clone, Copy)]
struct Limit {
    depth: usize,
}

impl Limit {
    // Before the first record nothing is hidden: no record is so deep.
    fn lifted() -> Limit
        ensures { result.depth ≡ no_limit }
    {
        Limit { depth: DEPTHS }
    }

    // Whether record i belongs in the view. A record deeper than the limit lies below a hidden one, and is hidden. Any other is answered by the walk, and with that the limit is lifted, or set to its depth.
    fn shown(&mut self, handed: &mut [u8; DEPTHS], d: &[u8], i: usize) -> bool
        requires { i < records d.now }
        ensures { (result ≡ shows (memory handed.old self.old.depth) d.now i) × (memory handed.new self.new.depth ≡ after (memory handed.old self.old.depth) d.now i) }
    {
        let at = i * WIDTH;
        let depth = dossier::depth(d, i);
        if depth > self.depth {
            return false;
        }
        match marks::hand_on(handed, depth, d[at + 1], d[at + 2]) {
            Decision::Permit => {
                self.depth = DEPTHS;
                true
            }
            _ => {
                self.depth = depth;
                false
            }
        }
    }
}

// How many records are shown.
fn count(d: &[u8]) -> usize
    ensures { result ≡ length (shown_of d.now) }
{
    let mut handed = [u8::from(Decision::None); DEPTHS];
    let mut limit = Limit::lifted();
    let mut sum = 0;
    for i in 0..d.len() / WIDTH {
        if limit.shown(&mut handed, d, i) {
            sum += 1;
        }
    }
    sum
}

// Whether so many bytes have room for the records that are shown: room for all records is enough, and then none is counted.
fn has_room(d: &[u8], room: usize) -> bool
    ensures { result ≡ nat_le (length (shown_of d.now) * width) room }
{
    d.len() <= room || count(d) * WIDTH <= room
}

// Writes record i as record `to` of the area. Its bytes are all read before the first is written, so that they can move at once: a copy from slice to slice asks first whether the two overlap, and takes a seventh more of the whole view.
fn put(d: &[u8], i: usize, out: &mut [u8], to: usize)
    requires { (i < records d.now) × (to < records out.old) }
    ensures { out.new ≡ sets out.old (to * width) (record_at d.now i) }
{
    let from = i * WIDTH;
    let bytes = [
        d[from],
        d[from + 1],
        d[from + 2],
        d[from + 3],
        d[from + 4],
        d[from + 5],
        d[from + 6],
        d[from + 7],
    ];
    dossier::store(out, to, bytes);
}

// Writes the records that are shown to the area's front, and says how many they are.
fn copy(d: &[u8], out: &mut [u8]) -> usize
    requires { length (shown_of d.now) * width ≤ length out.old }
    ensures { (result ≡ length (shown_of d.now)) × (out.new ≡ sets out.old 0 (bytes_of (shown_of d.now))) }
{
    let mut handed = [u8::from(Decision::None); DEPTHS];
    let mut limit = Limit::lifted();
    let mut to = 0;
    for i in 0..d.len() / WIDTH {
        if limit.shown(&mut handed, d, i) {
            put(d, i, out, to);
            to += 1;
        }
    }
    to
}

// Writes the view to the area's front and replies how many records it has; or refuses and writes nothing.
pub fn view(d: &[u8], out: &mut [u8]) -> Result<usize, Refusal>
    ensures { Views d.now out.old result out.new }
{
    dossier::read(d)?;
    if !has_room(d, out.len()) {
        return dossier::refused(8, 0, 0);
    }
    Ok(copy(d, out))
}
