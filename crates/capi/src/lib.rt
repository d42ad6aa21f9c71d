// What other languages call: the library's functions, each reply packed into one number. A slice passes as a pointer and then a length,
// and a combining as any number: C has no type that holds three of them alone.
#![tactic(auto)]

mod packing;

ghost use Rattle.std.specs.Prelude.{◌≡◌, length};
ghost use Rattle.dossier.specs.Limits.{width};
ghost use Rattle.dossier.specs.Reading.{read_of};
ghost use Rattle.rules.specs.Deciding.{decide_of, deciding_of};
ghost use Rattle.marks.specs.Stepping.{fresh_of, Steps};
ghost use Rattle.listing.specs.Area.{list_reply, list_area};
ghost use Rattle.listing.specs.Back.{Back};
ghost use Rattle.least.specs.Folding.{Folded, FoldedFor};
ghost use Rattle.least.specs.Judging.{Judged, JudgedFor};
ghost use Rattle.view.specs.View.{Views};
ghost use Rattle.capi.specs.Packed.{packed_reply, packed_answer, packed_judgement, Packs, part_after};
ghost use Rattle.capi.specs.Inner.{if_whole};

use dossier::WIDTH;
use marks::Walk;
use packing::pack;

// How many elements the dossier has.
#[unsafe(no_mangle)]
pub extern "C" fn nv_read(dossier: &[u8]) -> u64
    ensures { result ≡ packed_reply (read_of dossier.now) }
{
    pack(dossier::read(dossier))
}

// Writes the rules of the dossier's marks to the front of `out`, and replies how many.
#[unsafe(no_mangle)]
pub extern "C" fn nv_list(dossier: &[u8], out: &mut [u8]) -> u64
    ensures replied { result ≡ packed_reply (list_reply dossier.now out.old) }
    ensures written { out.new ≡ list_area dossier.now out.old }
{
    pack(listing::list(dossier, out))
}

// Writes the marks that give these rules into the dossier, and replies how many elements there are.
#[unsafe(no_mangle)]
pub extern "C" fn nv_read_back(dossier: &mut [u8], rules: &[u8]) -> u64
    ensures { Packs packed_reply (λ reply. Back dossier.old rules.now reply dossier.new) result }
{
    pack(listing::read_back(dossier, rules))
}

// Decides one element over the house list followed by the recipient's.
#[unsafe(no_mangle)]
pub extern "C" fn nv_decide<'a>(
    dossier: &[u8],
    house: &'a [u8],
    recipient: &'a [u8],
    combining: usize,
    element: usize,
) -> u64
    ensures { result ≡ packed_answer (decide_of dossier.now house.now recipient.now combining element) }
{
    pack(rules::decide(dossier, house, recipient, combining, element))
}

// Copies a whole record, and says how many bytes were copied; anything else is not copied.
fn put_part(part: &[u8], out: &mut [u8; WIDTH]) -> u64
    ensures { (result ≡ if_whole part.now width 0) × (out.new ≡ if_whole part.now part.now out.old) }
{
    if part.len() != WIDTH {
        return 0;
    }
    out.copy_from_slice(part);
    WIDTH as u64
}

// The bytes of the deciding rule: replies how many, 8 or none, and writes them to `out`.
#[unsafe(no_mangle)]
pub extern "C" fn nv_deciding<'a>(
    dossier: &[u8],
    house: &'a [u8],
    recipient: &'a [u8],
    combining: usize,
    element: usize,
    out: &mut [u8; WIDTH],
) -> u64
    ensures replied { result ≡ length (deciding_of dossier.now house.now recipient.now combining element) }
    ensures written { out.new ≡ part_after (deciding_of dossier.now house.now recipient.now combining element) out.old }
{
    put_part(
        rules::deciding(dossier, house, recipient, combining, element),
        out,
    )
}

// Makes the walk a fresh one.
#[unsafe(no_mangle)]
pub extern "C" fn nv_walk_fresh(walk: &mut Walk)
    ensures { walk.new ≡ fresh_of }
{
    *walk = Walk::fresh();
}

// Gives the walk one record, which it answers, or refuses and stays as it was.
#[unsafe(no_mangle)]
pub extern "C" fn nv_walk_step(walk: &mut Walk, element: &[u8]) -> u64
    ensures { Packs packed_answer (λ answer. Steps walk.old element.now (record { walk = walk.new; answer = answer })) result }
{
    pack(marks::step_in_place(walk, element))
}

// Writes the least marks into the dossier, and replies how many rules they list.
#[unsafe(no_mangle)]
pub extern "C" fn nv_fold(dossier: &mut [u8]) -> u64
    ensures { Packs packed_reply (λ reply. Folded dossier.old reply dossier.new) result }
{
    pack(least::fold(dossier))
}

// The same for a recipient that combines by this number.
#[unsafe(no_mangle)]
pub extern "C" fn nv_fold_for(dossier: &mut [u8], combining: usize) -> u64
    ensures { Packs packed_reply (λ reply. FoldedFor combining dossier.old reply dossier.new) result }
{
    pack(least::fold_for(dossier, combining))
}

// Judges the marks that the dossier holds.
#[unsafe(no_mangle)]
pub extern "C" fn nv_judge(dossier: &[u8]) -> u64
    ensures { Packs packed_judgement (λ judgement. Judged dossier.now judgement) result }
{
    pack(least::judge(dossier))
}

// The same for a recipient that combines by this number.
#[unsafe(no_mangle)]
pub extern "C" fn nv_judge_for(dossier: &[u8], combining: usize) -> u64
    ensures { Packs packed_judgement (λ judgement. JudgedFor combining dossier.now judgement) result }
{
    pack(least::judge_for(dossier, combining))
}

// Writes the records of the permitted elements to the front of `out`, and replies how many.
#[unsafe(no_mangle)]
pub extern "C" fn nv_view(dossier: &[u8], out: &mut [u8]) -> u64
    ensures { Packs packed_reply (λ reply. Views dossier.now out.old reply out.new) result }
{
    pack(view::view(dossier, out))
}
