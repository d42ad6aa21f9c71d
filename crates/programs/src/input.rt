// Reading an input of which at most so many records are kept. Bytes past them are still counted, so that what is kept stands
// for the whole input. The kit's `io` reads, since std has no reader that keeps the count where a read fails.
ghost use Rattle.std.specs.Prelude.{◌≡◌, ◌+◌, ◌*◌, ◌%◌};
ghost use Rattle.dossier.specs.Limits.{width};
ghost use Rattle.programs.specs.Standing.{stands_for, CountedOn, Gathered, Unread};

use dossier::WIDTH;

// What stands for more bytes than the most records have.
fn too_many(most: u16, total: usize, more: usize) -> usize
    ensures { result ≡ most * width + width + (total + more) % width }
{
    usize::from(most) * WIDTH + WIDTH + (total % WIDTH + more % WIDTH) % WIDTH
}

// What stands for all bytes so far and `more` after them, where `total` is their number or stands for it.
#[tactic(auto, unfolding(crate::specs::Standing::stands_for))]
pub fn counted_on(most: u16, total: usize, more: usize) -> usize
    ensures { result ≡ stands_for most (total + more) }
{
    match total.checked_add(more) {
        Some(bytes) if bytes <= usize::from(most) * WIDTH => bytes,
        _ => too_many(most, total, more),
    }
}

// Reads on to the end of the input, of which the most records are kept already: what stands for the whole. The input ends, or
// a read fails, where the scratch area is not filled; into an empty one nothing is read. The turns are counted only so that the
// loop ends.
#[tactic(auto, using(crate::proofs::Standing::standing))]
fn rest(fd: i32, most: u16, scratch: &mut [u8]) -> usize
    ensures { CountedOn most result }
{
    let mut total = usize::from(most) * WIDTH;
    for _ in 0..u64::MAX {
        let n = io::read_full(fd, scratch);
        total = counted_on(most, total, n);
        if n == 0 || n < scratch.len() {
            break;
        }
    }
    total
}

// Reads the whole input, keeping its front: how many of the kept bytes stand for it. An area that has no room for two
// records more than the most is left as it was, and nothing is read.
#[tactic(auto, using(crate::proofs::Standing::standing))]
pub fn gather(fd: i32, most: u16, kept: &mut [u8], scratch: &mut [u8]) -> usize
    ensures gathered { Gathered most kept.new result }
    ensures unread { Unread most kept.old kept.new result }
{
    let bytes = usize::from(most) * WIDTH;
    if kept.len() < bytes + 2 * WIDTH {
        return 0;
    }
    let n = io::read_full(fd, &mut kept[..bytes]);
    if n < bytes {
        return n;
    }
    rest(fd, most, scratch)
}
