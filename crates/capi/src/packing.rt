// A reply packed into one number of 64 bits: what is given as it is, a refusal from 2^63 on.
ghost use Rattle.std.specs.Prelude.{◌≡◌, refl, ℕ, Result, Ok, Err};
ghost use Rattle.dossier.specs.declared.Refusal.{Refusal};
ghost use Rattle.capi.specs.Packed.{packed_refusal, packed_reply, packed_answer, packed_verdict, packed_judgement};

use dossier::{Decision, Refusal};
use least::{Report, Verdict};

// A refusal: 2^63, then the number, the list and the position.
fn pack_refusal(f: Refusal) -> u64
    ensures { result ≡ packed_refusal f }
{
    9223372036854775808
        + (f.number as u64) * 1099511627776
        + (f.list as u64) * 4294967296
        + (f.position as u64) % 4294967296
}

// What is given where nothing is refused.
pub(crate) trait Packed {
    // What a reply is packed into.
    ghost packed: { Result Self Refusal → ℕ };

    // And what is given.
    fn given(self) -> u64
        ensures { result ≡ packed (Ok self) };

    // A refusal is packed alike, whatever would have been given.
    ghost refuses: { (f : Refusal) → packed (Err f) ≡ packed_refusal f };
}

// Packs a reply.
pub(crate) fn pack<T: Packed>(reply: Result<T, Refusal>) -> u64
    ensures { result ≡ T.packed reply }
{
    match reply {
        Ok(given) => given.given(),
        Err(f) => pack_refusal(f),
    }
}

// A count as it is.
impl Packed for usize {
    ghost packed = { packed_reply };

    fn given(self) -> u64 {
        self as u64
    }

    ghost refuses = { λ f. refl };
}

// 0 deny, 1 permit, 2 none.
impl Packed for Decision {
    ghost packed = { packed_answer };

    fn given(self) -> u64 {
        u8::from(self) as u64
    }

    ghost refuses = { λ f. refl };
}

// The number that a verdict gives, then 0 least, 1 longer or 2 wrong, then the answer of a wrong one.
fn pack_verdict(verdict: Verdict) -> u64
    ensures { result ≡ packed_verdict verdict }
{
    match verdict {
        Verdict::Least => 0,
        Verdict::Longer(n) => (n as u64) % 65536 * 65536 + 4294967296,
        Verdict::Wrong(i, a) => {
            (i as u64) % 65536 * 65536 + 8589934592 + u8::from(a) as u64 * 17179869184
        }
    }
}

// A count and the verdict on it.
impl Packed for Report {
    ghost packed = { packed_judgement };

    fn given(self) -> u64 {
        (self.count as u64) % 65536 + pack_verdict(self.verdict)
    }

    ghost refuses = { λ f. refl };
}
