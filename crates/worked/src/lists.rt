// Case B's elements, decided over a house list and a recipient's: the answer and the deciding rule, or the refusal.
use crate::shown::{Lists, Outcome, Rule};
use crate::{B, making};
use anyhow::Result;
use dossier::WIDTH;
use rules::LAST_COMBINING;
use std::fmt::Display;

// Rules on elements 0 and 1 of case B, as a list has them: deny all, permit self, and permit self with another key than the element's.
const DENY_ALL: [u8; WIDTH] = [0, 0, 0, 1, 10, 0, 0, 0];

const PERMIT_SELF: [u8; WIDTH] = [1, 0, 1, 0, 20, 0, 0, 0];

const OTHER_KEY: [u8; WIDTH] = [1, 0, 1, 0, 21, 0, 0, 0];

// One element of a dossier, asked over a house list and a recipient's, which are combined by this number: any, since what is refused is shown too.
#[derive(Clone, Copy)]
struct Asked<'a> {
    d: &'a [u8],
    house: &'a [u8],
    recipient: &'a [u8],
    combining: usize,
    element: usize,
}

// What is answered, and by which rule.
fn say_decided(rt: &impl Print, name: impl Display + Drop, asked: Asked) -> Result<()> {
    let Asked {
        d,
        house,
        recipient,
        combining,
        element,
    } = asked;
    println!(rt;
        "element {element} of {name}, combining {combining}: {} by {}",
        Outcome(rules::decide(d, house, recipient, combining, element)),
        Rule(rules::deciding(d, house, recipient, combining, element))
    )?;
    Ok(())
}

// Element 1 under each combining, over lists of one rule each, in both orders.
pub(crate) fn say_deciding(rt: &impl Print) -> Result<()> {
    let d = making::elements(B.line)?;
    for (house, recipient) in [(DENY_ALL, PERMIT_SELF), (PERMIT_SELF, DENY_ALL)] {
        let name = Lists {
            house: Rule(&house),
            recipient: Rule(&recipient),
        };
        for combining in 0..=LAST_COMBINING {
            let asked = Asked {
                d: &d,
                house: &house,
                recipient: &recipient,
                combining,
                element: 1,
            };
            say_decided(rt, name, asked)?;
        }
    }
    Ok(())
}

// No rule applies; then the refusals in their order, where several hold: the elements before the lists, the first list before the
// second, a list before the numbers, the combining number before the element asked for; then lists that are too long, and no whole records.
#[inline(never)]
pub(crate) fn say_refusing(rt: &impl Print) -> Result<()> {
    let d = making::elements(B.line)?;
    let too_long = [0; 65544];
    let not_whole = making::front(&too_long, 65537);
    let both = [PERMIT_SELF, OTHER_KEY];
    // From this each question differs only in the fields that it names.
    let usual = Asked {
        d: &d,
        house: &DENY_ALL,
        recipient: &PERMIT_SELF,
        combining: 0,
        element: 1,
    };
    for (name, asked) in [
        (
            "B, recipient 1 permit self",
            Asked {
                house: &[],
                element: 2,
                ..usual
            },
        ),
        (
            "nothing, house with another key",
            Asked {
                d: &[],
                house: &OTHER_KEY,
                combining: 9,
                ..usual
            },
        ),
        (
            "B, house with another key",
            Asked {
                house: &OTHER_KEY,
                combining: 9,
                element: 3,
                ..usual
            },
        ),
        (
            "B, house with another key, recipient of 1 byte",
            Asked {
                house: &OTHER_KEY,
                recipient: &[1],
                ..usual
            },
        ),
        (
            "B, recipient of 1 byte",
            Asked {
                recipient: &[1],
                combining: 9,
                ..usual
            },
        ),
        (
            "B, recipient with another key in its second rule",
            Asked {
                recipient: both.as_flattened(),
                ..usual
            },
        ),
        (
            "B",
            Asked {
                combining: 9,
                element: 3,
                ..usual
            },
        ),
        (
            "B",
            Asked {
                combining: 2,
                element: 3,
                ..usual
            },
        ),
        (
            "B, house of 65537 bytes",
            Asked {
                house: not_whole,
                recipient: &[],
                ..usual
            },
        ),
        (
            "B, house of 65544 bytes",
            Asked {
                house: &too_long,
                recipient: &[],
                ..usual
            },
        ),
    ] {
        say_decided(rt, name, asked)?;
    }
    Ok(())
}
