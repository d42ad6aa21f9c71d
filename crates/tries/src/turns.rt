// All markings, all choices of decisions and all trees, each by its number. The last element changes fastest, so that markings come in their order.

ghost use Rattle.std.specs.Prelude.{◌<◌, ◌≤◌};

use crate::SIZE;
use crate::answers::{Effect, Mark};
use crate::tree::Tree;

// The row of N digits below BASE that has this number.
fn digits<const N: usize, const BASE: u8>(number: usize) -> [u8; N]
    requires { 0 < BASE }
{
    let base = usize::from(BASE);
    let mut left = number;
    let mut row = [0; N];
    for digit in row.iter_mut().rev() {
        *digit = (left % base) as u8;
        left /= base;
    }
    row
}

impl<const N: usize> Tree<N> {
    // The tree whose depths are the row of this number below 8; most rows are no tree's.
    pub(crate) fn numbered(number: usize) -> Option<Self>
        requires { N ≤ SIZE }
    {
        Tree::new(digits::<N, 8>(number))
    }

    // The choice of decisions of this number for its elements.
    pub(crate) fn decisions(&self, number: usize) -> [Effect; N] {
        digits::<N, 2>(number).map(|digit| match digit {
            0 => Effect::Deny,
            _ => Effect::Permit,
        })
    }

    // The marking of this number for its elements.
    pub(crate) fn marking(&self, number: usize) -> [Mark; N] {
        digits::<N, 4>(number).map(|digit| match digit {
            0 => Mark::NoRule,
            1 => Mark::OnSelf,
            2 => Mark::OnAll,
            _ => Mark::Both,
        })
    }
}
