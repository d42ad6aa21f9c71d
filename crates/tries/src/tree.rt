// Trees of up to seven elements, by the depths of their elements in document order.

ghost use Rattle.std.specs.Prelude.{◌<◌, ◌≤◌, All, IfSome, length};
ghost use Rattle.tries.specs.declared.TheConstants.{SIZE};

// Where an element stands, seen from one whose rules may apply to it.
#[derive(Clone, Copy, PartialEq, Eq)]
pub(crate) enum Place {
    Itself,
    Below,
    Elsewhere,
}

impl Place {
    // Where the children of an element stand that stands here.
    fn below(self) -> Place {
        match self {
            Place::Itself | Place::Below => Place::Below,
            Place::Elsewhere => Place::Elsewhere,
        }
    }
}

// A tree: the depths of its elements; for each element a row of where it stands, seen from each; and the elements in the order in which their own rules are listed.
#[derive(Clone, Copy)]
pub(crate) struct Tree<const N: usize> {
    pub(crate) depths: [u8; N],
    pub(crate) places: [[Place; N]; N],
    pub(crate) order: [usize; N],
    ghost few: { N ≤ SIZE },
    ghost within: { All (λ q. q < N) order },
}

impl<const N: usize> Tree<N> {
    // The tree with these depths, if they are a tree's: the first is 0, and each later one from 1 to one more than the depth before it.
    pub(crate) fn new(depths: [u8; N]) -> Option<Self>
        requires { N ≤ SIZE }
    {
        let has_root = depths.first() == Some(&0);
        let is_ordered = depths
            .windows(2)
            .all(|pair| 0 < pair[1] && pair[1] - 1 <= pair[0]);
        if !has_root || !is_ordered {
            return None;
        }
        let places = places_of(&depths);
        let order = order_of(&places);
        Some(Tree {
            depths,
            places,
            order,
        })
    }
}

// The last of the earlier elements with a depth one smaller.
fn parent(earlier: &[u8], depth: u8) -> Option<usize>
    ensures { IfSome result (λ p. p < length earlier.now) }
{
    let above = depth.checked_sub(1)?;
    earlier.iter().rposition(|&other| other == above)
}

// Where each element stands: where its parent's children stand, and at itself.
fn places_of<const N: usize>(depths: &[u8; N]) -> [[Place; N]; N] {
    let mut places = [[Place::Elsewhere; N]; N];
    for i in 0..N {
        if let Some(p) = parent(&depths[..i], depths[i]) {
            places[i] = places[p].map(|place| place.below());
        }
        places[i][i] = Place::Itself;
    }
    places
}

// The elements in the order in which their own rules are listed: before an element come the earlier ones that it does not lie below, and the later ones that lie below it.
fn order_of<const N: usize>(places: &[[Place; N]; N]) -> [usize; N]
    ensures { All (λ q. q < N) result }
{
    let mut order = [0; N];
    for q in 0..N {
        let earlier = (0..q).filter(|&r| places[q][r] == Place::Elsewhere).count();
        let later = (q + 1..N).filter(|&r| places[r][q] == Place::Below).count();
        order[earlier + later] = q;
    }
    order
}
