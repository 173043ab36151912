// The halves of a part of the tree, in the order in which they are walked.
ghost use Rattle.std.specs.Prelude.{◌≡◌};
ghost use Rattle.clearance.specs.Inner.State.{nearer_first};

// A part of the tree: its first leaf, its number of leaves, and the distance of its box from the segment's.
#[derive(Clone, Copy)]
pub struct Subtree {
    pub first: usize,
    pub count: usize,
    pub lower: f64,
}

// The two halves of a part, in the order in which they are walked.
#[derive(Clone, Copy)]
pub struct Halves {
    pub nearer: Subtree,
    pub farther: Subtree,
}

// The nearer half first, the left one on a tie. The halves are passed by their fields: a struct parameter is passed in memory, so its fields would be stored and loaded again wherever the walk halves a part.
pub fn nearer_first(
    first: usize,
    half: usize,
    left_lower: f64,
    middle: usize,
    rest: usize,
    right_lower: f64,
) -> Halves
    ensures { result ≡ nearer_first (record { first = first; count = half; lower = left_lower }) (record { first = middle; count = rest; lower = right_lower }) }
{
    let left = Subtree {
        first,
        count: half,
        lower: left_lower,
    };
    let right = Subtree {
        first: middle,
        count: rest,
        lower: right_lower,
    };
    if right_lower < left_lower {
        Halves {
            nearer: right,
            farther: left,
        }
    } else {
        Halves {
            nearer: left,
            farther: right,
        }
    }
}
