//! What is known of the pairs that were settled: a look-up by their sides, in place of the journal and the list of the
//! pairs that were kept apart.
ghost use Rattle.std.specs.Prelude.{◌≡◌, ◌++◌};
ghost use Rattle.std.proofs.Common.{rules};
ghost use Rattle.std.specs.Hash as fed;
ghost use Rattle.std.specs.Cmp.Rules.{comparing, hashing};
ghost use Rattle.cover_engine.specs.Settlings.{apart_of, covered_at, is_now, parted_at, sides, was_covered};

use reach_tree::VertexId;
use std::hash::{Hash, Hasher};

/// The two sides of a pair, under which its settling is found.
#[derive(Clone, Copy)]
pub struct Sides {
    pub left: u32,
    pub right: u32,
}

impl PartialEq for Sides {
    ghost use Rattle.std.specs.Prelude.{◌≡◌};
    ghost use Rattle.std.proofs.Common.{rules};
    ghost use Rattle.std.specs.Cmp.Rules.{comparing};
    ghost use Rattle.cover_engine.specs.Settlings.{same_sides};

    ghost eq = { same_sides };

    ghost laws = { Prim.search (comparing, rules) };

    fn eq(&self, other: &Sides) -> bool {
        self.left == other.left && self.right == other.right
    }
}

impl Eq for Sides {
    ghost laws = { Prim.search (comparing, rules) };
}

impl Hash for Sides {
    ghost hash_input = { λ a. fed.u32 a.left ++ fed.u32 a.right };

    ghost respects_eq = { Prim.search (hashing, rules) };

    fn hash<H: Hasher>(&self, state: &mut H) {
        self.left.hash(state);
        self.right.hash(state);
    }
}

impl Sides {
    /// The sides of a pair.
    pub fn of(v: VertexId, w: VertexId) -> Sides
        ensures { result ≡ sides v w }
    {
        Sides {
            left: v.0,
            right: w.0,
        }
    }
}

/// How a pair was settled last.
#[derive(Clone, Copy)]
pub struct Settling {
    /// How many Refines stood in the journal at its last CoverYes.
    pub covered: Option<u32>,
    /// The versions of both labels at its last CoverNo.
    pub apart: Option<(u32, u32)>,
}

/// Whether a CoverYes stands since as many Refines.
pub fn covered_since(settling: Option<Settling>, refines: u32) -> bool
    ensures { result ≡ was_covered settling refines }
{
    match settling {
        None => false,
        Some(known) => match known.covered {
            None => false,
            Some(at) => at == refines,
        },
    }
}

/// Whether the last CoverNo had these versions of the labels.
pub fn apart_since(settling: Option<Settling>, left: u32, right: u32) -> bool
    ensures { result ≡ is_now (apart_of settling) left right }
{
    match settling {
        None => false,
        Some(known) => match known.apart {
            None => false,
            Some(versions) => versions.0 == left && versions.1 == right,
        },
    }
}

/// The settling after a CoverYes that stands behind as many Refines.
pub fn covered_now(known: Option<Settling>, refines: u32) -> Settling
    ensures { result ≡ covered_at known refines }
{
    Settling {
        covered: Some(refines),
        apart: match known {
            None => None,
            Some(before) => before.apart,
        },
    }
}

/// The settling after a CoverNo with these versions.
pub fn apart_with(known: Option<Settling>, versions: (u32, u32)) -> Settling
    ensures { result ≡ parted_at known versions }
{
    Settling {
        covered: match known {
            None => None,
            Some(before) => before.covered,
        },
        apart: Some(versions),
    }
}
