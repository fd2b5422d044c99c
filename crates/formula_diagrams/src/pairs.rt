//! Pairs of formulas that are joined, and their halves under a bit.

ghost use Rattle.std.specs.Prelude.{◌≡◌, ℕ, ◌+◌, ◌<◌, ◌≤◌, ◌⊎◌, List, IfSome, IfNone};
ghost use Rattle.formula_diagrams.specs.Shape.{Arena, FitsNode, count};
ghost use Rattle.formula_diagrams.specs.Truths.{choice, holds, is_set};
ghost use Rattle.formula_diagrams.specs.Joins.{IsPairIn, IsSplit, Means, at_once, both_at_once, either_at_once, same_at_once, split_both, split_left, split_right, sum_of};

use crate::arena::Diagrams;
use crate::items::{BitOf, Node, NodeId};

/// How two formulas are joined.
#[derive(Clone, Copy, PartialEq, Eq, Hash)]
pub enum Join {
    Both,
    Either,
    Same,
}

/// Two formulas that are joined.
#[derive(Clone, Copy, PartialEq, Eq, Hash)]
pub struct Pair {
    pub left: NodeId,
    pub right: NodeId,
}

/// A pair and its halves: what it is where a bit is 1, and where it is 0.
#[derive(Clone, Copy)]
pub struct Split {
    pub asked: Pair,
    pub top: BitOf,
    pub low: Pair,
    pub high: Pair,
}

fn both_at_once(left: NodeId, right: NodeId) -> Option<NodeId>
    ensures { result ≡ both_at_once left right }
{
    if left.0 == 0 {
        Some(left)
    } else if right.0 == 0 {
        Some(right)
    } else if left.0 == 1 {
        Some(right)
    } else if right.0 == 1 || left.0 == right.0 {
        Some(left)
    } else {
        None
    }
}

fn either_at_once(left: NodeId, right: NodeId) -> Option<NodeId>
    ensures { result ≡ either_at_once left right }
{
    if left.0 == 1 {
        Some(left)
    } else if right.0 == 1 {
        Some(right)
    } else if left.0 == 0 {
        Some(right)
    } else if right.0 == 0 || left.0 == right.0 {
        Some(left)
    } else {
        None
    }
}

fn same_at_once(left: NodeId, right: NodeId) -> Option<NodeId>
    ensures { result ≡ same_at_once left right }
{
    if left.0 == right.0 {
        Some(NodeId(1))
    } else if left.0 == 1 {
        Some(right)
    } else if right.0 == 1 {
        Some(left)
    } else {
        None
    }
}

/// The answer to a joined pair that needs no look at a node. Where there is none, one of the pair is no end.
pub fn at_once(how: Join, pair: Pair) -> Option<NodeId>
    ensures { result ≡ at_once how pair }
{
    match how {
        Join::Both => both_at_once(pair.left, pair.right),
        Join::Either => either_at_once(pair.left, pair.right),
        Join::Same => same_at_once(pair.left, pair.right),
    }
}

// The halves under the bit of the left formula, which the right one does not ask for before.
fn by_left(pair: Pair, left: Node) -> Split
    ensures { result ≡ split_left pair left }
{
    Split {
        asked: pair,
        top: left.top,
        low: Pair {
            left: left.low,
            right: pair.right,
        },
        high: Pair {
            left: left.high,
            right: pair.right,
        },
    }
}

fn by_right(pair: Pair, right: Node) -> Split
    ensures { result ≡ split_right pair right }
{
    Split {
        asked: pair,
        top: right.top,
        low: Pair {
            left: pair.left,
            right: right.low,
        },
        high: Pair {
            left: pair.left,
            right: right.high,
        },
    }
}

fn by_both(pair: Pair, left: Node, right: Node) -> Split
    ensures { result ≡ split_both pair left right }
{
    Split {
        asked: pair,
        top: left.top,
        low: Pair {
            left: left.low,
            right: right.low,
        },
        high: Pair {
            left: left.high,
            right: right.high,
        },
    }
}

/// The halves of a pair under the first bit that one of it asks for.
pub fn halves_of(nodes: &Diagrams, pair: Pair) -> Split
    requires there { IsPairIn nodes.now pair }
    requires inner { (1 < pair.left.0) ⊎ (1 < pair.right.0) }
    ensures split { IsSplit nodes.now result }
    ensures asked { result.asked ≡ pair }
    ensures low { sum_of result.low < sum_of pair }
    ensures high { sum_of result.high < sum_of pair }
{
    if pair.right.0 < 2 {
        return by_left(pair, nodes.get(pair.left));
    }
    let right = nodes.get(pair.right);
    if pair.left.0 < 2 {
        return by_right(pair, right);
    }
    let left = nodes.get(pair.left);
    if left.top == right.top {
        by_both(pair, left, right)
    } else if left.top.is_before(right.top) {
        by_left(pair, left)
    } else {
        by_right(pair, right)
    }
}
