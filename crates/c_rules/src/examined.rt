ghost use Rattle.std.specs.Prelude.{◌≡◌};
ghost use Rattle.c_typed.specs.Parts.{tree_of};
ghost use Rattle.c_rules.specs.Examined.{IsExamined};

use crate::label::LabelAt;
use c_typed::Typed;
use std::marker::Model;

/// A typed tree that breaks no rule of labels, jumps, unsequenced effects, calls in a circle, and of `break`, `continue`, `case`,
/// `default` and `return` in their places. Its type keeps this, that `labels` are the tree's labels, by function and in their
/// order, and that `order` has the number of each function once, behind the numbers of all functions that it calls, as a walk along the
/// calls leaves them.
#[derive(Drop)]
pub struct Examined {
    typed: Typed,
    labels: Vec<LabelAt>,
    order: Vec<u32>,
}

impl Model for Examined {
    ghost use Rattle.std.specs.Coded.{codes};
    ghost use Rattle.c_typed.specs.contracts.tree.Value as v;
    ghost use Rattle.c_typed.specs.contracts.tree.Step as s;
    ghost use Rattle.c_typed.specs.Parts.{tree_of};
    ghost use Rattle.c_rules.specs.Parts.{Parts};
    ghost use Rattle.c_rules.specs.Examined.{IsExamined};

    ghost Value = { Parts };

    ghost coded = { Prim.hlevel (codes, v.the_row.coded, s.the_row.coded) };

    ghost view = { λ e. record {
      typed = e.typed;
      labels = e.labels.items;
      order = e.order.items;
    } };

    ghost invariant = { λ e. IsExamined (tree_of e.typed) e.labels.items e.order.items };
}

impl Examined {
    /// The examined tree of these parts. It takes no memory.
    pub fn new(typed: Typed, labels: Vec<LabelAt>, order: Vec<u32>) -> Examined
        requires { IsExamined (tree_of typed) labels.items order.items }
        ensures { result ≡ record {
          typed = typed;
          labels = labels.items;
          order = order.items;
        } }
    {
        Examined {
            typed,
            labels,
            order,
        }
    }

    /// The typed tree.
    pub fn typed(&self) -> &Typed
        ensures value { result.now ≡ self.now.typed }
        ensures examined { IsExamined (tree_of self.now.typed) self.now.labels self.now.order }
    {
        &self.typed
    }

    /// The labels, by function and in their order.
    pub fn labels(&self) -> &[LabelAt]
        ensures value { result.now ≡ self.now.labels }
        ensures examined { IsExamined (tree_of self.now.typed) self.now.labels self.now.order }
    {
        &self.labels
    }

    /// The numbers of the functions, each behind those that it calls.
    pub fn order(&self) -> &[u32]
        ensures value { result.now ≡ self.now.order }
        ensures examined { IsExamined (tree_of self.now.typed) self.now.labels self.now.order }
    {
        &self.order
    }
}
