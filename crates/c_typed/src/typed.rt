ghost use Rattle.std.specs.Prelude.{◌≡◌};
ghost use Rattle.c_typed.specs.Facts.{IsTyped};
ghost use Rattle.c_typed.specs.View.{program_of};
ghost use Rattle.c_typed.specs.Parts.{tree_of};

use crate::tree::{Function, Object};
use lv_base::Model as DataModel;
use std::marker::Model;

/// A typed tree. Its type keeps that its numbers are there, that each value has the kind that its place asks for, that
/// exactly one function is `main`, and that a static object has for each element one value of its kind.
#[derive(Drop)]
pub struct Typed {
    model: DataModel,
    objects: Vec<Object>,
    functions: Vec<Function>,
}

impl Model for Typed {
    ghost use Rattle.std.specs.Coded.{codes};
    ghost use Rattle.c_typed.specs.contracts.tree.Value as v;
    ghost use Rattle.c_typed.specs.contracts.tree.Step as s;
    ghost use Rattle.c_typed.specs.Parts.{Parts};
    ghost use Rattle.c_typed.specs.Facts.{IsTyped};
    ghost use Rattle.c_typed.specs.View.{program_of};

    ghost Value = { Parts };

    ghost coded = { Prim.hlevel (codes, v.the_row.coded, s.the_row.coded) };

    ghost view = { λ t. record {
      model = t.model;
      objects = t.objects.items;
      functions = t.functions.items;
    } };

    ghost invariant = { λ t. IsTyped (program_of t.model t.objects.items t.functions.items) };
}

impl Typed {
    /// The typed tree of these parts. It takes no memory.
    pub fn new(model: DataModel, objects: Vec<Object>, functions: Vec<Function>) -> Typed
        requires { IsTyped (program_of model objects.items functions.items) }
        ensures { result ≡ record {
          model = model;
          objects = objects.items;
          functions = functions.items;
        } }
    {
        Typed {
            model,
            objects,
            functions,
        }
    }

    /// The data model.
    pub fn model(&self) -> DataModel
        ensures value { result ≡ self.now.model }
        ensures typed { IsTyped (tree_of self.now) }
    {
        self.model
    }

    /// The objects, by number.
    pub fn objects(&self) -> &[Object]
        ensures value { result.now ≡ self.now.objects }
        ensures typed { IsTyped (tree_of self.now) }
    {
        &self.objects
    }

    /// The functions with a body, by number.
    pub fn functions(&self) -> &[Function]
        ensures value { result.now ≡ self.now.functions }
        ensures typed { IsTyped (tree_of self.now) }
    {
        &self.functions
    }
}
