ghost use Rattle.std.specs.Prelude.{◌≡◌, Some, IfOk};
ghost use Rattle.c_tree.specs.View.{expr, initial_of, form_of, option_expr, declaration_of, parameters_of};
ghost use Rattle.c_tree.specs.Tree as tr;
ghost use Rattle.parse_machine.specs.Contexts as m;
ghost use Rattle.parse_machine.specs.Making as mk;
ghost use Rattle.parse_machine.specs.Expressions as ex;
ghost use Rattle.parse_stack.specs.View as v;
ghost use Rattle.parse_values.specs.ModeView.{Gives};

use crate::modes::Mode;
use c_tree::{
    Declaration, Declarator, Expr, ForStart, Form, Initial, Item, Name, Parameters, Statement,
};
use parse_stack::{
    Base, Declared, Declaring, Part, PartRow, Place, StepFail, TallForm, above, add_declarator,
    attributes_height, rooted,
};
use std::alloc::{AllocError, Global};

/// What stands behind the name is known.
fn with_form(alloc: Global, d: Box<Declared>, form: Form, height: u32) -> Result<Mode, StepFail>
    ensures { Gives result (Some (m.Behind (mk.with_form (v.declared d.value) (mk.tall (form_of form) height)))) }
{
    let form = Box::new(alloc, TallForm { form, height })?;
    let Declared {
        around,
        comma,
        name,
        at,
        form: _,
        attributes,
    } = Box::into_inner(d);
    Ok(Mode::Behind(Box::new(
        alloc,
        Declared {
            around,
            comma,
            name,
            at,
            form,
            attributes,
        },
    )?))
}

/// An array, with its length and the height of that.
pub fn array_of(
    alloc: Global,
    d: Box<Declared>,
    bracket: u32,
    length: Option<Box<Expr>>,
    close: u32,
    height: u32,
) -> Result<Mode, StepFail>
    ensures { Gives result (Some (m.Behind (mk.with_form (v.declared d.value) (mk.tall (tr.fArray bracket (option_expr length) close) height)))) }
{
    with_form(alloc, d, Form::Array(bracket, length, close), height)
}

/// A function, with its parameters and their height.
pub fn function_of(
    alloc: Global,
    d: Box<Declared>,
    p: Parameters,
    height: u32,
) -> Result<Mode, StepFail>
    ensures { Gives result (Some (m.Behind (mk.with_form (v.declared d.value) (mk.tall (tr.fFunction (parameters_of p)) height)))) }
{
    with_form(alloc, d, Form::Function(p), height)
}

/// A declared name is whole, with its initial value and the height of that.
pub fn with_initial(d: Box<Declared>, i: Initial, height: u32) -> Result<Declaring, AllocError>
    ensures { IfOk result (λ r. v.declaring r ≡ mk.with_initial (v.declared d.value) (initial_of i) height) }
{
    let Declared {
        around,
        comma,
        name,
        at,
        form,
        attributes,
    } = Box::into_inner(d);
    let Declaring {
        place,
        spoken,
        before,
    } = around;
    let TallForm {
        form,
        height: form_height,
    } = Box::into_inner(form);
    let more = above(form_height.max(attributes_height(&attributes)).max(height));
    let before = add_declarator(
        before,
        Declarator {
            comma,
            name: Name { text: name, at },
            form,
            attributes,
            initial: i,
        },
        more,
    )?;
    Ok(Declaring {
        place,
        spoken,
        before,
    })
}

/// A declared name is whole, with this initial value.
pub fn with_value(d: Box<Declared>, x: u32, e: Part) -> Result<Declaring, AllocError>
    ensures { IfOk result (λ r. v.declaring r ≡ mk.with_initial (v.declared d.value) (tr.iValue x (expr e.node.value)) e.height) }
{
    let height = e.height;
    with_initial(d, Initial::Value(x, e.node), height)
}

/// A list of initial values is whole.
pub fn listed(
    d: Box<Declared>,
    x: u32,
    a: u32,
    row: PartRow,
    c: Option<u32>,
    at: u32,
) -> Result<Mode, StepFail>
    ensures { Gives result (Some (ex.listed (v.declared d.value) x a (v.part_row row) c at)) }
{
    let height = above(row.height);
    let list = Initial::List(x, a, row.parts, c, at);
    Ok(Mode::Listed(with_initial(d, list, height)?))
}

/// A declaration ends in its place.
fn end_in(alloc: Global, p: Box<Place>, d: Declaration, height: u32) -> Result<Mode, StepFail>
    ensures { Gives result (Some (ex.ended_at (v.place p.value) (declaration_of d) height)) }
{
    match Box::into_inner(p) {
        Place::File => Ok(Mode::Ended(Box::new(alloc, Item::Declaration(d))?, height)),
        Place::Block(o) => Ok(Mode::Whole(Box::new(alloc, Statement::Declaration(d))?, o)),
        Place::For(mark, x, a, o) => {
            let start = Box::new(alloc, ForStart::Declaration(d))?;
            Ok(Mode::Maybe(rooted(alloc, Base::More(mark, x, a, start, o))?))
        }
    }
}

/// The `;` of a declaration.
pub fn end_declaration(alloc: Global, d: Declaring, at: u32) -> Result<Mode, StepFail>
    ensures { Gives result (Some (ex.ended (v.declaring d) at)) }
{
    let Declaring {
        place,
        spoken,
        before,
    } = d;
    let height = above(above(spoken.height).max(before.height));
    end_in(
        alloc,
        place,
        Declaration {
            specs: spoken.words,
            declarators: before.declarators,
            semicolon: at,
        },
        height,
    )
}
