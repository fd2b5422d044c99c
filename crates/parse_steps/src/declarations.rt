ghost use Rattle.std.specs.Prelude.{◌≡◌, Some, None, IfOk, length};
ghost use Rattle.c_tree.specs.View.{initial_of, form_of, params_of, name_of, parameters_of, attributes_of, words_of};
ghost use Rattle.c_tree.specs.Tree as tr;
ghost use Rattle.c_tree.specs.Shape as sh;
ghost use Rattle.c_tree.specs.declared.symbol.Symbol.TheVariants as sy;
ghost use Rattle.parse_machine.specs.Heights as hi;
ghost use Rattle.parse_machine.specs.Contexts as m;
ghost use Rattle.parse_machine.specs.Making as mk;
ghost use Rattle.parse_machine.specs.Expressions as ex;
ghost use Rattle.parse_machine.specs.Specifiers as sf;
ghost use Rattle.parse_machine.specs.Declarations as de;
ghost use Rattle.parse_stack.specs.View as v;
ghost use Rattle.parse_values.specs.ModeView.{Gives, GivesTurn, Declares};
ghost use Rattle.parse_steps.specs.Keeping.{KeepsNames};

use crate::specifiers::{parameters_more, step_specs};
use c_tree::{AssignOp, AttributeWord, Bracket, Form, Initial, Name, Parameters, Symbol, TypeWord};
use lv_base::Text;
use parse_stack::{
    Around, Attributed, Base, Declared, Declaring, FunctionHead, Opening, Outer, ParamRow, Spoken,
    StepFail, TallForm, above, add_parameter, is_first, is_object, is_skipped_name, is_typedef,
    may_be_array, may_be_function, may_be_whole, may_have_attribute, rooted, unspoken,
};
use parse_values::{Mode, Skip, Waiting, end_declaration, function_of, with_initial};
use std::alloc::Global;
use typedef_names::Names;

/// Behind a declared name.
pub fn declared_name(
    alloc: Global,
    d: Declaring,
    comma: Option<u32>,
    name: Text,
    at: u32,
) -> Result<Mode, StepFail>
    ensures { Gives result (Some (m.Behind (mk.declared_plain (v.declaring d) comma name at))) }
{
    let form = Box::new(
        alloc,
        TallForm {
            form: Form::Plain,
            height: 0,
        },
    )?;
    Ok(Mode::Behind(Box::new(
        alloc,
        Declared {
            around: d,
            comma,
            name,
            at,
            form,
            attributes: Vec::new(alloc),
        },
    )?))
}

/// The `)` of parameters.
pub fn parameters_end(
    alloc: Global,
    d: Box<Declared>,
    a: u32,
    row: ParamRow,
    at: u32,
) -> Result<Mode, StepFail>
    ensures { Gives result (Some (sf.parameters_end (v.declared d.value) a (v.param_row row) at)) }
{
    let height = above(row.height);
    function_of(alloc, d, Parameters::Some(a, row.params, at), height)
}

/// A typedef declares its name.
fn declare(alloc: Global, names: &mut Names, d: &Declared) -> Result<(), StepFail>
    ensures { Declares result (names.new ≡ de.names_with (v.declared d.now) names.old) }
{
    if is_typedef(d.around.spoken.told.storage) {
        names.declare(Text::copy_of(alloc, d.name.as_bytes())?)?;
    }
    Ok(())
}

/// The `=` behind a declared name.
fn initial(alloc: Global, at: u32, d: Box<Declared>) -> Result<Mode, StepFail>
    ensures { Gives result (de.initial at (v.declared d.value)) }
{
    if !is_object(d.around.spoken.told) {
        return Err(StepFail::Refused);
    }
    match d.form.form {
        Form::Plain => Ok(Mode::Operand(rooted(alloc, Base::Initial(d, at))?)),
        Form::Array(..) => Ok(Mode::Wait(Box::new(alloc, Waiting::List(d, at))?)),
        Form::Function(_) => Err(StepFail::Refused),
    }
}

/// The `{` of a function.
fn body_of_head(
    alloc: Global,
    names: &Names,
    at: u32,
    head: Box<FunctionHead>,
) -> Result<Mode, StepFail>
    ensures { Gives result (Some (de.body_of_header names.now at (v.function_head head.value))) }
{
    if is_skipped_name(&head.name) {
        let skip = Skip {
            tokens: Vec::new(alloc),
            depth: 0,
        };
        return Ok(Mode::Skipped(head, at, skip));
    }
    let body = Box::new(
        alloc,
        Opening {
            mark: names.count(),
            head,
            open: at,
            statements: Vec::new(alloc),
        },
    )?;
    Ok(Mode::Begin(Outer {
        body,
        frames: Vec::new(alloc),
    }))
}

/// The `{` behind a declared name.
fn body(alloc: Global, names: &Names, at: u32, d: Box<Declared>) -> Result<Mode, StepFail>
    ensures { Gives result (de.body names.now at (v.declared d.value)) }
{
    if !is_first(&d.around) {
        return Err(StepFail::Refused);
    }
    let Declared {
        around,
        comma: _,
        name,
        at: x,
        form,
        attributes,
    } = Box::into_inner(d);
    match Box::into_inner(form).form {
        Form::Function(p) => {
            let parameters = Box::new(alloc, p)?;
            let head = FunctionHead {
                words: around.spoken.words,
                name: Name { text: name, at: x },
                parameters,
                attributes,
            };
            body_of_head(alloc, names, at, Box::new(alloc, head)?)
        }
        _ => Err(StepFail::Refused),
    }
}

/// An attribute behind a declared name.
fn attribute_behind(
    alloc: Global,
    w: AttributeWord,
    at: u32,
    d: Box<Declared>,
) -> Result<Mode, StepFail>
    ensures { Gives result (ex.when (de.may_have_attribute (v.declared d.value)) (m.Wait (m.waitAttribute w at (m.onDeclared (v.declared d.value))))) }
{
    if may_have_attribute(&d) {
        let on = Box::new(alloc, Attributed::Declared(d))?;
        Ok(Mode::Wait(Box::new(alloc, Waiting::Attribute(w, at, on))?))
    } else {
        Err(StepFail::Refused)
    }
}

/// `[` behind a declared name.
fn array_start(alloc: Global, at: u32, d: Box<Declared>) -> Result<Mode, StepFail>
    ensures { Gives result (ex.when (de.may_be_array (v.declared d.value)) (m.Maybe (m.inBase (m.baseLength (v.declared d.value) at)))) }
{
    if may_be_array(&d) {
        Ok(Mode::Maybe(rooted(alloc, Base::Length(d, at))?))
    } else {
        Err(StepFail::Refused)
    }
}

/// `(` behind a declared name.
fn function_start(at: u32, d: Box<Declared>) -> Result<Mode, StepFail>
    ensures { Gives result (ex.when (de.may_be_function (v.declared d.value)) (m.Parameters' (v.declared d.value) at)) }
{
    if may_be_function(&d) {
        Ok(Mode::Parameters(d, at))
    } else {
        Err(StepFail::Refused)
    }
}

/// A comma behind a declared name.
fn next_name(alloc: Global, names: &mut Names, at: u32, d: Box<Declared>) -> Result<Mode, StepFail>
    ensures gives { GivesTurn result names.new (de.step_behind names.old sy.Comma at (v.declared d.value)) }
    ensures keeps { KeepsNames result names.old names.new }
{
    if may_be_whole(&d) {
        declare(alloc, names, &d)?;
        Ok(Mode::Next(with_initial(d, Initial::Nothing, 0)?, at))
    } else {
        Err(StepFail::Refused)
    }
}

/// `;` behind a declared name.
fn last_name(alloc: Global, names: &mut Names, at: u32, d: Box<Declared>) -> Result<Mode, StepFail>
    ensures gives { GivesTurn result names.new (de.step_behind names.old sy.Semicolon at (v.declared d.value)) }
    ensures keeps { KeepsNames result names.old names.new }
{
    if may_be_whole(&d) {
        declare(alloc, names, &d)?;
        end_declaration(alloc, with_initial(d, Initial::Nothing, 0)?, at)
    } else {
        Err(StepFail::Refused)
    }
}

/// Behind a declared name.
pub fn step_behind(
    alloc: Global,
    names: &mut Names,
    t: Symbol,
    at: u32,
    d: Box<Declared>,
) -> Result<Mode, StepFail>
    ensures gives { GivesTurn result names.new (de.step_behind names.old t at (v.declared d.value)) }
    ensures keeps { KeepsNames result names.old names.new }
{
    match t {
        Symbol::Open(Bracket::Round) => function_start(at, d),
        Symbol::Open(Bracket::Square) => array_start(alloc, at, d),
        Symbol::Open(Bracket::Curly) => body(alloc, names, at, d),
        Symbol::Attribute(w) => attribute_behind(alloc, w, at, d),
        Symbol::Assign(AssignOp::Plain) => initial(alloc, at, d),
        Symbol::Comma => next_name(alloc, names, at, d),
        Symbol::Semicolon => last_name(alloc, names, at, d),
        _ => Err(StepFail::Refused),
    }
}

/// A declared name is to come behind a comma.
pub fn step_next(
    alloc: Global,
    names: &Names,
    t: Symbol,
    at: u32,
    d: Declaring,
    c: u32,
) -> Result<Mode, StepFail>
    ensures { Gives result (de.step_next names.now t at (v.declaring d) c) }
{
    match t {
        Symbol::Name(n) => {
            if names.has(&n) {
                Err(StepFail::Refused)
            } else {
                declared_name(alloc, d, Some(c), n, at)
            }
        }
        _ => Err(StepFail::Refused),
    }
}

/// Behind a declared name that is whole.
pub fn step_listed(alloc: Global, t: Symbol, at: u32, d: Declaring) -> Result<Mode, StepFail>
    ensures { Gives result (de.step_listed t at (v.declaring d)) }
{
    match t {
        Symbol::Comma => Ok(Mode::Next(d, at)),
        Symbol::Semicolon => end_declaration(alloc, d, at),
        _ => Err(StepFail::Refused),
    }
}

/// The first word of the first parameter.
fn first_parameter(
    alloc: Global,
    names: &Names,
    t: Symbol,
    at: u32,
    d: Box<Declared>,
    a: u32,
) -> Result<Mode, StepFail>
    ensures { Gives result (sf.step_specs names.now t at mk.unspoken (m.aroundParameter (v.declared d.value) a (mk.tall tr.no_params 0) None)) }
{
    let row = ParamRow {
        params: Vec::new(alloc),
        height: 0,
    };
    let w = Box::new(alloc, Around::Parameter(d, a, row, None))?;
    step_specs(alloc, names, t, at, unspoken(alloc), w)
}

/// Behind the `(` of parameters.
pub fn step_parameters(
    alloc: Global,
    names: &Names,
    t: Symbol,
    at: u32,
    d: Box<Declared>,
    a: u32,
) -> Result<Mode, StepFail>
    ensures { Gives result (de.step_parameters names.now t at (v.declared d.value) a) }
{
    match t {
        Symbol::Close(b) => match b {
            Bracket::Round => function_of(alloc, d, Parameters::Unknown(a, at), 1),
            b => first_parameter(alloc, names, Symbol::Close(b), at, d, a),
        },
        Symbol::Type(w) => match w {
            TypeWord::Void => Ok(Mode::Wait(Box::new(alloc, Waiting::Void(d, a, at))?)),
            w => first_parameter(alloc, names, Symbol::Type(w), at, d, a),
        },
        t => first_parameter(alloc, names, t, at, d, a),
    }
}

/// Behind the name of a parameter.
pub fn step_parameter(
    alloc: Global,
    t: Symbol,
    at: u32,
    d: Box<Declared>,
    a: u32,
    row: ParamRow,
    c: Option<u32>,
    s: Spoken,
    n: Text,
    x: u32,
) -> Result<Mode, StepFail>
    ensures { Gives result (de.step_parameter t at (v.declared d.value) a (v.param_row row) c (v.spoken s) n x) }
{
    match t {
        Symbol::Comma => {
            let row = add_parameter(row, c, s, Some(Name { text: n, at: x }))?;
            parameters_more(alloc, d, a, row, at)
        }
        Symbol::Close(Bracket::Round) => {
            let row = add_parameter(row, c, s, Some(Name { text: n, at: x }))?;
            parameters_end(alloc, d, a, row, at)
        }
        _ => Err(StepFail::Refused),
    }
}
