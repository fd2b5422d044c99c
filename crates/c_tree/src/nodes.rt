//! The height of a tree, in nodes on the longest way down.
//!
//! Each function calls itself once for a level of the tree, so a tree that it is called with is to be no higher
//! than the stack allows. Trees that are read from a source are at most 200 high.

ghost use Rattle.std.specs.Prelude.{◌≡◌, ◌<◌, ◌^◌, suc};
ghost use Rattle.c_tree.specs.Height as tall;
ghost use Rattle.c_tree.specs.Highest as most;
ghost use Rattle.c_tree.specs.View as seen;

use crate::tree::{
    Attribute, Body, Declaration, Declarator, Enumerator, Expr, ForHead, ForStart, Form, Function,
    Head, Initial, Item, Listed, Parameter, Parameters, Spec, Statement, Unit,
};

/// An expression's height.
#[cycle(height_of)]
#[tactic(auto, using(crate::proofs::Heights::height_Call, crate::proofs::Heights::height_Comma, crate::proofs::Heights::height_Cast, crate::proofs::Heights::height_SizeofType))]
fn height_of_expr(e: &Expr) -> u32
    requires { tall.height (seen.expr e.now) < 2 ^ 32 }
    ensures { result ≡ tall.height (seen.expr e.now) }
{
    match e {
        Expr::Name(_, _) => 1,
        Expr::Number(_, _, _) => 1,
        Expr::Letter(_, _) => 1,
        Expr::Paren(_, e, _) => 1 + height_of_expr(e),
        Expr::Call(f, _, parts, _) => 1 + height_of_expr(f).max(height_of_parts(parts)),
        Expr::Index(a, _, i, _) => 1 + height_of_expr(a).max(height_of_expr(i)),
        Expr::Postfix(e, _, _) => 1 + height_of_expr(e),
        Expr::Prefix(_, _, e) => 1 + height_of_expr(e),
        Expr::SizeofType(_, _, specs, _) => 2 + height_of_words(&specs.words),
        Expr::Cast(_, specs, _, e) => {
            1 + (1 + height_of_words(&specs.words)).max(height_of_expr(e))
        }
        Expr::Binary(a, _, _, b) => 1 + height_of_expr(a).max(height_of_expr(b)),
        Expr::Cond(c, _, a, _, b) => {
            1 + height_of_expr(c)
                .max(height_of_expr(a))
                .max(height_of_expr(b))
        }
        Expr::Assign(a, _, _, b) => 1 + height_of_expr(a).max(height_of_expr(b)),
        Expr::Comma(parts) => 1 + height_of_parts(parts),
    }
}

/// The greatest height of the parts.
#[cycle(height_of)]
#[tactic(auto, using(crate::proofs::Heights::highest_more))]
fn height_of_parts(parts: &[Listed]) -> u32
    requires { most.highest most.part_height parts.now < 2 ^ 32 }
    ensures { result ≡ most.highest most.part_height parts.now }
{
    let mut height = 0u32;
    for part in parts {
        height = height.max(height_of_expr(&part.value));
    }
    height
}

/// The greatest height of the words.
#[cycle(height_of)]
#[tactic(auto, using(crate::proofs::Heights::highest_more))]
fn height_of_words(words: &[Spec]) -> u32
    requires { most.highest most.spec_height words.now < 2 ^ 32 }
    ensures { result ≡ most.highest most.spec_height words.now }
{
    let mut height = 0u32;
    for word in words {
        height = height.max(height_of_word(word));
    }
    height
}

/// A word's height: most words are part of the node of all words.
#[cycle(height_of)]
#[tactic(auto, using(crate::proofs::Heights::height_Enum, crate::proofs::Heights::height_TagEnum))]
fn height_of_word(word: &Spec) -> u32
    requires { most.spec_height word.now < 2 ^ 32 }
    ensures { result ≡ most.spec_height word.now }
{
    match word {
        Spec::Type(_, _) => 0,
        Spec::Storage(_, _) => 0,
        Spec::Const(_, _) => 0,
        Spec::Extension(_) => 0,
        Spec::Attribute(_) => 1,
        Spec::Typedef(_, _) => 0,
        Spec::Tag(_, _, _) => 1,
        Spec::Enum(_, _, constants, _, _) => 1 + height_of_enumerators(constants),
        Spec::TagEnum(_, _, _, _, constants, _, _) => 1 + height_of_enumerators(constants),
    }
}

/// The greatest height of the constants.
#[cycle(height_of)]
#[tactic(auto, using(crate::proofs::Heights::highest_more))]
fn height_of_enumerators(constants: &[Enumerator]) -> u32
    requires { most.highest most.enumerator_height constants.now < 2 ^ 32 }
    ensures { result ≡ most.highest most.enumerator_height constants.now }
{
    let mut height = 0u32;
    for constant in constants {
        height = height.max(height_of_enumerator(constant));
    }
    height
}

/// A constant's height.
#[cycle(height_of)]
fn height_of_enumerator(constant: &Enumerator) -> u32
    requires { most.enumerator_height constant.now < 2 ^ 32 }
    ensures { result ≡ most.enumerator_height constant.now }
{
    match constant {
        Enumerator::Plain(_, _, _) => 1,
        Enumerator::Valued(_, _, _, _, e) => 1 + height_of_expr(e),
    }
}

/// An expression's height, or 0 where there is none.
fn height_of_option(e: &Option<Box<Expr>>) -> u32
    requires { tall.height_option (seen.option_expr e.now) < 2 ^ 32 }
    ensures { result ≡ tall.height_option (seen.option_expr e.now) }
{
    match e {
        None => 0,
        Some(e) => height_of_expr(e),
    }
}

/// The height of attributes, each of which is one node.
#[tactic(auto, using(crate::proofs::Heights::height_some_attributes))]
fn height_of_attributes(attributes: &[Attribute]) -> u32
    ensures { result ≡ tall.height_attributes (seen.attributes_of attributes.now) }
{
    match attributes {
        [] => 0,
        [_, ..] => 1,
    }
}

/// The greatest height of the parameters' words.
#[tactic(auto, using(crate::proofs::Heights::highest_more))]
fn height_of_parameter_list(parameters: &[Parameter]) -> u32
    requires { most.highest most.parameter_height parameters.now < 2 ^ 32 }
    ensures { result ≡ most.highest most.parameter_height parameters.now }
{
    let mut height = 0u32;
    for parameter in parameters {
        height = height.max(height_of_parameter(parameter));
    }
    height
}

/// The height of a parameter's words.
#[tactic(auto, using(crate::proofs::Heights::height_specs_of))]
fn height_of_parameter(parameter: &Parameter) -> u32
    requires { most.parameter_height parameter.now < 2 ^ 32 }
    ensures { result ≡ most.parameter_height parameter.now }
{
    1 + height_of_words(&parameter.specs.words)
}

/// The height of a function's parameters.
#[tactic(auto, using(crate::proofs::Heights::height_params_of))]
fn height_of_parameters(parameters: &Parameters) -> u32
    requires { tall.height_parameters (seen.parameters_of parameters.now) < 2 ^ 32 }
    ensures { result ≡ tall.height_parameters (seen.parameters_of parameters.now) }
{
    match parameters {
        Parameters::Unknown(_, _) => 1,
        Parameters::Void(_, _, _) => 1,
        Parameters::Some(_, list, _) => 1 + height_of_parameter_list(list),
    }
}

/// The height of what stands behind a declared name.
fn height_of_form(form: &Form) -> u32
    requires { tall.height_form (seen.form_of form.now) < 2 ^ 32 }
    ensures { result ≡ tall.height_form (seen.form_of form.now) }
{
    match form {
        Form::Plain => 0,
        Form::Array(_, e, _) => height_of_option(e),
        Form::Function(parameters) => height_of_parameters(parameters),
    }
}

/// The height of an initial value.
#[tactic(auto, using(crate::proofs::Heights::height_parts_of))]
fn height_of_initial(initial: &Initial) -> u32
    requires { tall.height_initial (seen.initial_of initial.now) < 2 ^ 32 }
    ensures { result ≡ tall.height_initial (seen.initial_of initial.now) }
{
    match initial {
        Initial::Nothing => 0,
        Initial::Value(_, e) => height_of_expr(e),
        Initial::List(_, _, parts, _, _) => 1 + height_of_parts(parts),
    }
}

/// A declared name's height.
fn height_of_declarator(declarator: &Declarator) -> u32
    requires { most.declarator_height declarator.now < 2 ^ 32 }
    ensures { result ≡ most.declarator_height declarator.now }
{
    1 + height_of_form(&declarator.form)
        .max(height_of_attributes(&declarator.attributes))
        .max(height_of_initial(&declarator.initial))
}

/// The greatest height of the declared names.
#[tactic(auto, using(crate::proofs::Heights::highest_more))]
fn height_of_declarators(declarators: &[Declarator]) -> u32
    requires { most.highest most.declarator_height declarators.now < 2 ^ 32 }
    ensures { result ≡ most.highest most.declarator_height declarators.now }
{
    let mut height = 0u32;
    for declarator in declarators {
        height = height.max(height_of_declarator(declarator));
    }
    height
}

/// A declaration's height.
#[tactic(auto, using(crate::proofs::Heights::height_specs_of, crate::proofs::Heights::height_declarators_of))]
fn height_of_declaration(declaration: &Declaration) -> u32
    requires { tall.height_declaration (seen.declaration_of declaration.now) < 2 ^ 32 }
    ensures { result ≡ tall.height_declaration (seen.declaration_of declaration.now) }
{
    1 + (1 + height_of_words(&declaration.specs.words)).max(height_of_declarators(
        &declaration.declarators,
    ))
}

/// The height of a condition.
fn height_of_head(head: &Head) -> u32
    requires { tall.height_head (seen.head_of head.now) < 2 ^ 32 }
    ensures { result ≡ tall.height_head (seen.head_of head.now) }
{
    height_of_expr(&head.condition)
}

/// The height of how a `for` begins.
fn height_of_for_start(start: &ForStart) -> u32
    requires { tall.height_for_start (seen.for_start_of start.now) < 2 ^ 32 }
    ensures { result ≡ tall.height_for_start (seen.for_start_of start.now) }
{
    match start {
        ForStart::Declaration(declaration) => height_of_declaration(declaration),
        ForStart::Expr(e, _) => height_of_option(e),
    }
}

/// The height of what stands between the brackets of a `for`.
fn height_of_for_head(head: &ForHead) -> u32
    requires { tall.height_for_head (seen.for_head_of head.now) < 2 ^ 32 }
    ensures { result ≡ tall.height_for_head (seen.for_head_of head.now) }
{
    height_of_for_start(&head.start)
        .max(height_of_option(&head.test))
        .max(height_of_option(&head.step))
}

/// A statement's height.
#[cycle(height_in)]
#[tactic(auto, using(crate::proofs::Heights::height_Block))]
fn height_of_statement(statement: &Statement) -> u32
    requires { most.statement_height statement.now < 2 ^ 32 }
    ensures { result ≡ most.statement_height statement.now }
{
    match statement {
        Statement::Declaration(declaration) => height_of_declaration(declaration),
        Statement::Block(_, statements, _) => 1 + height_of_statements(statements),
        Statement::Empty(_) => 1,
        Statement::Expr(e, _) => 1 + height_of_expr(e),
        Statement::If(head, s) => 1 + height_of_head(head).max(height_of_statement(s)),
        Statement::IfElse(head, a, _, b) => {
            1 + height_of_head(head)
                .max(height_of_statement(a))
                .max(height_of_statement(b))
        }
        Statement::While(head, s) => 1 + height_of_head(head).max(height_of_statement(s)),
        Statement::Switch(head, s) => 1 + height_of_head(head).max(height_of_statement(s)),
        Statement::Do(_, s, head, _) => 1 + height_of_statement(s).max(height_of_head(head)),
        Statement::For(head, s) => 1 + height_of_for_head(head).max(height_of_statement(s)),
        Statement::Case(_, e, _, s) => 1 + height_of_expr(e).max(height_of_statement(s)),
        Statement::Default(_, _, s) => 1 + height_of_statement(s),
        Statement::Label(_, _, _, attributes, s) => {
            1 + height_of_attributes(attributes).max(height_of_statement(s))
        }
        Statement::Goto(_, _, _, _) => 1,
        Statement::Break(_, _) => 1,
        Statement::Continue(_, _) => 1,
        Statement::Return(_, e, _) => 1 + height_of_option(e),
    }
}

/// The greatest height of the statements.
#[cycle(height_in)]
#[tactic(auto, using(crate::proofs::Heights::highest_more))]
fn height_of_statements(statements: &[Statement]) -> u32
    requires { most.highest most.statement_height statements.now < 2 ^ 32 }
    ensures { result ≡ most.highest most.statement_height statements.now }
{
    let mut height = 0u32;
    for statement in statements {
        height = height.max(height_of_statement(statement));
    }
    height
}

/// The height of a function's body.
#[tactic(auto, using(crate::proofs::Heights::height_statements_of))]
fn height_of_body(body: &Body) -> u32
    requires { tall.height_body (seen.body_of body.now) < 2 ^ 32 }
    ensures { result ≡ tall.height_body (seen.body_of body.now) }
{
    match body {
        Body::Block(_, statements, _) => 1 + height_of_statements(statements),
        Body::Skipped(_, _, _) => 1,
    }
}

/// The height of a function with a body.
#[tactic(auto, using(crate::proofs::Heights::height_specs_of))]
fn height_of_function(function: &Function) -> u32
    requires { most.function_height function.now < 2 ^ 32 }
    ensures { result ≡ most.function_height function.now }
{
    1 + (1 + height_of_words(&function.specs.words))
        .max(height_of_parameters(&function.parameters))
        .max(height_of_attributes(&function.attributes))
        .max(height_of_body(&function.body))
}

/// An item's height.
fn height_of_item(item: &Item) -> u32
    requires { most.item_height item.now < 2 ^ 32 }
    ensures { result ≡ most.item_height item.now }
{
    match item {
        Item::Skipped(_, _, _, _) => 1,
        Item::Function(function) => height_of_function(function),
        Item::Declaration(declaration) => height_of_declaration(declaration),
        Item::Empty(_) => 1,
    }
}

/// The greatest height of the items.
#[tactic(auto, using(crate::proofs::Heights::highest_more))]
fn height_of_items(items: &[Item]) -> u32
    requires { most.highest most.item_height items.now < 2 ^ 32 }
    ensures { result ≡ most.highest most.item_height items.now }
{
    let mut height = 0u32;
    for item in items {
        height = height.max(height_of_item(item));
    }
    height
}

/// The height of a tree: the nodes on its longest way down, where an item of the file is the first.
/// It takes no memory.
#[tactic(auto, using(crate::proofs::Heights::height_items_of))]
pub fn height(unit: &Unit) -> u32
    requires { tall.height_items (seen.items_of unit.now.items.items) < 2 ^ 32 }
    ensures { result ≡ tall.height_items (seen.items_of unit.now.items.items) }
{
    height_of_items(&unit.items)
}
