ghost use Rattle.std.specs.Prelude.{◌≡◌};
ghost use Rattle.c_tree.specs.View as v;
ghost use Rattle.c_meaning.specs.Tokens as tok;

use c_tree::{Declaration, Parameters, Spec, Specs, Statement};

fn first_of_word(word: &Spec) -> u32
    ensures { result ≡ tok.first_of_word (v.word word.now) }
{
    match word {
        Spec::Type(_, at) => *at,
        Spec::Storage(_, at) => *at,
        Spec::Const(_, at) => *at,
        Spec::Extension(at) => *at,
        Spec::Attribute(attribute) => attribute.at,
        Spec::Typedef(_, at) => *at,
        Spec::Tag(at, _, _) => *at,
        Spec::Enum(at, _, _, _, _) => *at,
        Spec::TagEnum(at, _, _, _, _, _, _) => *at,
    }
}

/// The first token of some words.
#[tactic(auto, using(crate::proofs::Lists::first_word))]
pub fn first_of_words(specs: &Specs) -> u32
    ensures { result ≡ tok.first_of_words (v.words_of specs.now) }
{
    match specs.words.as_slice() {
        [] => 0,
        [word, ..] => first_of_word(word),
    }
}

/// The `(` of some parameters.
pub fn open_of(parameters: &Parameters) -> u32
    ensures { result ≡ tok.open_of (v.parameters_of parameters.now) }
{
    match parameters {
        Parameters::Unknown(at, _) => *at,
        Parameters::Void(at, _, _) => *at,
        Parameters::Some(at, _, _) => *at,
    }
}

/// The `)` of some parameters.
pub fn close_of(parameters: &Parameters) -> u32
    ensures { result ≡ tok.close_of (v.parameters_of parameters.now) }
{
    match parameters {
        Parameters::Unknown(_, at) => *at,
        Parameters::Void(_, _, at) => *at,
        Parameters::Some(_, _, at) => *at,
    }
}

/// The `;` of a declaration.
pub fn end_of_declaration(declaration: &Declaration) -> u32
    ensures { result ≡ tok.end_of_declaration (v.declaration_of declaration.now) }
{
    declaration.semicolon
}

/// The last token of a statement.
pub fn end_of(statement: &Statement) -> u32
    ensures { result ≡ tok.end_of (v.statement statement.now) }
{
    match statement {
        Statement::Declaration(declaration) => end_of_declaration(declaration),
        Statement::Block(_, _, at) => *at,
        Statement::Empty(at) => *at,
        Statement::Expr(_, at) => *at,
        Statement::If(_, s) => end_of(s),
        Statement::IfElse(_, _, _, s) => end_of(s),
        Statement::While(_, s) => end_of(s),
        Statement::Switch(_, s) => end_of(s),
        Statement::Do(_, _, _, at) => *at,
        Statement::For(_, s) => end_of(s),
        Statement::Case(_, _, _, s) => end_of(s),
        Statement::Default(_, _, s) => end_of(s),
        Statement::Label(_, _, _, _, s) => end_of(s),
        Statement::Goto(_, _, _, at) => *at,
        Statement::Break(_, at) => *at,
        Statement::Continue(_, at) => *at,
        Statement::Return(_, _, at) => *at,
    }
}
