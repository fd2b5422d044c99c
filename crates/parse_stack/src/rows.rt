ghost use Rattle.std.specs.Prelude.{◌≡◌, IfOk, Some, None};
ghost use Rattle.c_tree.specs.View.{expr, word, attributes_of, attribute_of, statement, statements_of, name_of, option_name, enumerator_behind};
ghost use Rattle.c_tree.specs.Tree as t;
ghost use Rattle.parse_machine.specs.Making as mk;
ghost use Rattle.parse_stack.specs.View as v;
ghost use Rattle.parse_stack.specs.Rows.{constant_more, declarator_more};
ghost use Rattle.parse_machine.specs.Declarations.{are_no_attributes};

use crate::parts::{DeclaratorRow, EnumRow, ParamRow, Part, PartRow, Spoken};
use crate::reduce::above;
use c_tree::{
    Attribute, Declarator, Enumerator, Known, Listed, Name, Parameter, Spec, Specs, Statement,
    Storage, Typing,
};
use std::alloc::{AllocError, Global};

/// The row with one part more.
#[tactic(auto, using(crate::proofs::Views::parts_push))]
pub fn add_part(row: PartRow, comma: Option<u32>, e: Part) -> Result<PartRow, AllocError>
    ensures { IfOk result (λ r. v.part_row r ≡ mk.one_more (v.part_row row) comma (v.part e)) }
{
    let PartRow { mut parts, height } = row;
    let Part {
        node,
        level: _,
        height: more,
    } = e;
    parts.push(Listed { comma, value: node })?;
    Ok(PartRow {
        parts,
        height: height.max(more),
    })
}

/// No words yet.
pub fn unspoken(alloc: Global) -> Spoken
    ensures { v.spoken result ≡ mk.unspoken }
{
    Spoken {
        words: Specs {
            words: Vec::new(alloc),
        },
        told: Known {
            typing: Typing::Untyped,
            storage: Storage::Unstated,
        },
        height: 0,
    }
}

/// The words with one more, which adds this to what they say.
#[tactic(auto, using(crate::proofs::Views::words_push))]
pub fn say(s: Spoken, told: Known, w: Spec, height: u32) -> Result<Spoken, AllocError>
    ensures { IfOk result (λ r. v.spoken r ≡ mk.said (v.spoken s) told (word w) height) }
{
    let Spoken {
        words: Specs { mut words },
        told: _,
        height: before,
    } = s;
    words.push(w)?;
    Ok(Spoken {
        words: Specs { words },
        told,
        height: before.max(height),
    })
}

/// The words with one more, which says nothing.
pub fn add_word(s: Spoken, w: Spec, height: u32) -> Result<Spoken, AllocError>
    ensures { IfOk result (λ r. v.spoken r ≡ mk.said (v.spoken s) s.told (word w) height) }
{
    let told = s.told;
    say(s, told, w, height)
}

/// The constants with one more.
#[tactic(auto, using(crate::proofs::Views::enumerators_push))]
pub fn add_constant(row: EnumRow, e: Enumerator, height: u32) -> Result<EnumRow, AllocError>
    ensures { IfOk result (λ r. v.enum_row r ≡ constant_more (v.enum_row row) e height) }
{
    let EnumRow {
        mut constants,
        height: before,
    } = row;
    constants.push(e)?;
    Ok(EnumRow {
        constants,
        height: before.max(height),
    })
}

/// The parameters with one more.
#[tactic(auto, using(crate::proofs::Views::params_push))]
pub fn add_parameter(
    row: ParamRow,
    comma: Option<u32>,
    s: Spoken,
    name: Option<Name>,
) -> Result<ParamRow, AllocError>
    ensures { IfOk result (λ r. v.param_row r ≡ mk.param_more (v.param_row row) comma (v.spoken s) (option_name name)) }
{
    let ParamRow { mut params, height } = row;
    let more = above(s.height);
    let Spoken {
        words,
        told: _,
        height: _,
    } = s;
    params.push(Parameter {
        comma,
        specs: words,
        name,
    })?;
    Ok(ParamRow {
        params,
        height: height.max(more),
    })
}

/// The declared names with one more.
#[tactic(auto, using(crate::proofs::Views::declarators_push))]
pub fn add_declarator(
    row: DeclaratorRow,
    d: Declarator,
    height: u32,
) -> Result<DeclaratorRow, AllocError>
    ensures { IfOk result (λ r. v.declarator_row r ≡ declarator_more (v.declarator_row row) d height) }
{
    let DeclaratorRow {
        mut declarators,
        height: before,
    } = row;
    declarators.push(d)?;
    Ok(DeclaratorRow {
        declarators,
        height: before.max(height),
    })
}

/// Whether there are no attributes.
#[tactic(auto, using(crate::proofs::StackLemmas::no_attributes_of_empty))]
pub fn has_no_attributes(attributes: &[Attribute]) -> bool
    ensures { result ≡ are_no_attributes (attributes_of attributes.now) }
{
    attributes.is_empty()
}

/// The attributes with one more.
#[tactic(auto, using(crate::proofs::Views::attributes_push))]
pub fn add_attribute(attributes: Vec<Attribute>, a: Attribute) -> Result<Vec<Attribute>, AllocError>
    ensures { IfOk result (λ r. attributes_of r.items ≡ t.attributes_and (attributes_of attributes.items) (attribute_of a)) }
{
    let mut attributes = attributes;
    attributes.push(a)?;
    Ok(attributes)
}

/// The statements with one more.
#[tactic(auto, using(crate::proofs::Views::statements_push))]
pub fn add_statement(
    statements: Vec<Statement>,
    s: Box<Statement>,
) -> Result<Vec<Statement>, AllocError>
    ensures { IfOk result (λ r. statements_of r.items ≡ t.statements_and (statements_of statements.items) (statement s.value)) }
{
    let mut statements = statements;
    statements.push(Box::into_inner(s))?;
    Ok(statements)
}
