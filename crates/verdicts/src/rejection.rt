ghost use Rattle.std.specs.Prelude.{◌≡◌, ◌++◌, ◌∷◌, [], codes, IfOk, string_bytes};
ghost use Rattle.std.specs.Fmt.{decimal};
ghost use Rattle.hex.specs.Hex.{encode_lower};
ghost use Rattle.verdicts.specs.Lines.{model_text, rejection_text};

use lv_base::{Memory, Model};
use std::alloc::Global;

/// Why a certificate is rejected. Of two numbers or values the first is the certificate's, and the second is what it is to be.
#[derive(Clone, Copy, Debug, PartialEq)]
pub enum Rejection {
    /// The first byte with which no certificate's text goes on.
    Format(u64),
    /// The hash of the source.
    OtherSource([u8; 32], [u8; 32]),
    /// The data model.
    OtherModel(Model, Model),
    /// The layout of the graph's numbers.
    Layout(u32, u32),
    /// The number of nodes.
    Nodes(u32, u32),
    /// The first term that is not well formed.
    Term(u32),
    /// The first node whose formula is no term of one bit.
    Formula(u32),
    /// The number of obligations.
    Count(u32, u32),
    /// The first obligation that is not refuted, and its first step that is not valid.
    BadStep(u32, u32),
    /// The first obligation that is not refuted: its steps do not end with the empty clause.
    NoEmpty(u32),
}

fn model_name(model: Model) -> &'static str
    ensures { result.now ≡ model_text model }
{
    match model {
        Model::Ilp32 => "ilp32",
        Model::Lp64 => "lp64",
    }
}

fn two(alloc: Global, front: &str, first: u32, second: u32) -> Result<String, Memory>
    ensures { IfOk result (λ s. string_bytes s ≡ front.now ++ (decimal first ++ (codes " " ++ (decimal second ++ 10 ∷ [])))) }
{
    Ok(format!(in alloc; "{front}{first} {second}\n")?)
}

fn one(alloc: Global, front: &str, number: u32) -> Result<String, Memory>
    ensures { IfOk result (λ s. string_bytes s ≡ front.now ++ (decimal number ++ 10 ∷ [])) }
{
    Ok(format!(in alloc; "{front}{number}\n")?)
}

fn format_line(alloc: Global, at: u64) -> Result<String, Memory>
    ensures { IfOk result (λ s. string_bytes s ≡ codes "REJECTED 1 Format " ++ (decimal at ++ 10 ∷ [])) }
{
    Ok(format!(in alloc; "REJECTED 1 Format {at}\n")?)
}

fn source_line(alloc: Global, stored: &[u8], wanted: &[u8]) -> Result<String, Memory>
    ensures { IfOk result (λ s. string_bytes s ≡ codes "REJECTED 2 OtherSource " ++ (encode_lower stored.now ++ (codes " " ++ (encode_lower wanted.now ++ 10 ∷ [])))) }
{
    let first = hex::encode(alloc, stored)?;
    let second = hex::encode(alloc, wanted)?;
    Ok(format!(in alloc; "REJECTED 2 OtherSource {first} {second}\n")?)
}

fn model_line(alloc: Global, stored: Model, wanted: Model) -> Result<String, Memory>
    ensures { IfOk result (λ s. string_bytes s ≡ codes "REJECTED 3 OtherModel " ++ (model_text stored ++ (codes " " ++ (model_text wanted ++ 10 ∷ [])))) }
{
    let (first, second) = (model_name(stored), model_name(wanted));
    Ok(format!(in alloc; "REJECTED 3 OtherModel {first} {second}\n")?)
}

/// The line of a rejection.
pub(crate) fn rejection_line(alloc: Global, rejection: &Rejection) -> Result<String, Memory>
    ensures { IfOk result (λ s. string_bytes s ≡ rejection_text rejection.now) }
{
    match rejection {
        Rejection::Format(at) => format_line(alloc, *at),
        Rejection::OtherSource(stored, wanted) => source_line(alloc, stored, wanted),
        Rejection::OtherModel(stored, wanted) => model_line(alloc, *stored, *wanted),
        Rejection::Layout(stored, wanted) => {
            two(alloc, "REJECTED 4 WrongMap layout ", *stored, *wanted)
        }
        Rejection::Nodes(stored, wanted) => {
            two(alloc, "REJECTED 4 WrongMap nodes ", *stored, *wanted)
        }
        Rejection::Term(number) => one(alloc, "REJECTED 4 WrongMap term ", *number),
        Rejection::Formula(node) => one(alloc, "REJECTED 4 WrongMap formula ", *node),
        Rejection::Count(stored, wanted) => two(alloc, "REJECTED 5 Count ", *stored, *wanted),
        Rejection::BadStep(obligation, step) => {
            two(alloc, "REJECTED 6 BadStep ", *obligation, *step)
        }
        Rejection::NoEmpty(obligation) => one(alloc, "REJECTED 7 NoEmpty ", *obligation),
    }
}
