//! The lines of an answer.

ghost use Rattle.std.specs.Prelude.{◌≡◌, ◌++◌, IfOk, string_bytes};
ghost use Rattle.prop.specs.Trues.{listed};
ghost use Rattle.dimacs.specs.Dimacs.{text_of, value_lines, count_lines};

use crate::answering::Told;
use prop::Assignment;
use std::alloc::{AllocError, Global};

// A line for each variable: the variable where it is true, else its negation.
fn put_values(lines: &mut String, vars: &[u32], values: &Assignment) -> Result<(), AllocError>
    ensures { IfOk result (λ _. string_bytes lines.new ≡ string_bytes lines.old ++ value_lines (listed values.now) vars.now) }
{
    for var in vars {
        if values.value(*var) {
            write!(lines, "v {var}\n")?;
        } else {
            write!(lines, "v -{var}\n")?;
        }
    }
    write!(lines, "v 0\n")
}

// How many chains the log has, and how many pairs they have together.
fn put_counts(lines: &mut String, chains: u64, pairs: u64) -> Result<(), AllocError>
    ensures { IfOk result (λ _. string_bytes lines.new ≡ string_bytes lines.old ++ count_lines chains pairs) }
{
    write!(lines, "c chains {chains}\nc pairs {pairs}\n")
}

/// The lines of an answer, for clauses over these variables.
pub fn text(alloc: Global, vars: &[u32], told: &Told) -> Result<String, AllocError>
    ensures { IfOk result (λ t. string_bytes t ≡ text_of vars.now told.now) }
{
    let mut lines = String::new(alloc);
    match told {
        Told::Satisfiable(values) => {
            write!(lines, "s SATISFIABLE\n")?;
            put_values(&mut lines, vars, values)?;
            Ok(lines)
        }
        Told::Unsatisfiable(chains, pairs) => {
            put_counts(&mut lines, *chains, *pairs)?;
            write!(lines, "s UNSATISFIABLE\n")?;
            Ok(lines)
        }
        Told::Unknown(chains, pairs) => {
            put_counts(&mut lines, *chains, *pairs)?;
            write!(lines, "s UNKNOWN\n")?;
            Ok(lines)
        }
    }
}
