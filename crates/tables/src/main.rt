//! `tables FILE..` tries the rows of tables, each by the library that its folder is named after, and prints what came of each row that is not
//! so, and how many rows each table has. It ends with status 1 where there is such a row, and with 2 where a table is not tried to its end.
#![tactic(auto)]

use block_tables::BlockTables;
use cert_tables::CertTables;
use code_tables::CodeTables;
use diagram_tables::DiagramTables;
use gate_tables::GateTables;
use graph_walks::GraphWalks;
use number_tables::NumberTables;
use path_tables::PathTables;
use solver_tables::SolverTables;
use source_tables::SourceTables;
use std::process::ExitCode;
use std::rt::Files;
use table_rows::{Library, status_for, try_named};
use unwinding_tables::UnwindingTables;
use witness_tables::WitnessTables;

// The status for the table in the file of this name, by the library of its folder.
fn status_by<R, L: Library>(rt: &R, name: &str, mut library: L) -> u8
where
    R: AllocGlobal + Files + Print + Eprint + Clone + Drop,
    L: Drop,
{
    status_for(rt, name, library.try_rows(rt, name))
}

// Tries the table in the file of this name by the library of its folder; the status for it.
fn try_table<R>(rt: &R, name: &str) -> u8
where
    R: AllocGlobal + Files + Print + Eprint + Clone + Drop,
{
    let (library, _) = name.split_once('/').unwrap_or((name, ""));
    match library {
        "source_tables" => status_by(rt, name, SourceTables),
        "code_tables" => status_by(rt, name, CodeTables),
        "solver_tables" => status_by(rt, name, SolverTables),
        "gate_tables" => status_by(rt, name, GateTables),
        "diagram_tables" => status_by(rt, name, DiagramTables),
        "graph_walks" => status_by(rt, name, GraphWalks),
        "block_tables" => status_by(rt, name, BlockTables),
        "unwinding_tables" => status_by(rt, name, UnwindingTables),
        "cert_tables" => status_by(rt, name, CertTables),
        "number_tables" => status_by(rt, name, NumberTables),
        "witness_tables" => status_by(rt, name, WitnessTables),
        "path_tables" => status_by(rt, name, PathTables),
        _ => {
            let _ = eprintln!(rt; "{name}: no library tries this");
            2
        }
    }
}

fn main(rt: HostRuntime) -> ExitCode {
    ExitCode::from(try_named(&rt, |name| try_table(&rt, name)))
}
