//! What one instruction of flat code does to the machine and to the cells agrees. Each law is the contract of a function that does
//! nothing: a caller cites what it ensures.
#![tactic(auto)]

ghost use Rattle.code_move_laws.specs.Doing.{DeedsAreDone};
ghost use Rattle.code_move_laws.specs.Laid.{CodeIsLaid};
ghost use Rattle.code_move_laws.specs.Paths.{ChecksFail, ChecksPass};
ghost use Rattle.code_move_laws.specs.Skips.{EqualSkipsAgree, ZeroSkipsAgree};
ghost use Rattle.code_move_laws.specs.Stepping.{StepsRun};
ghost use Rattle.code_move_laws.specs.Steps.{StepsAgree};
ghost use Rattle.code_move_laws.specs.Trims.{BeginsTrim, BindsTrim, ConvertingAgrees, GraphWaySuits, StoresTrim};

/// In the layout of a code all things lie among the cells, each in cells of its own.
pub fn code_is_laid()
    ensures { CodeIsLaid }
{}

/// Where the machine goes on, the instruction's deeds lead to a store that mirrors where it went; where it meets an error, the
/// instruction's first check that fails is the one of this error.
pub fn steps_agree()
    ensures { StepsAgree }
{}

/// Of two ways on the machine takes the one that the test of a slot for 0 says.
pub fn zero_skips_agree()
    ensures { ZeroSkipsAgree }
{}

/// A slot's cell is compared with a value as the graph's way compares them.
pub fn equal_skips_agree()
    ensures { EqualSkipsAgree }
{}

/// In the graph's way a typed tree runs as in any other: no value of it tells them apart.
pub fn graph_way_suits()
    ensures { GraphWaySuits }
{}

/// Operands of the operation's kind are not changed by their conversion.
pub fn converting_agrees()
    ensures { ConvertingAgrees }
{}

/// `Store` leads to a store that mirrors the object with the value trimmed to its kind, and the slot with the value itself.
pub fn stores_trim()
    ensures { StoresTrim }
{}

/// `Begin` leads to a store that mirrors the object with all values trimmed to its kind.
pub fn begins_trim()
    ensures { BeginsTrim }
{}

/// `Bind` leads to a store that mirrors the scalar with the value trimmed to its kind.
pub fn binds_trim()
    ensures { BindsTrim }
{}

/// Where deeds lead to a store, the operations of an edge that do them lead there.
pub fn deeds_are_done()
    ensures { DeedsAreDone }
{}

/// Where no check of an instruction fails, a run goes through its nodes to the next one and does its deeds.
pub fn checks_pass()
    ensures { ChecksPass }
{}

/// Where a check of an instruction fails, a run goes to the error node of the first that does.
pub fn checks_fail()
    ensures { ChecksFail }
{}

/// A step of the machine is a run through the nodes that stand for its instruction, to the next node or to the error's.
pub fn steps_run()
    ensures { StepsRun }
{}
