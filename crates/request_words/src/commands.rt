ghost use Rattle.std.specs.Prelude.{◌≡◌, IfOk, false};
ghost use Rattle.clap.specs.Words.{app_of, rule_of};
ghost use Rattle.request_words.specs.Apps.{app_for, name_rule, option_rule, start_app};

use clap::{Arg, ArgAction};
use std::alloc::{AllocError, Global};

/// What the words begin with, where names and options follow.
#[derive(Clone, Copy)]
pub enum Command {
    Check,
    Verify,
    Replay,
    Generate,
}

/// The names and options of a command, for the words behind it.
pub(crate) fn parser_for<'a>(
    alloc: Global,
    command: Command,
) -> Result<clap::Command<'a>, AllocError>
    ensures { IfOk result (λ r. app_of r ≡ app_for command) }
{
    match command {
        Command::Check => check_parser(alloc),
        Command::Verify => verify_parser(alloc),
        Command::Replay => replay_parser(alloc),
        Command::Generate => generate_parser(alloc),
    }
}

fn check_parser<'a>(alloc: Global) -> Result<clap::Command<'a>, AllocError>
    ensures { IfOk result (λ r. app_of r ≡ app_for Command.Check) }
{
    started(alloc, "check")
        .arg(name(alloc, "source"))?
        .arg(name(alloc, "second"))?
        .arg(option(alloc, "model"))?
        .arg(option(alloc, "workers"))
}

fn verify_parser<'a>(alloc: Global) -> Result<clap::Command<'a>, AllocError>
    ensures { IfOk result (λ r. app_of r ≡ app_for Command.Verify) }
{
    started(alloc, "verify")
        .arg(name(alloc, "source"))?
        .arg(option(alloc, "model"))?
        .arg(option(alloc, "units"))?
        .arg(option(alloc, "learn"))?
        .arg(option(alloc, "workers"))?
        .arg(option(alloc, "cert"))?
        .arg(option(alloc, "run"))?
        .arg(option(alloc, "witness"))
}

fn replay_parser<'a>(alloc: Global) -> Result<clap::Command<'a>, AllocError>
    ensures { IfOk result (λ r. app_of r ≡ app_for Command.Replay) }
{
    started(alloc, "replay")
        .arg(name(alloc, "source"))?
        .arg(name(alloc, "second"))?
        .arg(option(alloc, "model"))?
        .arg(option(alloc, "turns"))
}

// The seed stands where the others have the source.
fn generate_parser<'a>(alloc: Global) -> Result<clap::Command<'a>, AllocError>
    ensures { IfOk result (λ r. app_of r ≡ app_for Command.Generate) }
{
    started(alloc, "generate").arg(name(alloc, "source"))
}

// Help is asked for by no option.
fn started<'a>(alloc: Global, command: &'a str) -> clap::Command<'a>
    ensures { app_of result ≡ start_app command.entry.now }
{
    clap::Command::new(alloc, command)
        .no_binary_name(true)
        .disable_help_flag(true)
}

fn name<'a>(alloc: Global, id: &'a str) -> Arg<'a>
    ensures rule { rule_of result ≡ name_rule id.entry.now }
    ensures local { result.global ≡ false }
{
    Arg::new(alloc, id).required(true).action(ArgAction::Set)
}

fn option<'a>(alloc: Global, id: &'a str) -> Arg<'a>
    ensures rule { rule_of result ≡ option_rule id.entry.now }
    ensures local { result.global ≡ false }
{
    Arg::new(alloc, id).long(id).action(ArgAction::Set)
}
