//! The command line as `clap` has it.

ghost use Rattle.std.specs.Prelude.{◌≡◌, IfOk, false};
ghost use Rattle.clap.specs.Words.{app_of, rule_of};
ghost use Rattle.command_line.specs.CommandLine.{bare_app, flag_rule, option_rule, script_app};

use clap::{Arg, ArgAction, Command};
use std::alloc::{AllocError, Global};

// `--name VALUE`
fn option<'a>(alloc: Global, name: &'a str) -> Arg<'a>
    ensures rule { rule_of result ≡ option_rule name.entry.now }
    ensures local { result.global ≡ false }
{
    Arg::new(alloc, name).long(name)
}

// `--name`
fn flag<'a>(alloc: Global, name: &'a str) -> Arg<'a>
    ensures rule { rule_of result ≡ flag_rule name.entry.now }
    ensures local { result.global ≡ false }
{
    Arg::new(alloc, name).long(name).action(ArgAction::SetTrue)
}

// The program without options.
fn bare_command<'a>(alloc: Global) -> Command<'a>
    ensures { app_of result ≡ bare_app }
{
    Command::new(alloc, "crypto_script")
        .no_binary_name(true)
        .disable_help_flag(true)
        .disable_version_flag(true)
}

// The program with its options.
pub(crate) fn script_command<'a>(alloc: Global) -> Result<Command<'a>, AllocError>
    ensures { IfOk result (λ c. app_of c ≡ script_app) }
{
    let command = bare_command(alloc)
        .arg(option(alloc, "workers"))?
        .arg(flag(alloc, "trace"))?
        .arg(option(alloc, "clients"))?
        .arg(option(alloc, "load"))?
        .arg(option(alloc, "count"))?;
    Ok(command)
}
