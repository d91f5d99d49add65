//! The command by which the words are read: five options and nothing else.

ghost use Rattle.std.specs.Prelude.{◌≡◌, IfOk, false};
ghost use Rattle.clap.specs.Words.{app_of, rule_of};
ghost use Rattle.words.specs.Command.{option_rule, the_app};

use clap::{Arg, Command};
use std::alloc::{AllocError, Global};

/// The program's command.
pub(crate) fn command<'a>(alloc: Global) -> Result<Command<'a>, AllocError>
    ensures { IfOk result (λ c. app_of c ≡ the_app) }
{
    Command::new(alloc, "mos")
        .no_binary_name(true)
        .disable_help_flag(true)
        .arg(option(alloc, "app"))?
        .arg(option(alloc, "workers"))?
        .arg(option(alloc, "script"))?
        .arg(option(alloc, "emit"))?
        .arg(option(alloc, "make"))
}

// The option `--name`, which takes one value.
fn option<'a>(alloc: Global, name: &'a str) -> Arg<'a>
    ensures rule { rule_of result ≡ option_rule name.now }
    ensures local { result.global ≡ false }
{
    Arg::new(alloc, name).long(name)
}
