//! The parser of the command line.

ghost use Rattle.std.specs.Prelude.{◌≡◌, IfOk, map};
ghost use Rattle.clap.specs.Words.{App};
ghost use Rattle.resp_cli_args.specs.CommandWords.{FindsWords};
ghost use Rattle.resp_cli_args.specs.Program.{IsProgram, IsTask, bare_app};
ghost use Rattle.resp_cli_args.specs.Tables.{here, local_app, local_rule, rules_in, subcommand_app, with_subcommands};

use crate::parameter::{Parameter, add};
use crate::subcommands::subcommands;
use clap::{Arg, ArgMatches, Command};
use std::alloc::{AllocError, Global};
use std::convert::AsStr;

/// The end of the help of `resp`.
const EXAMPLES: &str = r"Examples:
  printf '*2\r\n:1\r\n+two\r\n' | resp show
  resp check --proto 3 replies.resp
  resp tap 127.0.0.1:6380 127.0.0.1:6379

'resp help <COMMAND>' prints the options and the exit status of a command.";

/// The name of a subcommand, and the texts of its help.
pub(crate) struct Texts {
    pub(crate) name: &'static str,
    pub(crate) about: &'static str,
    /// The end of its help.
    pub(crate) after_help: &'static str,
}

/// A subcommand of the program, as the parser and its help know it.
#[derive(Clone, Copy)]
pub(crate) struct Subcommand {
    pub(crate) texts: &'static Texts,
    /// Its options, and then its arguments in their order, in three parts.
    pub(crate) parameters: [&'static [Parameter]; 3],
}

impl Subcommand {
    /// Returns the subcommand for the parser.
    fn command<'a>(&self, alloc: Global) -> Result<Command<'a>, AllocError>
        ensures { IfOk result (λ command. IsTask command (subcommand_app self.now)) }
    {
        let args = self.args(alloc)?;
        Command::new(alloc, self.texts.name)
            .about(self.texts.about)
            .after_help(self.texts.after_help)
            .args(args)
    }

    /// Returns its parameters for the parser.
    fn args<'a>(&self, alloc: Global) -> Result<Vec<Arg<'a>>, AllocError>
        ensures { IfOk result (λ args. map local_rule args.items
            ≡ map here (rules_in self.now.parameters)) }
    {
        let mut args = Vec::new(alloc);
        for part in &self.parameters {
            add(alloc, &mut args, part)?;
        }
        Ok(args)
    }
}

/// Parses the words of a command line.
///
/// # Errors
///
/// The error of clap: help, a usage error, or a failed allocation.
pub(crate) fn matches_of<'a, S: AsStr>(
    alloc: Global,
    words: &'a [S],
) -> Result<ArgMatches<'a>, clap::Error>
    ensures finds { (program : App) × IsProgram program
        × FindsWords program (map S.text words.entry.now) result }
{
    program(alloc, &subcommands())?.try_get_matches_from(words)
}

/// Returns the parser: the program with these subcommands.
fn program<'a>(alloc: Global, subcommands: &[Subcommand]) -> Result<Command<'a>, AllocError>
    ensures { IfOk result (λ command. IsTask command (with_subcommands bare_app subcommands.now)) }
{
    let commands = commands(alloc, subcommands)?;
    bare_program(alloc).subcommands(commands)?.bin_name("resp")
}

/// Returns these subcommands for the parser.
fn commands<'a>(alloc: Global, subcommands: &[Subcommand]) -> Result<Vec<Command<'a>>, AllocError>
    ensures { IfOk result (λ commands. map local_app commands.items
        ≡ map here (map subcommand_app subcommands.now)) }
{
    let mut commands = Vec::new(alloc);
    for subcommand in subcommands {
        commands.push(subcommand.command(alloc)?)?;
    }
    Ok(commands)
}

/// Returns the parser of the program without subcommands.
fn bare_program<'a>(alloc: Global) -> Command<'a>
    ensures { IsTask result bare_app }
{
    Command::new(alloc, "resp")
        .version("0.3.0")
        .about("Tools for RESP2 and RESP3, the wire protocol of Redis")
        .after_help(EXAMPLES)
        .subcommand_required(true)
}
