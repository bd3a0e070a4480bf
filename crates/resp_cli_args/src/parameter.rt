//! An option or an argument of a subcommand.

ghost use Rattle.std.specs.Prelude.{◌≡◌, ◌++◌, OnOk, map};
ghost use Rattle.resp_cli_args.specs.Tables.{here, local_rule, parameter_rule};

use clap::{Arg, ArgAction};
use std::alloc::{AllocError, Global};

/// An option or an argument of a subcommand, as the parser and its help know it.
pub(crate) struct Parameter {
    /// The name by which its values are found.
    pub(crate) name: &'static str,
    pub(crate) help: &'static str,
    /// Its heading in the help, or an empty text for the usual heading.
    pub(crate) heading: &'static str,
    pub(crate) form: Form,
    /// The name of its value in help, if it has a value.
    pub(crate) value_names: &'static [&'static str],
    /// Its default value, if it has one.
    pub(crate) defaults: &'static [&'static str],
    /// Whether the help omits the default value.
    pub(crate) hides_defaults: bool,
    /// Whether it is required.
    pub(crate) is_required: bool,
}

/// A flag without a name and without help.
pub(crate) const PLAIN: Parameter = Parameter {
    name: "",
    help: "",
    heading: "",
    form: Form::Flag,
    value_names: &[],
    defaults: &[],
    hides_defaults: false,
    is_required: false,
};

/// How an option or an argument is written.
#[derive(Clone, Copy)]
pub(crate) enum Form {
    /// `--name`
    Flag,
    /// A dash and this character.
    ShortFlag(char),
    /// `--name VALUE`, with any text.
    Text,
    /// `--name VALUE`, with a number from the first number to the second.
    Between(i64, i64),
    /// `--name VALUE`, with one of the texts in this list.
    OneOf(&'static [&'static str]),
    /// A word.
    Word,
    /// A word after which no word is an option, even if it begins with a dash.
    LastBeforeRest,
    /// A word and all words after it, even if they begin with a dash.
    Rest,
}

/// Adds the arguments that the parser has for `parameters`.
pub(crate) fn add<'a>(
    alloc: Global,
    args: &mut Vec<Arg<'a>>,
    parameters: &[Parameter],
) -> Result<(), AllocError>
    ensures { OnOk result (map local_rule args.new.items ≡ map local_rule args.old.items
        ++ map here (map parameter_rule parameters.now)) }
{
    for parameter in parameters {
        args.push(arg(alloc, parameter))?;
    }
    Ok(())
}

/// Returns the argument that the parser has for `parameter`.
fn arg<'a>(alloc: Global, parameter: &Parameter) -> Arg<'a>
    ensures { local_rule result ≡ here (parameter_rule parameter.now) }
{
    below(parameter.heading, written(alloc, parameter))
}

/// Returns the argument with this heading in help, or with the usual one if the text is empty.
fn below<'a>(heading: &'static str, arg: Arg<'a>) -> Arg<'a>
    ensures { local_rule result ≡ local_rule arg.entry }
{
    if heading.is_empty() {
        return arg;
    }
    arg.help_heading(heading)
}

/// Returns the argument that the parser has for `parameter`, with the usual heading in help.
fn written<'a>(alloc: Global, parameter: &Parameter) -> Arg<'a>
    ensures { local_rule result ≡ here (parameter_rule parameter.now) }
{
    let name = parameter.name;
    let arg = Arg::new(alloc, name)
        .help(parameter.help)
        .value_names(parameter.value_names)
        .default_values(parameter.defaults)
        .hide_default_value(parameter.hides_defaults)
        .required(parameter.is_required);
    match parameter.form {
        Form::Flag => arg.long(name).action(ArgAction::SetTrue),
        Form::ShortFlag(short) => arg.short(short).action(ArgAction::SetTrue),
        Form::Text => arg.long(name),
        Form::Between(least, most) => arg
            .long(name)
            .value_parser(clap::value_parser!(u64).range(least..=most)),
        Form::OneOf(texts) => arg.long(name).value_parser(texts),
        Form::Word => arg,
        Form::LastBeforeRest => arg.trailing_var_arg(true),
        Form::Rest => arg.num_args(1..).trailing_var_arg(true),
    }
}
