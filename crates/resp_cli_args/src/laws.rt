//! Facts about command lines. Each function has an empty body; its contract states the fact.

ghost use Rattle.std.specs.Prelude.{false, true, codes};
ghost use Rattle.resp_cli_args.specs.Commands.{AreOptions, AreWordsForHelp, AreWrongWords, AskForNoStream, AskForThese, AskToPlay, default_limits, depth_twice, explained_loop, help_of_show, no_task, served, show_alone, too_deep};

use crate::options::Task;
use resp_value::version::Version;

/// `resp show` has the default options.
pub fn show_alone_asks_for_the_defaults()
    ensures { AskForThese show_alone (AreOptions Task.Show Version.Two default_limits 4096
        (codes "-") false) }
{}

/// `resp loop --explain` plays the script in the standard input and explains a bad line.
pub fn loop_asks_to_play()
    ensures { AskToPlay explained_loop true (codes "-") }
{}

/// Wrong words, or the words of `serve`, do not ask for a stream or a script, and `--help` asks for
/// help.
pub fn other_words_ask_for_no_options()
    ensures too_deep { AreWrongWords too_deep }
    ensures depth_twice { AreWrongWords depth_twice }
    ensures no_task { AreWrongWords no_task }
    ensures served { AskForNoStream served }
    ensures help { AreWordsForHelp help_of_show }
{}
