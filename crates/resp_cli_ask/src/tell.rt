//! Printing one reply or push.

ghost use Rattle.std.specs.Prelude.{◌≡◌, ℕ, List, Option};
ghost use Rattle.resp_print.specs.Printed.{Prints};
ghost use Rattle.resp_print.specs.Written.{WritesText};
ghost use Rattle.resp_session.specs.Reading.{is_refusal};
ghost use Rattle.resp_value.specs.Values.{datum_of};
ghost use Rattle.resp_cli_ask.specs.Tellings.{TellsText, counted_after, errors_of, push_text, reply_text, text_of};
ghost use Rattle.resp_cli_ask.specs.Lined.{lined_text};

use crate::error::ExchangeError;
use crate::lined::text_of_lines;
use crate::telling::{ReplyForm, Telling};
use resp_client::What;
use resp_io::device::{DeviceFault, Sink};
use resp_json::value::{write_json_line, write_push_json_line};
use resp_print::print_error::PrintError;
use resp_print::text::{write_number, write_text};
use resp_print::value::{write_push_value, write_value};
use resp_value::value::{Members, Value};

/// Returns whether a reply is an error, with or without attributes in front of it.
fn is_refusal(value: &Value) -> bool
    ensures { result ≡ is_refusal (datum_of value.now) }
{
    match value.without_attributes() {
        Value::Error(_) | Value::BulkError(_) => true,
        _ => false,
    }
}

/// Returns 1 for a reply that is an error, and otherwise 0.
fn errors_of(what: &What) -> u64
    ensures { result ≡ errors_of what.now }
{
    match what {
        What::Reply { value, .. } => { if is_refusal(value) { 1 } else { 0 } }
        What::Push(_) | What::Shown | What::More => 0,
    }
}

/// Prints a reply or a push, and counts the reply if it is an error.
pub(crate) fn tell<O: Sink>(
    what: &What,
    telling: &mut Telling,
    output: &mut O,
) -> Result<(), ExchangeError>
    ensures told { TellsText (O.written output.old) (O.written output.new)
        (O.failures output.old) (O.failures output.new) result (text_of telling.old what.now) }
    ensures counted { telling.new ≡ counted_after (errors_of what.now) telling.old }
{
    let before = *telling;
    telling.errors = telling.errors.saturating_add(errors_of(what));
    match what {
        What::Reply { number, value } => write_reply(before, *number, value, output),
        What::Push(items) => write_push(before.form, items, output),
        What::Shown | What::More => Ok(()),
    }
}

/// Prints the reply to the client's command with this number.
fn write_reply<O: Sink>(
    telling: Telling,
    number: u64,
    value: &Value,
    output: &mut O,
) -> Result<(), ExchangeError>
    ensures { TellsText (O.written output.old) (O.written output.new) (O.failures output.old)
        (O.failures output.new) result (reply_text telling number (datum_of value.now)) }
{
    match telling.form {
        ReplyForm::Alone => told(write_value(value, 0, None, output)),
        ReplyForm::Lined => write_lined(value, output),
        ReplyForm::Numbered => {
            let number = number.saturating_sub(telling.before);
            match write_number(output, b"reply ", number, b"\n") {
                Ok(()) => told(write_value(value, 1, None, output)),
                Err(_) => Err(ExchangeError::Output),
            }
        }
        ReplyForm::Json => line_told(write_json_line(value, output)),
        ReplyForm::Counted => Ok(()),
    }
}

/// Prints a reply as `resp show` prints a value, or as it is if it is a text of lines.
fn write_lined<O: Sink>(value: &Value, output: &mut O) -> Result<(), ExchangeError>
    ensures { TellsText (O.written output.old) (O.written output.new) (O.failures output.old)
        (O.failures output.new) result (lined_text (datum_of value.now)) }
{
    match text_of_lines(value) {
        Some(text) => line_told(write_text(output, text)),
        None => told(write_value(value, 0, None, output)),
    }
}

/// Prints a push, as `resp show` prints a value.
fn write_push<O: Sink>(
    form: ReplyForm,
    items: &Members,
    output: &mut O,
) -> Result<(), ExchangeError>
    ensures { TellsText (O.written output.old) (O.written output.new) (O.failures output.old)
        (O.failures output.new) result (push_text form (datum_of (Value.Push items.now))) }
{
    match form {
        ReplyForm::Alone | ReplyForm::Lined | ReplyForm::Numbered => told(write_push_value(
            items, 0, None, output,
        )),
        ReplyForm::Json => line_told(write_push_json_line(items, output)),
        ReplyForm::Counted => Ok(()),
    }
}

/// Returns the result of writing a line as the result of asking.
fn line_told(written: Result<(), DeviceFault>) -> Result<(), ExchangeError>
    ensures { (before after : Option (List ℕ)) (failures failures' : ℕ) (text : List ℕ) →
        WritesText before after failures failures' written text →
        TellsText before after failures failures' result text }
{
    match written {
        Ok(()) => Ok(()),
        Err(DeviceFault) => Err(ExchangeError::Output),
    }
}

/// Returns the result of printing as the result of asking.
fn told(printed: Result<(), PrintError>) -> Result<(), ExchangeError>
    ensures { (before after : Option (List ℕ)) (failures failures' : ℕ) (text : List ℕ)
        (levels : ℕ) → Prints before after failures failures' printed text levels →
        TellsText before after failures failures' result text }
{
    match printed {
        Ok(()) => Ok(()),
        Err(PrintError::Write) => Err(ExchangeError::Output),
        Err(PrintError::TooDeep) => Err(ExchangeError::Memory),
    }
}
