//! The meaning of a line of a script.

ghost use Rattle.std.specs.Prelude.{◌≡◌, ℕ, ◌≤◌, ◌<◌, [], ◌∷◌, map, Option, Some, IfErr, IfOk, IfSome, IfNone, decimal};
ghost use Rattle.resp_value.specs.Words.{texts_of};
ghost use Rattle.resp_cli_loop.specs.Reasons.{IsNoStep, IsReason, WhereBad, parts_of_line};
ghost use Rattle.resp_cli_loop.specs.ScriptSteps.{arguments_of, asked_words, clients_words, item_word, step_name, step_words, verb_of, HasRange, IsStepInRange, IsMoved};
ghost use Rattle.resp_cli_loop.specs.Scripts.{is_passed_over, Says, SaysNothing};
ghost use Rattle.resp_session.specs.Worlds.{client_of};
ghost use Rattle.resp_wire.specs.Worlds.{event_of};

use crate::script::reasons::BadLine;
use crate::script::words::{LineFault, number_of, words_of};
use resp_value::command::Command;
use resp_value::content::Content;
use resp_value::value::{Members, Value};
use resp_value::version::Version;
use resp_wire::Event;
use std::alloc::{AllocError, Global};

/// The maximum number of clients of a script.
const MOST_CLIENTS: u64 = 16;

/// The maximum number of bytes that one event moves.
const MOST_MOVED: u64 = 1_000_000_000;

/// The meaning of a line.
#[derive(Debug, PartialEq, Eq, Drop)]
pub enum Saying {
    /// The line is skipped.
    Nothing,
    /// The number of clients.
    Clients(usize),
    /// An event; `None` is `flush`.
    Step(Option<Event>),
}

/// The first word of a line with an event.
#[derive(Clone, Copy, Debug, PartialEq, Eq)]
pub enum EventVerb {
    /// `send`
    Send,
    /// `hello`
    Hello,
    /// `server`
    Server,
    /// `client`
    Client,
    /// `push`
    Push,
    /// `drop`
    Drop,
}

/// Returns the meaning of a line. `clients` is the number of clients, if an earlier line named it.
///
/// # Errors
///
/// `Bad` with the reason if the line is not valid here, and `Memory` if an allocation fails.
pub fn said(alloc: Global, clients: Option<usize>, line: &[u8]) -> Result<Saying, LineFault>
    ensures said { IfOk result (λ said. Says clients line.now said) }
    ensures bad { IfErr result (WhereBad (λ reason. SaysNothing clients line.now)) }
    ensures reason { IfErr result (WhereBad (IsReason clients (parts_of_line line.now))) }
{
    if is_passed_over(line) {
        return Ok(Saying::Nothing);
    }
    let words = words_of(alloc, line)?;
    match clients {
        None => match clients_of(words.as_slice()) {
            Some(count) => Ok(Saying::Clients(count)),
            None => Err(LineFault::Bad(BadLine::NotClients)),
        },
        Some(clients) => match step_of(alloc, clients, words.as_slice()) {
            Ok(step) => Ok(Saying::Step(step)),
            Err(fault) => Err(fault),
        },
    }
}

/// Returns whether the line is skipped: it is empty or begins with `#`.
fn is_passed_over(line: &[u8]) -> bool
    ensures { result ≡ is_passed_over line.now }
{
    match line.first() {
        Some(byte) => *byte == b'#',
        None => true,
    }
}

/// Returns the number of clients in these words, if they are `clients N` with N from 1 to 16.
fn clients_of(words: &[&[u8]]) -> Option<usize>
    ensures clients { IfSome result (λ clients.
        (map (λ word. word.now) words.now ≡ clients_words clients) ×
        (1 ≤ clients) × (clients ≤ 16)) }
    ensures none { IfNone result ((clients : ℕ) →
        map (λ word. word.now) words.now ≡ clients_words clients → 1 ≤ clients →
        clients ≤ 16 → ⊥) }
{
    match words {
        [name, number] if *name == b"clients".as_slice() => {
            match number_of(number, MOST_CLIENTS) {
                Some(count) => Some(count as usize),
                None => None,
            }
        }
        _ => None,
    }
}

/// Returns the step of the given words, if there are `clients` clients.
fn step_of(alloc: Global, clients: usize, words: &[&[u8]]) -> Result<Option<Event>, LineFault>
    ensures step { IfOk result (λ step.
        (map (λ word. word.now) words.now ≡ step_words step) × IsStepInRange clients step) }
    ensures bad { IfErr result (WhereBad (λ reason. (step : Option Event) →
        map (λ word. word.now) words.now ≡ step_words step → IsStepInRange clients step → ⊥)) }
    ensures reason { IfErr result (WhereBad
        (IsNoStep clients (map (λ word. word.now) words.now))) }
{
    let Some((name, beyond)) = words.split_first() else {
        return Err(LineFault::Bad(BadLine::UnknownWord));
    };
    if *name == b"flush".as_slice() {
        return if beyond.is_empty() {
            Ok(None)
        } else {
            Err(LineFault::Bad(BadLine::FlushWords))
        };
    }
    let Some(verb) = verb_of(name) else {
        return Err(LineFault::Bad(BadLine::UnknownWord));
    };
    let Some((number, arguments)) = beyond.split_first() else {
        return Err(LineFault::Bad(BadLine::NoSuchClient));
    };
    let Some(client) = number_of(number, clients as u64) else {
        return Err(LineFault::Bad(BadLine::NoSuchClient));
    };
    match event_of(alloc, verb, client as usize, arguments) {
        Ok(Some(event)) => Ok(Some(event)),
        Ok(None) => Err(LineFault::Bad(BadLine::Arguments(verb))),
        Err(AllocError) => Err(LineFault::Memory),
    }
}

/// Returns the verb with this name.
fn verb_of(name: &[u8]) -> Option<EventVerb>
    ensures verb { IfSome result (λ verb. name.now ≡ step_name verb) }
    ensures none { IfNone result ((verb : EventVerb) → name.now ≡ step_name verb → ⊥) }
{
    if name == b"send".as_slice() {
        Some(EventVerb::Send)
    } else if name == b"hello".as_slice() {
        Some(EventVerb::Hello)
    } else if name == b"server".as_slice() {
        Some(EventVerb::Server)
    } else if name == b"client".as_slice() {
        Some(EventVerb::Client)
    } else if name == b"push".as_slice() {
        Some(EventVerb::Push)
    } else if name == b"drop".as_slice() {
        Some(EventVerb::Drop)
    } else {
        None
    }
}

/// Returns the event of this client with these arguments; `None` if the verb does not allow them.
fn event_of(
    alloc: Global,
    verb: EventVerb,
    client: usize,
    words: &[&[u8]],
) -> Result<Option<Event>, AllocError>
    ensures event { IfOk result (λ found. IfSome found (λ event. (verb_of event ≡ verb) ×
        (client_of (event_of event) ≡ client) ×
        (map (λ word. word.now) words.now ≡ arguments_of event) × HasRange event)) }
    ensures none { IfOk result (λ found. IfNone found ((event : Event) → verb_of event ≡ verb →
        map (λ word. word.now) words.now ≡ arguments_of event → HasRange event → ⊥)) }
{
    Ok(match verb {
        EventVerb::Send => sent(alloc, client, words)?,
        EventVerb::Hello => asked(words).map(|asked| Event::Hello(client, asked)),
        EventVerb::Server => moved(words).map(|count| Event::ToServer(client, count)),
        EventVerb::Client => moved(words).map(|count| Event::ToClient(client, count)),
        EventVerb::Push => Some(Event::Push(client, Members::new(items_of(alloc, words)?))),
        EventVerb::Drop => {
            if words.is_empty() {
                Some(Event::Drop(client))
            } else {
                None
            }
        }
    })
}

/// Returns the event that sends these words from this client; `None` if there is no word.
fn sent(alloc: Global, client: usize, words: &[&[u8]]) -> Result<Option<Event>, AllocError>
    ensures event { IfOk result (λ found. IfSome found (λ event. (verb_of event ≡ EventVerb.Send) ×
        (client_of (event_of event) ≡ client) ×
        (map (λ word. word.now) words.now ≡ arguments_of event) × HasRange event)) }
    ensures none { IfOk result (λ found. IfNone found (words.now ≡ [])) }
{
    match Command::new(copies(alloc, words)?) {
        Ok(command) => Ok(Some(Event::Send(client, command))),
        Err(_) => Ok(None),
    }
}

/// Returns the version that HELLO asks for with these arguments. The inner `None` is a HELLO
/// without a version.
fn asked(words: &[&[u8]]) -> Option<Option<Version>>
    ensures asked { IfSome result (λ asked.
        map (λ word. word.now) words.now ≡ asked_words asked) }
    ensures none { IfNone result ((asked : Option Version) →
        map (λ word. word.now) words.now ≡ asked_words asked → ⊥) }
{
    match words {
        [] => Some(None),
        [word] => {
            if *word == b"2".as_slice() {
                Some(Some(Version::Two))
            } else if *word == b"3".as_slice() {
                Some(Some(Version::Three))
            } else {
                None
            }
        }
        _ => None,
    }
}

/// Returns the number of bytes to move, if there is one word and it is such a number.
fn moved(words: &[&[u8]]) -> Option<u64>
    ensures moved { IfSome result (λ count.
        (map (λ word. word.now) words.now ≡ decimal count ∷ []) × IsMoved count) }
    ensures none { IfNone result ((count : ℕ) →
        map (λ word. word.now) words.now ≡ decimal count ∷ [] → IsMoved count → ⊥) }
{
    match words {
        [word] => number_of(word, MOST_MOVED),
        _ => None,
    }
}

/// Copies the words, each into memory of its own.
fn copies(alloc: Global, words: &[&[u8]]) -> Result<Vec<Vec<u8>>, AllocError>
    ensures { IfOk result (λ copies. texts_of copies.items ≡ map (λ word. word.now) words.now) }
{
    let mut copies = Vec::new(alloc);
    for word in words {
        copies.push(Vec::from_slice(alloc, word)?)?;
    }
    Ok(copies)
}

/// Copies the words, each into a bulk string.
fn items_of(alloc: Global, words: &[&[u8]]) -> Result<Vec<Value>, AllocError>
    ensures { IfOk result (λ items. map item_word items.items ≡ map (λ word. word.now) words.now) }
{
    let mut items = Vec::new(alloc);
    for word in words {
        let content = Content::new(Vec::from_slice(alloc, word)?);
        items.push(Value::Bulk(content))?;
    }
    Ok(items)
}
