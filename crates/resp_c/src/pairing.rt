//! Matches replies to commands, and finds the version in which a reply is read. It is a client
//! without values.
//!
//! The state is a few numbers in memory of the caller: the number of commands that wait before a
//! HELLO with a version, that version, and the number of commands that wait after the HELLO. At
//! most one such HELLO waits.

ghost use Rattle.std.specs.Prelude.{◌≡◌, ◌↔◌, ◌⊎◌, ℕ, ◌+◌, ◌-◌, ◌<◌, ◌≤◌, ◌^◌, true, false, List, [], ◌∷◌, length, min, eqb, None};
ghost use Rattle.resp_value.specs.Data.{Datum};
ghost use Rattle.resp_value.specs.Causes.{number_of};
ghost use Rattle.resp_value.specs.declared.cause.Cause.TheVariants as cause;
ghost use Rattle.resp_value.specs.declared.version.Version.TheVariants.{Two};
ghost use Rattle.resp_session.specs.Heard.{is_push};
ghost use Rattle.resp_session.specs.Reading.{IsUnasked, is_refusal, waiting_after};
ghost use Rattle.resp_c.specs.Answers.{bad_version, hello_waits, pushes_wait, unpaired};
ghost use Rattle.resp_c.specs.CommandKinds.{IsUnpaired};
ghost use Rattle.resp_c.specs.EventNumbers.{done_number};
ghost use Rattle.resp_c.specs.Versions.{IsVersion};
ghost use Rattle.resp_c.specs.Runs.{Begins, Ends, Shows};
ghost use Rattle.resp_c.specs.Pairs.{HasNoPushes, HasVersions, IsAsk, ask_of, before_pushes_after, is_last_push, look_of, nested_by, number_of_reply, pushes_after, reads_push, refuses_by, waiting_of, with_ask_queued};

use crate::answer::{BAD_VERSION, HELLO_WAITS, PUSHES_WAIT, UNPAIRED};
use crate::event::RespEvent;
use crate::number;
use resp_value::cause::Cause;

/// The first byte of a push.
const PUSH_BYTE: u8 = b'>';

/// The commands that wait for replies, and the state of the value that is being read.
#[repr(C)]
#[derive(Clone, Copy)]
pub struct RespPairing {
    /// The version, 2 or 3.
    pub version: u32,
    /// The version that the waiting HELLO requests, or 0 if no HELLO waits.
    pub hello: u32,
    /// The number of commands that wait before the HELLO, or of all waiting commands if no HELLO
    /// waits.
    pub before: u64,
    /// The number of commands that wait after the HELLO.
    pub beyond: u64,
    /// The number of complete replies.
    pub answered: u64,
    /// The number of open aggregates, counted from the outermost aggregate that is not an
    /// attribute.
    pub nested: u64,
    /// 1 if the last value outside of these aggregates is an error, otherwise 0.
    pub refuses: u32,
    /// The first byte of the value.
    pub first: u32,
    /// The number of missing pushes of the waiting command whose replies are pushes, or 0 if there
    /// is no such command.
    pub pushes: u64,
    /// The number of commands that wait before that command.
    pub before_pushes: u64,
}

/// Starts a pairing: no command waits, and the version is 2.
#[unsafe(no_mangle)]
pub extern "C" fn resp_pairing_init(pairing: &mut RespPairing)
    ensures waiting { waiting_of pairing.new ≡ record { version = Two; asks = [] } }
    ensures none_answered { pairing.new.answered ≡ 0 }
    ensures no_pushes { pairing.new.pushes ≡ 0 }
    ensures versions { HasVersions pairing.new }
{
    *pairing = RespPairing {
        version: 2,
        hello: 0,
        before: 0,
        beyond: 0,
        answered: 0,
        nested: 0,
        refuses: 0,
        first: 0,
        pushes: 0,
        before_pushes: 0,
    };
}

/// Returns the number of commands that wait, at most the greatest number of the type.
fn waits(pairing: &RespPairing) -> u64
    ensures { result ≡ min (length (waiting_of pairing.now).asks) (2 ^ 64 - 1) }
{
    if pairing.hello == 0 {
        return pairing.before;
    }
    let others = pairing.before.saturating_add(pairing.beyond);
    others.saturating_add(1)
}

/// Queues a command of this kind, which [`crate::command_kind::resp_command_kind`] returns. Call it
/// before or after the command's text is sent. `kind` is 0 for a command that has exactly one reply,
/// and the version for a HELLO that requests one. Sets `number` to the number of its reply, counted
/// from 1.
///
/// Returns 0, or the number of an error, and then changes nothing: 68 for a kind of commands that
/// are not paired, 64 for another kind, 67 for a HELLO while a HELLO waits, 24 if all numbers have
/// been used.
#[unsafe(no_mangle)]
pub extern "C" fn resp_pairing_queue(pairing: &mut RespPairing, kind: u32, number: &mut u64) -> u32
    ensures queued { result ≡ 0 → waiting_of pairing.new ≡
        with_ask_queued (ask_of kind) (waiting_of pairing.old) }
    ensures number { result ≡ 0 →
        number.new ≡ pairing.old.answered + length (waiting_of pairing.old).asks + 1 }
    ensures same_value { (look_of pairing.new ≡ look_of pairing.old) ×
        (number_of_reply pairing.new ≡ number_of_reply pairing.old) }
    ensures unpaired { (result ≡ unpaired) ↔ IsUnpaired kind }
    ensures bad_version { (result ≡ bad_version) ↔ ((IsAsk kind → ⊥) × (IsUnpaired kind → ⊥)) }
    ensures hello_waits { (result ≡ hello_waits) ↔ (IsAsk kind × (kind ≡ 0 → ⊥) ×
        (pairing.old.hello ≡ 0 → ⊥)) }
    ensures too_many { (result ≡ number_of cause.TooMany) ↔ (IsAsk kind × ((kind ≡ 0) ⊎ (pairing.old.hello ≡ 0)) ×
        (2 ^ 63 ≤ pairing.old.answered + length (waiting_of pairing.old).asks)) }
    ensures ok { IsAsk kind → ((kind ≡ 0) ⊎ (pairing.old.hello ≡ 0)) →
        pairing.old.answered + length (waiting_of pairing.old).asks < 2 ^ 63 → result ≡ 0 }
    ensures causes { (result ≡ 0) ⊎ (result ≡ unpaired) ⊎ (result ≡ bad_version) ⊎
        (result ≡ hello_waits) ⊎ (result ≡ number_of cause.TooMany) }
    ensures versions { HasVersions pairing.old → HasVersions pairing.new }
    ensures same_pushes { (pairing.new.pushes ≡ pairing.old.pushes) ×
        (pairing.new.before_pushes ≡ pairing.old.before_pushes) }
    ensures unchanged { (result ≡ 0 → ⊥) → (pairing.new ≡ pairing.old) ×
        (number.new ≡ number.old) }
{
    if kind == number::SUBSCRIBING || kind == number::NOT_PAIRED {
        return UNPAIRED;
    }
    if kind != 0 && kind != 2 && kind != 3 {
        return BAD_VERSION;
    }
    if kind != 0 && pairing.hello != 0 {
        return HELLO_WAITS;
    }
    let queued = pairing.answered.saturating_add(waits(pairing));
    if queued >= 1 << 63 {
        return Cause::TooMany.number();
    }
    *number = queued + 1;
    if kind != 0 {
        pairing.hello = kind;
        pairing.beyond = 0;
    } else if pairing.hello == 0 {
        pairing.before += 1;
    } else {
        pairing.beyond += 1;
    }
    0
}

/// Queues a command that gets `pushes` pushes in version 3, or one error: SUBSCRIBE, PSUBSCRIBE,
/// SSUBSCRIBE and their UN- forms, with one push for each channel. Sets `number` to its number,
/// counted from 1. Its wait ends after this many pushes that arrive while it waits first, or at a
/// reply.
///
/// Returns 0, or the number of an error, and then changes nothing: 68 for no push, in version 2 and
/// while a HELLO with a version waits, 69 while another such command waits, 24 if all numbers have
/// been used.
#[unsafe(no_mangle)]
pub extern "C" fn resp_pairing_queue_pushes(
    pairing: &mut RespPairing,
    pushes: u64,
    number: &mut u64,
) -> u32
    ensures queued { result ≡ 0 → waiting_of pairing.new ≡
        with_ask_queued None (waiting_of pairing.old) }
    ensures pushes { result ≡ 0 → (pairing.new.pushes ≡ pushes) ×
        (pairing.new.before_pushes ≡ pairing.old.before) }
    ensures number { result ≡ 0 →
        number.new ≡ pairing.old.answered + length (waiting_of pairing.old).asks + 1 }
    ensures same_value { (look_of pairing.new ≡ look_of pairing.old) ×
        (number_of_reply pairing.new ≡ number_of_reply pairing.old) }
    ensures unpaired { (result ≡ unpaired) ↔ HasNoPushes pairing.old pushes }
    ensures pushes_wait { (result ≡ pushes_wait) ↔
        ((HasNoPushes pairing.old pushes → ⊥) × (pairing.old.pushes ≡ 0 → ⊥)) }
    ensures too_many { (result ≡ number_of cause.TooMany) ↔
        ((HasNoPushes pairing.old pushes → ⊥) × (pairing.old.pushes ≡ 0) ×
        (2 ^ 63 ≤ pairing.old.answered + length (waiting_of pairing.old).asks)) }
    ensures ok { (HasNoPushes pairing.old pushes → ⊥) → pairing.old.pushes ≡ 0 →
        pairing.old.answered + length (waiting_of pairing.old).asks < 2 ^ 63 → result ≡ 0 }
    ensures versions { HasVersions pairing.old → HasVersions pairing.new }
    ensures unchanged { (result ≡ 0 → ⊥) → (pairing.new ≡ pairing.old) ×
        (number.new ≡ number.old) }
{
    if pushes == 0 || pairing.version != 3 || pairing.hello != 0 {
        return UNPAIRED;
    }
    if pairing.pushes != 0 {
        return PUSHES_WAIT;
    }
    let before = pairing.before;
    if resp_pairing_queue(pairing, number::ONE_REPLY, number) != 0 {
        return Cause::TooMany.number();
    }
    pairing.pushes = pushes;
    pairing.before_pushes = before;
    0
}

/// Receives the first byte of a value before it is read, and sets `version` to the version in which
/// the value is read.
///
/// Returns 0, or 20 (`Unasked`) for a value that is not a push while no command waits, and then
/// changes nothing.
#[unsafe(no_mangle)]
pub extern "C" fn resp_pairing_first(pairing: &mut RespPairing, byte: u8, version: &mut u32) -> u32
    ensures unasked { (beyond : List ℕ) →
        (result ≡ 0 → ⊥) ↔ IsUnasked (waiting_of pairing.old) (byte ∷ beyond) }
    ensures cause { (result ≡ 0 → ⊥) → result ≡ number_of cause.Unasked }
    ensures begins { result ≡ 0 → Begins pairing.old pairing.new byte version.new }
    ensures is_version { result ≡ 0 → HasVersions pairing.old → IsVersion version.new }
    ensures same_pushes { (pairing.new.pushes ≡ pairing.old.pushes) ×
        (pairing.new.before_pushes ≡ pairing.old.before_pushes) }
    ensures versions { HasVersions pairing.old → HasVersions pairing.new }
    ensures unchanged { (result ≡ 0 → ⊥) → (pairing.new ≡ pairing.old) ×
        (version.new ≡ version.old) }
{
    let waits_for_hello = pairing.before == 0 && pairing.hello != 0;
    if byte != PUSH_BYTE && pairing.before == 0 && !waits_for_hello {
        return Cause::Unasked.number();
    }
    *version = if waits_for_hello && pairing.version == 2 {
        pairing.hello
    } else {
        pairing.version
    };
    pairing.nested = 0;
    pairing.refuses = 0;
    pairing.first = u32::from(byte);
    0
}

/// Returns the number of open aggregates after an event.
fn nested_after(nested: u64, event: &RespEvent) -> u64
    ensures { nested < 2 ^ 64 - 1 → result ≡ nested_by nested event.now.kind event.now.form }
{
    match event.kind {
        number::OPEN if nested == 0 && event.form == number::ATTRIBUTE => 0,
        number::OPEN => nested.saturating_add(1),
        number::CLOSE => nested.saturating_sub(1),
        _ => nested,
    }
}

/// Returns 1 if the last value outside of the open aggregates is an error, after an event.
fn refuses_after(nested: u64, refuses: u32, event: &RespEvent) -> u32
    ensures { eqb result 1 ≡
        refuses_by nested (eqb refuses 1) event.now.kind event.now.form }
{
    if nested != 0 {
        return refuses;
    }
    match (event.kind, event.form) {
        (number::OPEN, number::ATTRIBUTE) => refuses,
        (number::TEXT | number::WHOLE, number::TEXT_ERROR | number::TEXT_BULK_ERROR) => 1,
        (number::OPEN | number::TEXT | number::WHOLE, _) => 0,
        (number::NULL | number::BOOL | number::INT, _) => 0,
        _ => refuses,
    }
}

/// Removes the command that a reply belongs to.
fn answer(pairing: &mut RespPairing)
    ensures waiting { (x : Datum) → is_push x ≡ false → is_refusal x ≡ eqb pairing.old.refuses 1 →
        waiting_of pairing.new ≡ waiting_after (waiting_of pairing.old) x }
    ensures answered { pairing.old.answered < 2 ^ 63 →
        pairing.new.answered ≡ pairing.old.answered + 1 }
    ensures same_value { (look_of pairing.new ≡ look_of pairing.old) ×
        (pairing.new.first ≡ pairing.old.first) }
    ensures same_pushes { (pairing.new.pushes ≡ pairing.old.pushes) ×
        (pairing.new.before_pushes ≡ pairing.old.before_pushes) }
    ensures versions { HasVersions pairing.old → HasVersions pairing.new }
{
    pairing.answered = pairing.answered.saturating_add(1);
    if pairing.before > 0 {
        pairing.before -= 1;
        return;
    }
    if pairing.hello != 0 {
        if pairing.refuses != 1 {
            pairing.version = pairing.hello;
        }
        pairing.before = pairing.beyond;
        pairing.hello = 0;
    }
}

/// Counts a complete value for the command whose replies are pushes.
fn count_for_pushes(pairing: &mut RespPairing)
    ensures pushes { (pairing.new.pushes ≡ pushes_after pairing.old) ×
        (pairing.new.before_pushes ≡ before_pushes_after pairing.old) }
    ensures same_waiting { waiting_of pairing.new ≡ waiting_of pairing.old }
    ensures same_value { (look_of pairing.new ≡ look_of pairing.old) ×
        (pairing.new.first ≡ pairing.old.first) × (pairing.new.answered ≡ pairing.old.answered) ×
        (pairing.new.refuses ≡ pairing.old.refuses) }
    ensures versions { HasVersions pairing.old → HasVersions pairing.new }
{
    let is_push = pairing.first == u32::from(PUSH_BYTE);
    if pairing.before_pushes == 0 {
        pairing.pushes = if is_push {
            pairing.pushes.saturating_sub(1)
        } else {
            0
        };
    }
    if !is_push {
        pairing.before_pushes = pairing.before_pushes.saturating_sub(1);
    }
}

/// Receives an event of the value whose first byte was received, and sets `number` to the number of
/// the reply that it belongs to, or to 0 for a push. At `RESP_DONE` the reply belongs to the first
/// command that waits. If that command is a HELLO with a version, this becomes the version, unless
/// the reply is an error. The last push of a command whose replies are pushes, if that command
/// waits first, ends its wait.
#[unsafe(no_mangle)]
pub extern "C" fn resp_pairing_take(pairing: &mut RespPairing, event: &RespEvent, number: &mut u64)
    ensures number { pairing.old.answered < 2 ^ 63 →
        number.new ≡ number_of_reply pairing.old }
    ensures shows { (event.now.kind ≡ done_number → ⊥) →
        Shows pairing.old pairing.new event.now }
    ensures ends { event.now.kind ≡ done_number → is_last_push pairing.old ≡ false →
        Ends pairing.old pairing.new (reads_push pairing.old) }
    ensures last_push { event.now.kind ≡ done_number → is_last_push pairing.old ≡ true →
        Ends pairing.old pairing.new false }
    ensures pushes { event.now.kind ≡ done_number → (pairing.new.pushes ≡ pushes_after pairing.old) ×
        (pairing.new.before_pushes ≡ before_pushes_after pairing.old) }
    ensures same_pushes { (event.now.kind ≡ done_number → ⊥) →
        (pairing.new.pushes ≡ pairing.old.pushes) ×
        (pairing.new.before_pushes ≡ pairing.old.before_pushes) }
    ensures same_byte { pairing.new.first ≡ pairing.old.first }
    ensures versions { HasVersions pairing.old → HasVersions pairing.new }
{
    let is_push = pairing.first == u32::from(PUSH_BYTE);
    *number = if is_push {
        0
    } else {
        pairing.answered.saturating_add(1)
    };
    if event.kind == number::DONE {
        let is_last = is_push && pairing.pushes == 1 && pairing.before_pushes == 0;
        count_for_pushes(pairing);
        if !is_push || is_last {
            answer(pairing);
        }
        return;
    }
    let nested = pairing.nested;
    pairing.nested = nested_after(nested, event);
    pairing.refuses = refuses_after(nested, pairing.refuses, event);
}
