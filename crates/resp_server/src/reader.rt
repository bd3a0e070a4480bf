//! The reader of a session.

ghost use Rattle.std.specs.Prelude.{◌≡◌, ◌≤◌, ◌++◌, [], length, take, true, false, None, Some, IfOk, IfErr};
ghost use Rattle.std.specs.Option.{option_map};
ghost use Rattle.resp_decode.specs.Decoding.{IfNoValue, IfValue};
ghost use Rattle.resp_value.specs.Rules.{Rules, WithinTotal};
ghost use Rattle.resp_value.specs.Spellings.{IsViable};
ghost use Rattle.resp_session.specs.Answers.{BeginsNoValue, server_rules};
ghost use Rattle.resp_server.specs.Reading.{HasReadFront, ReadsBy, ReadsOn, ReadsValue, RefusesReading, WhereFrontRead};

use resp_decode::{Decoder, Fed};
use resp_scan::event::Fault;
use resp_value::cause::Cause;
use resp_value::laws as grammar;
use resp_value::limits::Limits;
use resp_value::value::Value;
use resp_value::version::Version;
use std::alloc::{AllocError, Global};
use std::marker::Model;

/// A decoder of version 2. It is allocated when a value begins and freed between two values, which
/// keeps an idle session small.
#[derive(Drop)]
pub(crate) struct Reader {
    decoder: Option<Box<Decoder>>,
}

impl Model for Reader {
    ghost use Rattle.std.specs.Coded.{codes};
    ghost use Rattle.std.specs.Option.{option_map};
    ghost use Rattle.resp_value.specs.contracts.value.Value as value;
    ghost use Rattle.resp_server.specs.Reading.{Reading};

    ghost Value = { Reading };

    ghost coded = { Prim.hlevel (codes, value.the_row.coded) };

    ghost view = { λ reader. option_map (λ decoder. decoder.value) reader.decoder };
}

impl Reader {
    /// Creates a reader that has read nothing. Does not allocate.
    pub(crate) fn new() -> Reader
        ensures no_decoder { result ≡ None }
        ensures reading { (rules : Rules) → ReadsBy rules result }
    {
        Reader { decoder: None }
    }

    /// Reads bytes of the piece, as [`Decoder::feed`] does. It may also be out of memory before the
    /// first byte of a value.
    pub(crate) fn feed(
        &mut self,
        alloc: Global,
        limits: &Limits,
        piece: &[u8],
    ) -> Result<Fed<Value>, Fault>
        requires reading { ReadsBy (server_rules limits.now) self.old }
        ensures value_whole { WhereFrontRead self.old (λ front. IfValue result (λ used.
            ReadsValue (server_rules limits.now) self.new (front ++ take used piece.now))) }
        ensures used_up { WhereFrontRead self.old (λ front. IfNoValue result
            (ReadsOn (server_rules limits.now) self.new (front ++ piece.now) piece.now)) }
        ensures refusal { WhereFrontRead self.old (λ front. IfErr result
            (RefusesReading (server_rules limits.now) front piece.now)) }
        ensures within_piece { IfOk result (λ fed. fed.used ≤ length piece.now) }
        ensures reading { ReadsBy (server_rules limits.now) self.new }
    {
        let Ok(mut decoder) = begun(self.decoder.take(), alloc, limits) else {
            return Err(Fault {
                cause: Cause::OutOfMemory,
                at: 0,
            });
        };
        let fed = decoder.feed(piece);
        self.decoder = Some(decoder);
        fed
    }

    /// Returns whether no byte of a value has been read.
    pub(crate) fn is_between(&self) -> bool
        ensures nothing_taken { result ≡ true → WhereFrontRead self.now (λ front. front ≡ []) }
        ensures some_taken { result ≡ false → HasReadFront self.now [] → ⊥ }
    {
        match &self.decoder {
            Some(decoder) => decoder.taken() == 0,
            None => true,
        }
    }

    /// Frees the decoder if no byte of a value has been read.
    pub(crate) fn shrink(&mut self)
        ensures same_taken { WhereFrontRead self.old (HasReadFront self.new) }
        ensures between { HasReadFront self.new [] → self.new ≡ None }
        ensures reading { (rules : Rules) → ReadsBy rules self.old → ReadsBy rules self.new }
    {
        if self.is_between() {
            self.decoder = None;
        }
    }

    /// Returns the number of bytes read of the current value.
    pub(crate) fn taken(&self, limits: &Limits) -> u64
        requires reading { ReadsBy (server_rules limits.now) self.now }
        ensures length_of_front { WhereFrontRead self.now (λ front. result ≡ length front) }
        ensures no_value { WhereFrontRead self.now (BeginsNoValue (server_rules limits.now)) }
        ensures viable { WhereFrontRead self.now (IsViable (server_rules limits.now) WithinTotal) }
    {
        grammar::no_spelling_is_empty();
        grammar::the_empty_text_is_viable();
        limits.are_in_range();
        match &self.decoder {
            Some(decoder) => decoder.taken(),
            None => 0,
        }
    }
}

/// Returns the decoder, or a new one if there is none.
fn begun(
    decoder: Option<Box<Decoder>>,
    alloc: Global,
    limits: &Limits,
) -> Result<Box<Decoder>, AllocError>
    requires reading { ReadsBy (server_rules limits.now)
        (option_map (λ decoder. decoder.value) decoder) }
    ensures same_taken { IfOk result (λ begun.
        WhereFrontRead (option_map (λ decoder. decoder.value) decoder) (HasReadFront (Some begun.value))) }
    ensures reading { IfOk result (λ begun.
        ReadsBy (server_rules limits.now) (Some begun.value)) }
{
    match decoder {
        Some(decoder) => Ok(decoder),
        None => Ok(Box::new(alloc, Decoder::new(alloc, Version::Two, limits))?),
    }
}
