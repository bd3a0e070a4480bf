//! Where values end.

ghost use Rattle.std.specs.Prelude.{◌≡◌, ◌++◌, ◌≤◌, length, take, ℕ, List, None, false, true, [], IfErr, IfNone, IfOk, IfSome, IsErrOf, OnErr, OnOk, ◌≢◌};
ghost use Rattle.resp_value.specs.Rules.{Rules, rules_under};
ghost use Rattle.resp_frames.specs.Framing.{EndsValue, EndsWithin, GoesOn, HasBegun, IsFrame, IsHeld, OnFault, RejectsIn, UsesWithin};
ghost use Rattle.resp_frames.specs.Texts.{used_of};
ghost use Rattle.resp_scan.specs.Kinds.{rules_of};
ghost use Rattle.resp_scan.specs.Listening.{HearsPiece, HearsRefusal, HearsValue, IfRefused, IfUsedUp, IfWhole};
ghost use Rattle.resp_scan.specs.Reading.{Events, HasNoValue, HasRead};

use crate::begun::{Begun, BegunValue};
use crate::error::FrameError;
use crate::frame::Frame;
use crate::heads::Heads;
use resp_flat::plain_end;
use resp_scan::event::{ScanError, Scanned};
use resp_scan::nobody::Nobody;
use resp_scan::scanner::Scanner;
use resp_value::laws::no_spelling_is_empty;
use resp_value::limits::Limits;
use resp_value::version::Version;
use std::alloc::{AllocError, Global};
use std::mem;

/// The scanner's loop of [`Frames::next`].
const ALONE: usize = 0;

/// The scanner's loop of all other calls.
const SHARED: usize = 1;

/// Finds the ends of values, for any number of connections of one version and with the same limits.
///
/// One scanner serves all connections. A connection gets it only if a piece ends inside a value.
#[derive(Drop)]
pub struct Frames {
    alloc: Global,
    pub(crate) version: Version,
    pub(crate) limits: Limits,
    pub(crate) scanner: Box<Scanner>,
    pub(crate) heads: Heads,
}

impl Frames {
    ghost use Rattle.resp_frames.specs.Framing.{IsReady, WhereBegun, frame_limits, frame_rules};

    /// Returns frames for values of this version with these limits.
    ///
    /// # Errors
    ///
    /// Fails if there is no memory for the scanner.
    pub fn new(alloc: Global, version: Version, limits: &Limits) -> Result<Frames, AllocError>
        ensures ready { IfOk result (λ frames. IsReady frames) }
        ensures rules { IfOk result (λ frames. frame_rules frames ≡ rules_under version limits.now) }
    {
        let scanner = Box::new(alloc, Scanner::new(version, limits))?;
        Ok(Frames {
            alloc,
            version,
            limits: *limits,
            scanner,
            heads: Heads::new(),
        })
    }

    /// Returns the limits on values.
    pub fn limits(&self) -> Limits
        ensures { result ≡ frame_limits self.now }
    {
        self.limits
    }

    /// Finds the end of the incomplete value of the connection, or of the value at the beginning of
    /// the piece. Returns the bytes of the value, or `None` if it does not end in the piece. Then
    /// all bytes of the piece are held. Call it again with the bytes after the value.
    ///
    /// # Errors
    ///
    /// - `Fault` at the first byte that no value within the limits could contain there.
    /// - `OutOfMemory` if an allocation fails. Only a value that is cut between pieces needs memory.
    ///
    /// The connection is between two values afterwards, and the bytes of its incomplete value are
    /// lost.
    #[inline(always)]
    pub fn next<'a>(
        &mut self,
        begun: &mut Begun,
        piece: &'a [u8],
    ) -> Result<Option<Frame<'a>>, FrameError>
        // The bytes that came since the last value are a spelling, and the next value may begin.
        ensures whole { WhereBegun self.old begun.old (λ front. EndsValue (frame_rules self.old)
            begun.new (IsFrame (frame_rules self.old) front piece.now) result) }

        // No value has ended, in any version and under any limits.
        ensures more { WhereBegun self.old begun.old (λ front. GoesOn (frame_rules self.old)
            begun.new (front ++ piece.now) result) }

        // The byte is the first that cannot follow the bytes before it, and the fault has its cause.
        ensures refused { WhereBegun self.old begun.old (λ front.
            RejectsIn (frame_rules self.old) front piece.now result) }
        ensures nothing_begun { OnErr result (HasBegun (frame_rules self.old) begun.new []) }
        ensures within { UsesWithin used_of piece.now result }
        ensures any_value { IsErrOf result FrameError.NotACommand → ⊥ }
        ensures ready { IsReady self.old → IsReady self.new }
        ensures same_rules { frame_rules self.new ≡ frame_rules self.old }
    {
        if begun.held.is_none() {
            if let Some(frame) = whole_reply(self.version, &self.limits, piece) {
                return Ok(Some(frame));
            }
            return self.begin::<ALONE>(begun, piece);
        }
        self.next_shared(begun, piece)
    }

    /// Like [`Frames::next`], with the loop that all other callers share.
    #[inline(never)]
    pub(crate) fn next_shared<'a>(
        &mut self,
        begun: &mut Begun,
        piece: &'a [u8],
    ) -> Result<Option<Frame<'a>>, FrameError>
        ensures whole { WhereBegun self.old begun.old (λ front. EndsValue (frame_rules self.old)
            begun.new (IsFrame (frame_rules self.old) front piece.now) result) }
        ensures more { WhereBegun self.old begun.old (λ front. GoesOn (frame_rules self.old)
            begun.new (front ++ piece.now) result) }
        ensures refused { WhereBegun self.old begun.old (λ front.
            RejectsIn (frame_rules self.old) front piece.now result) }
        ensures nothing_begun { OnErr result (HasBegun (frame_rules self.old) begun.new []) }
        ensures within { UsesWithin used_of piece.now result }
        ensures any_value { IsErrOf result FrameError.NotACommand → ⊥ }
        ensures ready { IsReady self.old → IsReady self.new }
        ensures same_rules { frame_rules self.new ≡ frame_rules self.old }
    {
        match begun.held.take() {
            Some(held) => resume(begun, held, piece),
            None => self.begin::<SHARED>(begun, piece),
        }
    }

    /// Like [`Frames::next`], if the connection has no incomplete value.
    #[inline(always)]
    fn begin<'a, const LOOP: usize>(
        &mut self,
        begun: &mut Begun,
        piece: &'a [u8],
    ) -> Result<Option<Frame<'a>>, FrameError>
        ensures whole { IsReady self.old → IfOk result (λ found. IfSome found (λ frame.
            IsFrame (frame_rules self.old) [] piece.now frame × (begun.new ≡ begun.old))) }
        ensures more { IsReady self.old → begun.old.held ≡ None →
            GoesOn (frame_rules self.old) begun.new piece.now result }
        ensures refused { IsReady self.old →
            RejectsIn (frame_rules self.old) [] piece.now result }
        ensures nothing_begun { OnErr result (begun.new ≡ begun.old) }
        ensures within { UsesWithin used_of piece.now result }
        ensures any_value { IsErrOf result FrameError.NotACommand → ⊥ }
        ensures ready { IsReady self.old → IsReady self.new }
        ensures same_rules { frame_rules self.new ≡ frame_rules self.old }
    {
        no_spelling_is_empty();
        let scanned = match scan::<LOOP>(&mut self.scanner, piece) {
            Ok(scanned) => scanned,
            Err(error) => {
                self.restart();
                return Err(frame_error(error));
            }
        };
        if scanned.is_whole {
            return Ok(Some(Frame::InPiece(&piece[..scanned.used])));
        }
        match self.keep(begun, piece) {
            Ok(()) => Ok(None),
            Err(AllocError) => Err(FrameError::OutOfMemory),
        }
    }

    /// Starts again between two values.
    #[inline(never)]
    fn restart(&mut self)
        ensures ready { IsReady self.new }
        ensures same_rules { frame_rules self.new ≡ frame_rules self.old }
    {
        *self.scanner = Scanner::new(self.version, &self.limits);
    }

    /// Gives the connection the scanner and the bytes of the piece that it has read, if there are any.
    #[inline(never)]
    fn keep(&mut self, begun: &mut Begun, piece: &[u8]) -> Result<(), AllocError>
        ensures held { (given : Events) → HasRead self.old.scanner.value piece.now given →
            rules_of self.old.scanner.value ≡ frame_rules self.old → begun.old.held ≡ None →
            HasNoValue piece.now →
            OnOk result (HasBegun (frame_rules self.old) begun.new piece.now) }
        ensures nothing_begun { OnErr result (begun.new ≡ begun.old) }
        ensures ready { IsReady self.new }
        ensures same_rules { frame_rules self.new ≡ frame_rules self.old }
    {
        if piece.is_empty() {
            self.restart();
            return Ok(());
        }
        match self.hold(piece) {
            Ok(held) => {
                begun.held = Some(held);
                Ok(())
            }
            Err(AllocError) => {
                self.restart();
                Err(AllocError)
            }
        }
    }

    /// Copies the bytes that the scanner has read, and returns them with the scanner. A new scanner
    /// takes its place.
    fn hold(&mut self, piece: &[u8]) -> Result<Box<BegunValue>, AllocError>
        ensures scanner { IfOk result (λ held. held.value.scanner ≡ self.old.scanner) }
        ensures bytes { IfOk result (λ held. held.value.bytes.items ≡ piece.now) }
        ensures ready { OnOk result (IsReady self.new) }
        ensures same_rules { frame_rules self.new ≡ frame_rules self.old }
    {
        let bytes = copied(self.alloc, piece, self.scanner.needed())?;
        let unused = Box::new(self.alloc, Scanner::new(self.version, &self.limits))?;
        let scanner = mem::replace(&mut self.scanner, unused);
        Ok(Box::new(self.alloc, BegunValue { scanner, bytes })?)
    }
}

/// Returns the plain reply at the beginning of the piece, if the piece contains all of it. No scanner is
/// used.
#[inline(always)]
fn whole_reply<'a>(version: Version, limits: &Limits, piece: &'a [u8]) -> Option<Frame<'a>>
    ensures { IfSome result (λ frame.
        IsFrame (rules_under version limits.now) [] piece.now frame) }
{
    let end = plain_end(version, limits, piece)?;
    Some(Frame::InPiece(&piece[..end]))
}

/// Copies the bytes of a piece. Makes room for this many further bytes, but at most for four times as
/// many as the piece has, since the head of a value may be wrong.
fn copied(alloc: Global, piece: &[u8], further: u64) -> Result<Vec<u8>, AllocError>
    ensures bytes { IfOk result (λ bytes. bytes.items ≡ piece.now) }
{
    let most = piece.len().saturating_mul(4);
    let further = usize::try_from(further).unwrap_or(most).min(most);
    let mut bytes = Vec::with_capacity(alloc, piece.len().saturating_add(further))?;
    bytes.extend_from_slice(piece)?;
    Ok(bytes)
}

/// Reads the piece up to the end of a value.
#[inline(always)]
fn scan<const LOOP: usize>(scanner: &mut Box<Scanner>, piece: &[u8]) -> Result<Scanned, ScanError>
    ensures value_whole { (front : List ℕ) (given : Events) → HasRead scanner.old.value front given →
        IfWhole result (λ used. HearsValue (rules_of scanner.old.value) scanner.new.value (λ _. Unit {0})
        (front ++ take used piece.now)) }
    ensures used_up { (front : List ℕ) (given : Events) → HasRead scanner.old.value front given →
        IfUsedUp result (HearsPiece scanner.new.value (λ _. Unit {0}) (front ++ piece.now)) }
    ensures refusal { (front : List ℕ) (given : Events) → HasRead scanner.old.value front given →
        IfRefused result (HearsRefusal (rules_of scanner.old.value) (λ _. Unit {0}) front piece.now) }
    ensures within_piece { IfOk result (λ scanned. scanned.used ≤ length piece.now) }
    ensures whole_piece { IfOk result (λ scanned.
        scanned.is_whole ≡ false → scanned.used ≡ length piece.now) }
    ensures same_rules { rules_of scanner.new.value ≡ rules_of scanner.old.value }
{
    scanner.scan(piece, &mut Nobody::<LOOP>)
}

/// Returns the error of a scan by a listener that never stops.
fn frame_error(error: ScanError) -> FrameError
    ensures fault { OnFault result (λ fault. error ≡ ScanError.Fault fault) }
    ensures any_value { result ≢ FrameError.NotACommand }
{
    match error {
        ScanError::Fault(fault) => FrameError::Fault(fault),
        ScanError::Stopped { taken: _ } => FrameError::OutOfMemory,
    }
}

/// Like [`Frames::next`], with the bytes that are held. The connection itself has no incomplete
/// value.
#[inline(never)]
fn resume<'a>(
    begun: &mut Begun,
    held: Box<BegunValue>,
    piece: &'a [u8],
) -> Result<Option<Frame<'a>>, FrameError>
    ensures whole { (rules : Rules) (front : List ℕ) → IsHeld rules held.value front →
        IfOk result (λ found. IfSome found (λ frame. IsFrame rules front piece.now frame ×
        (begun.new ≡ begun.old))) }
    ensures more { (rules : Rules) (front : List ℕ) → IsHeld rules held.value front →
        GoesOn rules begun.new (front ++ piece.now) result }
    ensures refused { (rules : Rules) (front : List ℕ) → IsHeld rules held.value front →
        RejectsIn rules front piece.now result }
    ensures nothing_begun { OnErr result (begun.new ≡ begun.old) }
    ensures within { UsesWithin used_of piece.now result }
    ensures any_value { IsErrOf result FrameError.NotACommand → ⊥ }
{
    let mut held = held;
    let scanned = match extend(&mut held, piece) {
        Ok(scanned) => scanned,
        Err(error) => return Err(error),
    };
    if scanned.is_whole {
        return Ok(Some(Frame::Held {
            used: scanned.used,
            text: bytes_of(held),
        }));
    }
    begun.held = Some(held);
    Ok(None)
}

/// Reads the piece up to the end of the value that is held, and holds the bytes that were read.
fn extend(held: &mut BegunValue, piece: &[u8]) -> Result<Scanned, FrameError>
    ensures whole { (rules : Rules) (front : List ℕ) → IsHeld rules held.old front →
        IfOk result (λ scanned. scanned.is_whole ≡ true →
        EndsWithin rules held.new front piece.now scanned.used) }
    ensures more { (rules : Rules) (front : List ℕ) → IsHeld rules held.old front →
        IfOk result (λ scanned. scanned.is_whole ≡ false →
        HasNoValue (front ++ piece.now) × IsHeld rules held.new (front ++ piece.now)) }
    ensures refused { (rules : Rules) (front : List ℕ) → IsHeld rules held.old front →
        RejectsIn rules front piece.now result }
    ensures within { IfOk result (λ scanned. scanned.used ≤ length piece.now) }
    ensures any_value { IsErrOf result FrameError.NotACommand → ⊥ }
{
    let scanned = match scan::<SHARED>(&mut held.scanner, piece) {
        Ok(scanned) => scanned,
        Err(error) => return Err(frame_error(error)),
    };
    if held
        .bytes
        .extend_from_slice(&piece[..scanned.used])
        .is_err()
    {
        return Err(FrameError::OutOfMemory);
    }
    Ok(scanned)
}

/// Returns the bytes that are held, and drops the scanner.
fn bytes_of(held: Box<BegunValue>) -> Vec<u8>
    ensures { result.items ≡ held.value.bytes.items }
{
    let BegunValue { scanner: _, bytes } = Box::into_inner(held);
    bytes
}
