//! The first bytes of a command, and the commands that begin with them.

ghost use Rattle.std.specs.Prelude.{◌≡◌, ◌≢◌, ◌↔◌, ◌+◌, ◌≤◌, ◌∷◌, List, ℕ, [], drop, length, take, IfNone, IfSome, IsTrue};
ghost use Rattle.std.specs.Int.{from_le_bytes, w64};
ghost use Rattle.resp_commands.specs.Classes.{HasClass};
ghost use Rattle.resp_frames.specs.Commands.{IsFrameOfWords};
ghost use Rattle.resp_frames.specs.KnownHeads.{IsDecidedByWords};
ghost use Rattle.resp_scan.specs.Whole.{BeginsWith, BeginsWithWords};
ghost use Rattle.resp_value.specs.Words.{command_of};

use crate::frame::Frame;
use crate::words::{CommandFrame, CommandWords};
use resp_commands::{Class, entry, place};
use resp_scan::whole;
use resp_value::laws::no_spelling_is_empty;
use resp_value::limits::Limits;
use std::marker::Model;

/// The maximum number of bytes of a known head.
pub(crate) const MOST: usize = 24;

/// The maximum number of words after the name of a command whose head is known.
const ARGUMENTS: u64 = 15;

/// The number of bytes that are compared at once.
const WORD: usize = 8;

/// The first bytes of a command, up to the end of its name. All commands that begin with them have
/// the same number of words, the same class and the same place in the table.
#[derive(Clone, Copy)]
pub(crate) struct KnownHead {
    bytes: [u8; MOST],
    length: usize,
    arguments: u64,
    class: Class,
    place: u8,
}

impl Model for KnownHead {
    ghost use Rattle.std.specs.Prelude.{◌≤◌, take};
    ghost use Rattle.resp_frames.specs.KnownHeads.{HeadBytes, IsKnownHead};

    ghost Value = { HeadBytes };

    ghost view = { λ head. record {
      bytes = head.bytes;
      length = head.length;
      arguments = head.arguments;
      class = head.class;
      place = head.place;
    } };

    ghost invariant = { λ head. (8 ≤ head.length) × (head.length ≤ 24) × (head.arguments ≤ 15) ×
        IsKnownHead (take head.length head.bytes) head.arguments head.class head.place };

    ghost inverse = { λ head. record {
      bytes = head.bytes;
      length = head.length;
      arguments = head.arguments;
      class = head.class;
      place = head.place;
    } };
}

impl KnownHead {
    ghost use Rattle.resp_frames.specs.KnownHeads.{BeginsWithHeadBytes, HasBody, HasNoKnownHead};

    /// Returns the first bytes of the command at the beginning of the piece, if it has few words and
    /// they do not decide its class.
    pub(crate) fn of(piece: &[u8], limits: &Limits) -> Option<KnownHead>
        ensures head { IfSome result (λ head. BeginsWithHeadBytes head piece.now) }
        ensures none { IfNone result (HasNoKnownHead piece.now) }
    {
        limits.are_in_range();
        let array = whole::array_head(piece, limits)?;
        if array.number == 0 || array.number - 1 > ARGUMENTS {
            return None;
        }
        let name = whole::bulk_string(array.rest, limits)?;
        let length = piece.len() - name.rest.len();
        if length < WORD || length > MOST {
            return None;
        }
        let class = class_of_all(name.content)?;
        let place = place(name.content)?;
        let mut bytes = [0; MOST];
        bytes[..length].copy_from_slice(&piece[..length]);
        Some(KnownHead {
            bytes,
            length,
            arguments: array.number - 1,
            class,
            place,
        })
    }

    /// Returns the command at the beginning of the piece, if it begins with these bytes and the piece
    /// contains all of it.
    #[inline(always)]
    pub(crate) fn command<'a>(&self, piece: &'a [u8], limits: &Limits) -> Option<CommandFrame<'a>>
        ensures command { IfSome result (λ found. IsFrameOfWords limits.now [] piece.now found) }
        ensures none { IfNone result ((name : List ℕ) (arguments : List (List ℕ)) (rest : List ℕ) →
            BeginsWithHeadBytes self.now piece.now →
            BeginsWith limits.now piece.now (command_of (name ∷ arguments)) rest → ⊥) }
    {
        no_spelling_is_empty();
        limits.are_in_range();
        let body = self.body(piece)?;
        let rest = after_words(body, self.arguments, limits)?;
        let used = piece.len() - rest.len();
        if used as u64 > limits.total() {
            return None;
        }
        Some(CommandFrame {
            frame: Frame::InPiece(&piece[..used]),
            words: CommandWords {
                arguments: self.arguments,
                class: Some(self.class),
                place: Some(self.place),
            },
        })
    }

    /// Returns the bytes of the piece after these bytes, if it begins with them.
    #[inline(always)]
    fn body<'a>(&self, piece: &'a [u8]) -> Option<&'a [u8]>
        ensures body { IfSome result (λ body. HasBody self.now piece.now body.now) }
        ensures none { IfNone result (BeginsWithHeadBytes self.now piece.now → ⊥) }
    {
        let length = self.length;
        if piece.len() < length || !are_same(piece, &self.bytes, 0) {
            return None;
        }
        if !are_same(piece, &self.bytes, length - WORD) {
            return None;
        }
        if length > 2 * WORD && !are_same(piece, &self.bytes, WORD) {
            return None;
        }
        Some(&piece[length..])
    }
}

/// Returns whether the eight bytes at a place of two texts are the same.
#[inline(always)]
fn are_same(text: &[u8], other: &[u8], at: usize) -> bool
    requires { (at + 8 ≤ length text.now) × (at + 8 ≤ length other.now) }
    ensures { IsTrue result ↔ (take 8 (drop at text.now) ≡ take 8 (drop at other.now)) }
{
    word_at(text, at) == word_at(other, at)
}

/// Returns eight bytes of a text as a number.
#[inline(always)]
fn word_at(text: &[u8], at: usize) -> u64
    requires { at + 8 ≤ length text.now }
    ensures { result ≡ from_le_bytes w64 (take 8 (drop at text.now)) }
{
    u64::from_le_bytes([
        text[at],
        text[at + 1],
        text[at + 2],
        text[at + 3],
        text[at + 4],
        text[at + 5],
        text[at + 6],
        text[at + 7],
    ])
}

/// Returns the bytes after this many bulk strings, if the text begins with this many complete bulk
/// strings.
#[inline(always)]
fn after_words<'a>(text: &'a [u8], count: u64, limits: &Limits) -> Option<&'a [u8]>
    ensures begins { IfSome result (λ rest. (words : List (List ℕ)) × (length words ≡ count) ×
        BeginsWithWords limits.now.length text.now words rest.now) }
    ensures none { IfNone result ((words : List (List ℕ)) (rest : List ℕ) → length words ≡ count →
        BeginsWithWords limits.now.length text.now words rest →
        length text.now ≤ length rest + limits.now.total → ⊥) }
{
    let mut rest = text;
    for _ in 0..count {
        rest = whole::bulk_string(rest, limits)?.rest;
    }
    Some(rest)
}

/// Returns the class of all commands of this name, if the words after the name do not decide it.
fn class_of_all(name: &[u8]) -> Option<Class>
    ensures class { IfSome result (λ class. (others : List (List ℕ)) →
        HasClass name.now others class) }
    ensures none { IfNone result (IsDecidedByWords name.now) }
{
    let command = entry(name)?;
    if command.may_block || command.has_subcommands() {
        return None;
    }
    Some(command.class)
}
