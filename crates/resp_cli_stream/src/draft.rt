//! Builds the canonical text of a value from its events, without holding the value.

ghost use Rattle.std.specs.Prelude.{◌≡◌, ◌∷◌, ◌+◌, ◌++◌, [], Some, drop, is_ok, reverse, take, true, OnOk};
ghost use Rattle.resp_decode.specs.Builds.{text_value};
ghost use Rattle.resp_fronts.specs.Events as e;
ghost use Rattle.resp_scan.specs.Kinds.{text_kind_of};
ghost use Rattle.resp_encode.specs.Encodings.{head_text};
ghost use Rattle.resp_cli_stream.specs.Drafts.{AppendsKnownHead, CountsOne, WithHead};
ghost use Rattle.resp_value.specs.Canonical.{canonical_text};
ghost use Rattle.resp_value.specs.Data.{Datum, items_of};
ghost use Rattle.resp_value.specs.Kinds.{kind_of};
ghost use Rattle.resp_value.specs.Numbers.{zero_if_none};
ghost use Rattle.resp_value.specs.declared.version.Version.{Version};

use bytes::BytesMut;
use resp_encode::append;
use resp_scan::event::TextKind;
use resp_scan::listener::Listener;
use resp_value::kind::OpenKind;
use resp_value::version::Version;
use std::alloc::{AllocError, Global};

/// An aggregate whose end was not received yet.
#[derive(Clone, Copy)]
struct OpenAggregate {
    kind: OpenKind,
    /// The number in its head; `None` if it is streamed, and has no head yet.
    count: Option<u64>,
    /// The index in the text at which its head begins.
    head_at: usize,
    /// The index in the text at which its members begin.
    members_at: usize,
    /// The number of its complete members.
    members: u64,
}

impl OpenAggregate {
    /// Returns the number for its head: of pairs in a map or an attribute, of members otherwise.
    fn number(&self) -> u64
        ensures { result ≡ items_of (kind_of self.now.kind) self.now.members }
    {
        match self.kind {
            OpenKind::Map | OpenKind::Attr => self.members / 2,
            OpenKind::Array | OpenKind::Set | OpenKind::Push => self.members,
        }
    }

    /// Counts one more complete member. Returns false if a `u64` does not hold their number.
    fn count_member(&mut self) -> bool
        ensures { result ≡ true →
            self.new ≡ record self.old { members = self.old.members + 1 } }
    {
        let Some(members) = self.members.checked_add(1) else {
            return false;
        };
        self.members = members;
        true
    }
}

/// The canonical text of the value that is being read, for the events received so far.
#[derive(Drop)]
pub(crate) struct Draft {
    alloc: Global,
    version: Version,
    text: BytesMut,
    /// The open aggregates, the innermost last.
    aggregates: Vec<OpenAggregate>,
    /// The kind of the simple or bulk text, or of the big number, that is being read.
    kind: Option<TextKind>,
    /// The part of its content that was received.
    content: Vec<u8>,
}

impl Draft {
    ghost use Rattle.resp_decode.specs.Builds.{Construction, nothing};
    ghost use Rattle.resp_cli_stream.specs.Drafts.{DraftsWhereFit, HasDrafted, IsDraftOf};

    /// Returns a draft without events. It allocates nothing.
    pub(crate) fn new(alloc: Global, version: Version) -> Draft
        ensures { HasDrafted version result [] }
    {
        Draft {
            alloc,
            version,
            text: BytesMut::new(alloc),
            aggregates: Vec::new(alloc),
            kind: None,
            content: Vec::new(alloc),
        }
    }

    /// Reserves room for texts of `size` bytes, if there is memory.
    pub(crate) fn reserve(&mut self, size: usize)
        ensures same { (b : Construction) → IsDraftOf self.old b → IsDraftOf self.new b }
        ensures same_version { self.new.version ≡ self.old.version }
    {
        let _ = self.text.reserve(size);
    }

    /// Returns the text so far; of the whole value, if it is complete.
    #[inline]
    pub(crate) fn text(&self) -> &[u8]
        ensures { result.now ≡ self.now.text.items }
    {
        self.text.as_slice()
    }

    /// Begins the next value, after a complete one.
    #[inline]
    pub(crate) fn clear(&mut self)
        ensures next { (x : Datum) → IsDraftOf self.old (record nothing { whole = Some x }) →
            IsDraftOf self.new nothing }
        ensures same_version { self.new.version ≡ self.old.version }
    {
        self.text.clear();
    }

    /// Counts a complete value as a member of the innermost aggregate, if there is one. Returns
    /// true if the value was counted and its text was written.
    #[inline]
    fn end_value(&mut self, written: Result<(), AllocError>) -> bool
        ensures counted { result ≡ true → CountsOne (reverse self.old.aggregates.items)
            (reverse self.new.aggregates.items) }
        ensures same { self.new ≡ record self.old { aggregates = self.new.aggregates } }
        ensures written { result ≡ true → is_ok written ≡ true }
    {
        match self.aggregates.last_mut() {
            Some(aggregate) => aggregate.count_member() && written.is_ok(),
            None => written.is_ok(),
        }
    }

    /// Opens an aggregate, and writes its head if its number is known.
    fn open_aggregate(&mut self, kind: OpenKind, count: Option<u64>) -> Result<(), AllocError>
        ensures { DraftsWhereFit self.old self.new (e.Open (kind_of kind) count ∷ [])
            (is_ok result) }
    {
        let head_at = self.text.len();
        append_known_head(&mut self.text, kind, count)?;
        let members_at = self.text.len();
        self.aggregates.reserve(1)?;
        self.aggregates.push_reserved(OpenAggregate {
            kind,
            count,
            head_at,
            members_at,
            members: 0,
        });
        Ok(())
    }

    /// Inserts the head of an aggregate before its members, unless it is there already.
    fn put_head(&mut self, aggregate: &OpenAggregate) -> Result<(), AllocError>
        ensures text { OnOk result
            (WithHead aggregate.now self.old.text.items self.new.text.items) }
        ensures same { self.new ≡ record self.old { text = self.new.text } }
    {
        let number = aggregate.number();
        match aggregate.count {
            Some(count) if count == number => Ok(()),
            _ => self.write_head_before(aggregate, number),
        }
    }

    /// Writes the head of a streamed aggregate before its members. Its number is known only at its
    /// end.
    #[cold]
    fn write_head_before(
        &mut self,
        aggregate: &OpenAggregate,
        number: u64,
    ) -> Result<(), AllocError>
        ensures text { OnOk result (self.new.text.items ≡
            take aggregate.now.head_at self.old.text.items
            ++ (head_text (kind_of aggregate.now.kind) number
            ++ drop aggregate.now.members_at self.old.text.items)) }
        ensures same { self.new ≡ record self.old { text = self.new.text } }
    {
        let Some(members) = self.text.as_slice().get(aggregate.members_at..) else {
            return Err(AllocError);
        };
        let members = Vec::from_slice(self.alloc, members)?;
        self.text.truncate(aggregate.head_at);
        append::head(aggregate.kind, number, &mut self.text)?;
        self.text.extend_from_slice(members.as_slice())
    }
}

impl Listener for Draft {
    ghost use Rattle.resp_cli_stream.specs.Drafts.{HasDrafted};

    /// The version of the text.
    ghost Origin = { Version };

    ghost has_heard = { λ draft version. HasDrafted version draft };

    ghost has_stopped = { λ _ _ _. Unit {0} };

    fn null(&mut self) -> bool {
        let written = append::null(self.version, &mut self.text);
        self.end_value(written)
    }

    fn truth(&mut self, truth: bool) -> bool {
        let written = append::boolean(truth, &mut self.text);
        self.end_value(written)
    }

    fn int(&mut self, number: i64) -> bool {
        let written = append::int(number, &mut self.text);
        self.end_value(written)
    }

    fn text(&mut self, kind: TextKind) -> bool {
        self.kind = Some(kind);
        true
    }

    fn part(&mut self, part: &[u8]) -> bool {
        self.content.extend_from_slice(part).is_ok()
    }

    fn text_end(&mut self) -> bool {
        let Some(kind) = self.kind.take() else {
            return false;
        };
        let written = append_text(&mut self.text, kind, self.content.as_slice());
        self.content.clear();
        self.end_value(written)
    }

    fn open(&mut self, kind: OpenKind, count: Option<u64>) -> bool {
        self.open_aggregate(kind, count).is_ok()
    }

    fn close(&mut self) -> bool {
        let Some(aggregate) = self.aggregates.pop() else {
            return false;
        };
        let written = self.put_head(&aggregate);
        self.end_value(written)
    }

    fn whole_text(&mut self, kind: TextKind, bytes: &[u8]) -> bool {
        let written = append_text(&mut self.text, kind, bytes);
        self.end_value(written)
    }
}

/// Appends the head of an aggregate if its number is known.
fn append_known_head(
    text: &mut BytesMut,
    kind: OpenKind,
    count: Option<u64>,
) -> Result<(), AllocError>
    ensures { OnOk result (AppendsKnownHead (kind_of kind) count text.old.items text.new.items) }
{
    match count {
        Some(number) => append::head(kind, number, text),
        None => Ok(()),
    }
}

/// Appends the text of this kind with this content.
#[inline]
fn append_text(text: &mut BytesMut, kind: TextKind, content: &[u8]) -> Result<(), AllocError>
    ensures { (version : Version) → OnOk result (text.new.items ≡ text.old.items
        ++ canonical_text version (text_value (text_kind_of kind) content.now)) }
{
    match kind {
        TextKind::Simple => append::simple(content, text),
        TextKind::Error => append::error(content, text),
        TextKind::Double => append::double(content, text),
        TextKind::Bulk => append::bulk(content, text),
        TextKind::BulkError => append::bulk_error(content, text),
        TextKind::Verbatim(format) => append::verbatim(&format, content, text),
        TextKind::Big { negative } => append::big(negative, digits_of(content), text),
    }
}

/// Returns the digits of a big number. For zero the content is empty, and the digits are `0`.
fn digits_of(content: &[u8]) -> &[u8]
    ensures { result.now ≡ zero_if_none content.now }
{
    if content.is_empty() {
        return b"0";
    }
    content
}
