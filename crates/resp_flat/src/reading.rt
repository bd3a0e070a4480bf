//! Reads one plain reply.

ghost use Rattle.std.specs.Prelude.{◌≡◌, ◌+◌, ◌-◌, ◌<◌, ◌^◌, ◌≤◌, IfNone, IfErr, IfOk, IfSome, ℕ, drop, length, set, take};
ghost use Rattle.resp_value.specs.Data.{Datum, Kind, items_of, members_of};
ghost use Rattle.resp_value.specs.Data.{Array as DataArray};
ghost use Rattle.resp_value.specs.Kinds.{kind_of};
ghost use Rattle.resp_value.specs.LocalRules.{IsNoPushBelow};
ghost use Rattle.resp_value.specs.Rules.{rules_under};
ghost use Rattle.resp_value.specs.Spellings.{IsSpelling};
ghost use Rattle.resp_value.specs.Trees.{kind_byte};
ghost use Rattle.resp_value.specs.declared.version.Version.TheVariants.{Two};
ghost use Rattle.resp_value.specs.declared.kind.OpenKind.TheVariants.{Array};
ghost use Rattle.resp_flat.specs.Numbers.{kind_form};
ghost use Rattle.resp_flat.specs.declared.reading.Unread.TheVariants.{NoNodes, NoReply};
ghost use Rattle.resp_flat.specs.Plain.{BeginsWithPlain, HasAggregate, HasLeaf, IsHeadAt, IsPlain, IsValueAt, LacksNodes};

use crate::heads::number_line;
use crate::leaves::leaf_at;
use crate::node::{Node, aggregate};
use resp_value::kind::OpenKind;
use resp_value::limits::Limits;
use resp_value::version::Version;

/// The index after a value that was read, and the number of nodes that are filled.
#[derive(Clone, Copy, Debug)]
pub struct Filled {
    /// The index after the value.
    pub end: usize,
    /// The number of nodes, with those before the value.
    pub count: usize,
}

/// Why [`plain`] has read no reply.
#[derive(Clone, Copy, Debug, PartialEq, Eq)]
pub enum Unread {
    /// A complete plain reply is there, but it has more nodes than are left.
    NoNodes,
    /// No complete plain reply is there.
    NoReply,
}

/// The greatest number of aggregates around a value that is read.
const DEPTH: u64 = 16;

/// The head of an aggregate: its kind, the number of its members, and the index after it.
#[derive(Clone, Copy)]
struct AggregateHead {
    kind: OpenKind,
    members: u64,
    end: usize,
}

/// Returns the kind of aggregate that begins with this byte, if the version has it this deep in
/// others.
#[inline(always)]
fn kind_of_byte(version: Version, byte: u8, level: u64) -> Option<OpenKind>
    ensures kind { IfSome result (λ kind. byte ≡ kind_byte (kind_of kind)) }
    ensures in_version { IfSome result (λ kind. version ≡ Two → kind ≡ Array) }
    ensures no_push { IfSome result (λ kind. IsNoPushBelow level (kind_of kind)) }
    ensures none { IfNone result ((kind : Kind) → byte ≡ kind_byte kind →
        (version ≡ Two → kind ≡ DataArray) → IsNoPushBelow level kind → ⊥) }
{
    if byte == b'*' {
        return Some(OpenKind::Array);
    }
    if version == Version::Two {
        return None;
    }
    match byte {
        b'%' => Some(OpenKind::Map),
        b'~' => Some(OpenKind::Set),
        b'|' => Some(OpenKind::Attr),
        b'>' if level == 0 => Some(OpenKind::Push),
        _ => None,
    }
}

/// Returns the number of members of an aggregate with this number in its head.
#[inline(always)]
fn members(kind: OpenKind, number: u64) -> u64
    requires { number < 2 ^ 60 }
    ensures members { result ≡ members_of (kind_of kind) number }
    ensures items { items_of (kind_of kind) result ≡ number }
    ensures few { result < 2 ^ 62 }
{
    match kind {
        OpenKind::Array | OpenKind::Set | OpenKind::Push => number,
        OpenKind::Map => number + number,
        OpenKind::Attr => number + number + 1,
    }
}

/// Returns the number of a kind of aggregate.
#[inline(always)]
fn form(kind: OpenKind) -> u8
    ensures { result ≡ kind_form (kind_of kind) }
{
    match kind {
        OpenKind::Array => 0,
        OpenKind::Set => 1,
        OpenKind::Map => 2,
        OpenKind::Attr => 3,
        OpenKind::Push => 4,
    }
}

/// Reads the head of an aggregate, which is this deep in others.
#[inline(always)]
fn head_at(
    version: Version,
    limits: &Limits,
    buffer: &[u8],
    at: usize,
    level: u64,
) -> Option<AggregateHead>
    ensures found { IfSome result (λ head. IsHeadAt (rules_under version limits.now) level
        buffer.now at head.kind head.members head.end) }
    ensures none { IfNone result
        (HasAggregate (rules_under version limits.now) level buffer.now at → ⊥) }
{
    if at >= buffer.len() || level >= limits.depth() {
        return None;
    }
    let kind = kind_of_byte(version, buffer[at], level)?;
    let found = number_line(buffer, at + 1, limits.items())?;
    Some(AggregateHead {
        kind,
        members: members(kind, found.number),
        end: found.end,
    })
}

/// Sets the node at this place, if there is one.
#[inline(always)]
fn put(nodes: &mut [Node], place: usize, node: Node)
    ensures { nodes.new ≡ set nodes.old place node }
{
    if place < nodes.len() {
        nodes[place] = node;
    }
}

/// Reads the value without members at this index. Sets its node, if there is room.
#[inline(always)]
fn leaf_into(
    version: Version,
    limits: &Limits,
    buffer: &[u8],
    filled: Filled,
    nodes: &mut [Node],
) -> Option<Filled>
    requires { filled.count ≤ length nodes.now + filled.end }
    ensures value { (level : ℕ) → IfSome result (λ found. IsValueAt (rules_under version limits.now)
        level buffer.now filled found nodes.old nodes.new) }
    ensures none { IfNone result ((level : ℕ) →
        HasLeaf (rules_under version limits.now) level buffer.now filled.end → ⊥) }
    ensures kept { take filled.count nodes.new ≡ take filled.count nodes.old }
    ensures same_room { length nodes.new ≡ length nodes.old }
{
    let found = leaf_at(version, limits, buffer, filled.end)?;
    put(nodes, filled.count, found.node);
    Some(Filled {
        end: found.end,
        count: filled.count + 1,
    })
}

/// Reads the aggregate at this index, which is this deep in others. Sets those of its nodes for which
/// there is room.
fn aggregate_at(
    version: Version,
    limits: &Limits,
    buffer: &[u8],
    filled: Filled,
    level: u64,
    nodes: &mut [Node],
) -> Option<Filled>
    requires { filled.count ≤ length nodes.now + filled.end }
    ensures value { IfSome result (λ found. IsValueAt (rules_under version limits.now) level
        buffer.now filled found nodes.old nodes.new) }
    ensures none { IfNone result
        (HasAggregate (rules_under version limits.now) level buffer.now filled.end → ⊥) }
    ensures kept { take filled.count nodes.new ≡ take filled.count nodes.old }
    ensures same_room { length nodes.new ≡ length nodes.old }
{
    let count = filled.count;
    if level >= DEPTH {
        return None;
    }
    let head = head_at(version, limits, buffer, filled.end, level)?;
    let mut inner = Filled {
        end: head.end,
        count: count + 1,
    };
    for _ in 0..head.members {
        if let Some(next) = leaf_into(version, limits, buffer, inner, nodes) {
            inner = next;
            continue;
        }
        inner = aggregate_at(version, limits, buffer, inner, level + 1, nodes)?;
    }
    let size = inner.count.saturating_sub(count);
    put(
        nodes,
        count,
        aggregate(form(head.kind), head.members as usize, size),
    );
    Some(inner)
}

/// Reads the plain aggregate at this index, as [`plain`] does.
#[inline(always)]
fn aggregate_reply(
    version: Version,
    limits: &Limits,
    buffer: &[u8],
    filled: Filled,
    nodes: &mut [Node],
) -> Result<Filled, Unread>
    requires { HasLeaf (rules_under version limits.now) 0 buffer.now filled.end → ⊥ }
    ensures reply { IfOk result (λ found. IsPlain (rules_under version limits.now) buffer.now
        filled found nodes.old nodes.new) }
    ensures no_nodes { IfErr result (λ why. why ≡ NoNodes → LacksNodes
        (rules_under version limits.now) (drop filled.end buffer.now)
        (length nodes.new - filled.count)) }
    ensures no_reply { IfErr result (λ why. why ≡ NoReply →
        BeginsWithPlain (rules_under version limits.now) (drop filled.end buffer.now) → ⊥) }
    ensures kept { take filled.count nodes.new ≡ take filled.count nodes.old }
    ensures same_room { length nodes.new ≡ length nodes.old }
{
    let before = Filled {
        end: filled.end,
        count: filled.count.min(nodes.len()),
    };
    let Some(found) = aggregate_at(version, limits, buffer, before, 0, nodes) else {
        return Err(Unread::NoReply);
    };
    if (found.end - filled.end) as u64 > limits.total() {
        return Err(Unread::NoReply);
    }
    if found.count > nodes.len() {
        return Err(Unread::NoNodes);
    }
    Ok(found)
}

/// Reads the plain reply at this index. Sets those of its nodes for which there is room.
#[inline(always)]
fn reply_at(
    version: Version,
    limits: &Limits,
    buffer: &[u8],
    filled: Filled,
    nodes: &mut [Node],
) -> Option<Filled>
    requires { filled.count ≤ length nodes.now }
    ensures value { IfSome result (λ found. IsValueAt (rules_under version limits.now) 0 buffer.now
        filled found nodes.old nodes.new) }
    ensures fits { IfSome result (λ found. (filled.end < found.end) ×
        (found.end - filled.end ≤ limits.now.total)) }
    ensures none { IfNone result (BeginsWithPlain (rules_under version limits.now)
        (drop filled.end buffer.now) → ⊥) }
    ensures kept { take filled.count nodes.new ≡ take filled.count nodes.old }
    ensures same_room { length nodes.new ≡ length nodes.old }
{
    let found = match leaf_into(version, limits, buffer, filled, nodes) {
        Some(found) => found,
        None => aggregate_at(version, limits, buffer, filled, 0, nodes)?,
    };
    if (found.end - filled.end) as u64 > limits.total() {
        return None;
    }
    Some(found)
}

/// Reads the plain reply at this index of the buffer. Fills the nodes after those that are filled.
///
/// A plain reply has no streamed string or aggregate, no big number and no integer with a `+`, and at
/// most 16 aggregates inside one another.
///
/// # Errors
///
/// [`Unread::NoReply`] if no complete plain reply within the limits is there. [`Unread::NoNodes`] if one
/// is there and has more nodes than are left after those that are filled. The nodes that are filled keep
/// their values, and the others have no meaning.
#[inline(always)]
pub fn plain(
    version: Version,
    limits: &Limits,
    buffer: &[u8],
    filled: Filled,
    nodes: &mut [Node],
) -> Result<Filled, Unread>
    // The bytes up to the index are a spelling of a value, and its nodes follow those that are filled.
    ensures reply { IfOk result (λ found. IsPlain (rules_under version limits.now) buffer.now
        filled found nodes.old nodes.new) }
    // A plain reply is there, and it has more nodes than are left.
    ensures no_nodes { IfErr result (λ why. why ≡ NoNodes → LacksNodes
        (rules_under version limits.now) (drop filled.end buffer.now)
        (length nodes.new - filled.count)) }
    // No spelling of a plain reply is there.
    ensures no_reply { IfErr result (λ why. why ≡ NoReply →
        BeginsWithPlain (rules_under version limits.now) (drop filled.end buffer.now) → ⊥) }
    ensures kept { take filled.count nodes.new ≡ take filled.count nodes.old }
    ensures same_room { length nodes.new ≡ length nodes.old }
{
    let Some(leaf) = leaf_at(version, limits, buffer, filled.end) else {
        return aggregate_reply(version, limits, buffer, filled, nodes);
    };
    if (leaf.end - filled.end) as u64 > limits.total() {
        return Err(Unread::NoReply);
    }
    if filled.count >= nodes.len() {
        return Err(Unread::NoNodes);
    }
    nodes[filled.count] = leaf.node;
    Ok(Filled {
        end: leaf.end,
        count: filled.count + 1,
    })
}

/// Returns the index after the plain reply at the beginning of some bytes, or `None` if no complete plain
/// reply within the limits is there. [`plain`] says which replies are plain.
pub fn plain_end(version: Version, limits: &Limits, bytes: &[u8]) -> Option<usize>
    // The bytes up to the index are a spelling of a value.
    ensures reply { IfSome result (λ end. (value : Datum) ×
        IsSpelling (rules_under version limits.now) value (take end bytes.now)) }
    ensures within { IfSome result (λ end. (0 < end) × (end ≤ length bytes.now)) }
    // No spelling of a plain reply is there.
    ensures none { IfNone result
        (BeginsWithPlain (rules_under version limits.now) bytes.now → ⊥) }
{
    let begun = Filled { end: 0, count: 0 };
    let found = reply_at(version, limits, bytes, begun, &mut [])?;
    Some(found.end)
}
