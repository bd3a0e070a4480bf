//! The packets of a capture that arrives in pieces.

ghost use Rattle.std.specs.Prelude.{◌≡◌, ◌+◌, ◌<◌, ◌≤◌, ◌++◌, [], ◌∷◌, true, false, length, slice_get, IfErr, IfNone, IfOk, OnOk};
ghost use Rattle.std.specs.Prelude.{◌⊎◌, None, Some, IfSome, OnErr};
ghost use Rattle.resp_capture.specs.Frames.{HasNo, HasRecord, IsEnhanced, IsFrame, IsSimple, IsTimeOn, fault_of_frame, fault_of_record, has_time, interface_in, simple_count, ticks_in};
ghost use Rattle.resp_capture.specs.Numbers.{number32};
ghost use Rattle.resp_capture.specs.Blocks.{magic_of};
ghost use Rattle.resp_capture.specs.Reading.{HasFrame, HasNoFault, InterfacesAfter, InterfacesAfterBlock, IsAtEnd, IsNotReadOn, ReadsBlock, StopsAt, begun_bytes, end_fault, failure_of, fault_of, fault_of_block, fault_of_pcapng, format_after, format_after_block, next_at, packet_fault};
ghost use Rattle.resp_capture.specs.declared.time.Time.{Time};

use crate::block::{Format, SECTION, block_size, magic_of, section_order};
use crate::error::{CaptureError, Reason};
use crate::interface::Interface;
use crate::link::LinkType;
use crate::number::{ByteOrder, number16, number32};
use crate::time::{Time, time_of};
use std::alloc::Global;

/// The type of a pcapng block that describes an interface.
const INTERFACE: u32 = 1;

/// The type of a pcapng block with a packet that older programs write.
const OLD_PACKET: u32 = 2;

/// The type of a pcapng block with a packet and no time.
const SIMPLE: u32 = 3;

/// The type of a pcapng block with a packet.
const ENHANCED: u32 = 6;

/// A packet of a capture.
#[derive(Clone, Copy, Debug, PartialEq, Eq)]
pub struct CapturedPacket<'a> {
    /// The time at which it was captured, if the capture says it.
    pub time: Option<Time>,
    pub link: LinkType,
    /// The bytes that were captured, which may be only the first ones of the packet.
    pub bytes: &'a [u8],
}

/// The packets of a file of the format pcap or pcapng, which arrives in pieces of any size. It
/// holds the bytes of one block, at most 1,048,576.
#[derive(Drop)]
pub struct Capture {
    pub(crate) format: Format,
    pub(crate) interfaces: Vec<Interface>,
    /// The bytes of the block that were read.
    pub(crate) held: Vec<u8>,
    /// Whether the block is whole.
    pub(crate) is_whole: bool,
    /// The byte of the file at which the block begins.
    pub(crate) at: u64,
    /// Why a call of [`read`](Capture::read) has failed, if one has.
    pub(crate) failure: Option<Reason>,
}

impl Capture {
    /// Returns a capture before anything was read. It allocates nothing.
    pub fn new(alloc: Global) -> Capture
        ensures nothing_read { begun_bytes result ≡ [] }
        ensures unknown { result.format ≡ Format.Unknown }
        ensures no_failure { failure_of result ≡ None }
    {
        Capture {
            format: Format::Unknown,
            interfaces: Vec::new(alloc),
            held: Vec::new(alloc),
            is_whole: false,
            at: 0,
            failure: None,
        }
    }

    /// Returns an error of the block that is read.
    fn error(&self, reason: Reason) -> CaptureError
        ensures { result ≡ record { at = self.now.at; reason = reason } }
    {
        CaptureError {
            at: self.at,
            reason,
        }
    }

    /// Forgets a block that is whole.
    fn begin(&mut self)
        ensures held { self.new.held.items ≡ begun_bytes self.old }
        ensures same_format { self.new.format ≡ self.old.format }
        ensures same_interfaces { self.new.interfaces.items ≡ self.old.interfaces.items }
        ensures not_whole { self.new.is_whole ≡ false }
        ensures at { self.new.at ≡ next_at self.old }
        ensures same_failure { self.new.failure ≡ self.old.failure }
    {
        if self.is_whole {
            self.at = self.at.saturating_add(self.held.len() as u64);
            self.held.clear();
            self.is_whole = false;
        }
    }

    /// Reads bytes of the next block, and returns their number. It reads at least one byte of a
    /// piece that is not empty. Call it again with the rest of the piece, after
    /// [`frame`](Capture::frame).
    ///
    /// # Errors
    ///
    /// Why reading the file stops: the size that a block says is wrong or above 1,048,576 bytes,
    /// the first block does not begin a capture or names a link that is not read, or an allocation
    /// fails. The bytes that were read up to there are kept, and each later call fails for the same
    /// reason.
    pub fn read(&mut self, piece: &[u8]) -> Result<usize, CaptureError>
        ensures read { IfOk result (λ count. ReadsBlock self.old self.new piece.now count) }
        ensures some { IfOk result (λ count. 0 < length piece.now → 0 < count) }
        ensures at { self.new.at ≡ next_at self.old }
        ensures error_at { IfErr result (λ error. error.at ≡ self.new.at) }
        ensures no_fault { OnOk result (HasNoFault self.old self.new) }
        ensures fault { IfErr result (λ error.
            IsNotReadOn (failure_of self.old) self.old self.new piece.now error.reason) }
        ensures stays_ok { OnOk result (failure_of self.new ≡ None) }
        ensures stays_failed { IfErr result (λ error. failure_of self.new ≡ Some error.reason) }
    {
        self.begin();
        if let Some(reason) = self.failure {
            return Err(self.error(reason));
        }
        match self.read_on(piece) {
            Ok(count) => Ok(count),
            Err(reason) => {
                self.failure = Some(reason);
                Err(self.error(reason))
            }
        }
    }

    /// Reads bytes of a block of which these bytes were read, and returns their number.
    fn read_on(&mut self, piece: &[u8]) -> Result<usize, Reason>
        requires { self.old.is_whole ≡ false }
        ensures read { IfOk result (λ count. ReadsBlock self.old self.new piece.now count) }
        ensures some { IfOk result (λ count. 0 < length piece.now → 0 < count) }
        ensures at { self.new.at ≡ self.old.at }
        ensures same_failure { self.new.failure ≡ self.old.failure }
        ensures no_fault { OnOk result (fault_of self.old.format self.new.held.items ≡ None) }
        ensures fault { IfErr result (StopsAt self.old self.new piece.now) }
    {
        let wanted = block_size(self.format, self.held.as_slice())?;
        // This is so only after an error.
        if wanted <= self.held.len() {
            return Err(Reason::WrongLength);
        }
        let count = (wanted - self.held.len()).min(piece.len());
        self.hold(&piece[..count])?;
        let size = block_size(self.format, self.held.as_slice())?;
        if size < self.held.len() {
            return Err(Reason::WrongLength);
        }
        if size == self.held.len() {
            self.end_block()?;
        }
        Ok(count)
    }

    /// Adds bytes to those of the block.
    fn hold(&mut self, bytes: &[u8]) -> Result<(), Reason>
        ensures held { OnOk result (self.new.held.items ≡ self.old.held.items ++ bytes.now) }
        ensures refused { OnErr result (self.new.held.items ≡ self.old.held.items) }
        ensures memory { IfErr result (λ reason. reason ≡ Reason.OutOfMemory) }
        ensures same_failure { self.new.failure ≡ self.old.failure }
        ensures same_interfaces { self.new.interfaces.items ≡ self.old.interfaces.items }
        ensures same_format { self.new.format ≡ self.old.format }
        ensures not_whole { self.new.is_whole ≡ self.old.is_whole }
        ensures at { self.new.at ≡ self.old.at }
    {
        match self.held.extend_from_slice(bytes) {
            Ok(()) => Ok(()),
            Err(_) => Err(Reason::OutOfMemory),
        }
    }

    /// Keeps what a whole block says of the blocks after it.
    fn end_block(&mut self) -> Result<(), Reason>
        ensures whole { OnOk result (self.new.is_whole ≡ true) }
        ensures held { self.new.held.items ≡ self.old.held.items }
        ensures at { self.new.at ≡ self.old.at }
        ensures same_failure { self.new.failure ≡ self.old.failure }
        ensures format { OnOk result
            (self.new.format ≡ format_after self.old.format self.old.held.items) }
        ensures interfaces { OnOk result (InterfacesAfter self.old.format self.old.held.items
            self.old.interfaces.items self.new.interfaces.items) }
        ensures no_fault { OnOk result
            (fault_of_block self.old.format self.old.held.items ≡ None) }
        ensures fault { IfErr result (λ reason. (reason ≡ Reason.OutOfMemory) ⊎
            (fault_of_block self.old.format self.old.held.items ≡ Some reason)) }
        ensures refused { OnErr result ((self.new.is_whole ≡ self.old.is_whole) ×
            (self.new.format ≡ self.old.format) ×
            (self.new.interfaces.items ≡ self.old.interfaces.items)) }
    {
        match self.format {
            Format::Unknown => self.begin_file()?,
            Format::Pcap(_) => {}
            Format::Pcapng(order) => self.read_block(order)?,
        }
        self.is_whole = true;
        Ok(())
    }

    /// Keeps what the first block says.
    fn begin_file(&mut self) -> Result<(), Reason>
        ensures held { self.new.held.items ≡ self.old.held.items }
        ensures at { self.new.at ≡ self.old.at }
        ensures same_failure { self.new.failure ≡ self.old.failure }
        ensures not_whole { self.new.is_whole ≡ self.old.is_whole }
        ensures format { self.old.format ≡ Format.Unknown → OnOk result
            (self.new.format ≡ format_after Format.Unknown self.old.held.items) }
        ensures interfaces { OnOk result (InterfacesAfter Format.Unknown self.old.held.items
            self.old.interfaces.items self.new.interfaces.items) }
        ensures no_fault { OnOk result
            (fault_of_block Format.Unknown self.old.held.items ≡ None) }
        ensures fault { IfErr result (λ reason. (reason ≡ Reason.OutOfMemory) ⊎
            (fault_of_block Format.Unknown self.old.held.items ≡ Some reason)) }
        ensures refused { OnErr result ((self.new.format ≡ self.old.format) ×
            (self.new.interfaces.items ≡ self.old.interfaces.items)) }
    {
        let bytes = self.held.as_slice();
        if bytes.len() < 24 {
            return Err(Reason::NotACapture);
        }
        let Some(magic) = magic_of(number32(ByteOrder::Big, bytes, 0)) else {
            return self.read_block(ByteOrder::Big);
        };
        let number = number32(magic.order, bytes, 20) % 65_536;
        let Some(link) = LinkType::of_number(number) else {
            return Err(Reason::UnknownLink(number));
        };
        self.add(Interface::of_pcap(link, magic.per_second))?;
        self.format = Format::Pcap(magic.order);
        Ok(())
    }

    /// Keeps what a pcapng block says.
    fn read_block(&mut self, order: ByteOrder) -> Result<(), Reason>
        ensures held { self.new.held.items ≡ self.old.held.items }
        ensures at { self.new.at ≡ self.old.at }
        ensures same_failure { self.new.failure ≡ self.old.failure }
        ensures not_whole { self.new.is_whole ≡ self.old.is_whole }
        ensures format { OnOk result
            (self.new.format ≡ format_after_block self.old.format order self.old.held.items) }
        ensures interfaces { OnOk result (InterfacesAfterBlock order self.old.held.items
            self.old.interfaces.items self.new.interfaces.items) }
        ensures no_fault { OnOk result (fault_of_pcapng order self.old.held.items ≡ None) }
        ensures fault { IfErr result (λ reason. (reason ≡ Reason.OutOfMemory) ⊎
            (fault_of_pcapng order self.old.held.items ≡ Some reason)) }
        ensures refused { OnErr result ((self.new.format ≡ self.old.format) ×
            (self.new.interfaces.items ≡ self.old.interfaces.items)) }
    {
        let bytes = self.held.as_slice();
        if bytes.len() < 12 {
            return Err(Reason::WrongLength);
        }
        if number32(ByteOrder::Big, bytes, 0) == SECTION {
            let order = section_order(number32(ByteOrder::Big, bytes, 8)).unwrap_or(order);
            self.interfaces.clear();
            self.format = Format::Pcapng(order);
            return Ok(());
        }
        if number32(order, bytes, 0) != INTERFACE {
            return Ok(());
        }
        if bytes.len() < 20 {
            return Err(Reason::WrongLength);
        }
        let interface = Interface::of_block(order, bytes);
        self.add(interface)
    }

    /// Adds an interface.
    fn add(&mut self, interface: Interface) -> Result<(), Reason>
        ensures added { OnOk result (self.new.interfaces.items ≡
            self.old.interfaces.items ++ interface ∷ []) }
        ensures refused { OnErr result (self.new.interfaces.items ≡ self.old.interfaces.items) }
        ensures memory { IfErr result (λ reason. reason ≡ Reason.OutOfMemory) }
        ensures same_failure { self.new.failure ≡ self.old.failure }
        ensures not_whole { self.new.is_whole ≡ self.old.is_whole }
        ensures held { self.new.held.items ≡ self.old.held.items }
        ensures format { self.new.format ≡ self.old.format }
        ensures at { self.new.at ≡ self.old.at }
    {
        match self.interfaces.push(interface) {
            Ok(()) => Ok(()),
            Err(_) => Err(Reason::OutOfMemory),
        }
    }

    /// Returns the packet of the block whose last byte was read by the last call of
    /// [`read`](Capture::read), or `None` if no block has ended there, or it has no packet of a
    /// link that is read.
    ///
    /// # Errors
    ///
    /// Why reading the file stops: the block has a fault, so it has no packet. Do not use the
    /// capture afterwards.
    pub fn frame(&self) -> Result<Option<CapturedPacket<'_>>, CaptureError>
        ensures frame { IfOk result (λ found. IfSome found (HasFrame self.now)) }
        ensures none { IfOk result (λ found. IfNone found (HasNo (HasFrame self.now))) }
        ensures fault { OnErr result (HasNo (HasFrame self.now)) }
        ensures no_fault { OnOk result (packet_fault self.now ≡ None) }
        ensures reason { IfErr result (λ error. packet_fault self.now ≡ Some error.reason) }
        ensures error_at { IfErr result (λ error. error.at ≡ self.now.at) }
    {
        if !self.is_whole {
            return Ok(None);
        }
        let block = self.held.as_slice();
        let frame = match self.format {
            Format::Unknown => Ok(None),
            Format::Pcap(_) if self.at == 0 => Ok(None),
            Format::Pcap(order) => record_of(order, self.interfaces.as_slice(), block),
            Format::Pcapng(order) => frame_of(order, self.interfaces.as_slice(), block),
        };
        match frame {
            Ok(frame) => Ok(frame),
            Err(reason) => Err(self.error(reason)),
        }
    }

    /// Returns an error if the file ends inside a block, or is empty.
    ///
    /// # Errors
    ///
    /// `Cut`, or `NotACapture` if the file has fewer than four bytes.
    pub fn end(&self) -> Result<(), CaptureError>
        ensures whole { OnOk result (IsAtEnd self.now) }
        ensures cut { IfErr result (λ error. (IsAtEnd self.now → ⊥) × (error.at ≡ self.now.at)) }
        ensures reason { IfErr result (λ error. error.reason ≡ end_fault self.now) }
    {
        if self.is_whole {
            Ok(())
        } else if self.format == Format::Unknown && self.held.len() < 4 {
            Err(self.error(Reason::NotACapture))
        } else {
            Err(self.error(Reason::Cut))
        }
    }
}

/// Returns the packet of a pcap record.
fn record_of<'a>(
    order: ByteOrder,
    interfaces: &[Interface],
    block: &'a [u8],
) -> Result<Option<CapturedPacket<'a>>, Reason>
    ensures frame { IfOk result (λ found. IfSome found (HasRecord order interfaces.now block.now)) }
    ensures none { IfOk result (λ found. IfNone found
        (HasNo (HasRecord order interfaces.now block.now))) }
    ensures fault { OnErr result (HasNo (HasRecord order interfaces.now block.now)) }
    ensures no_fault { OnOk result
        (fault_of_record (slice_get interfaces.now 0) block.now ≡ None) }
    ensures reason { IfErr result (λ reason.
        fault_of_record (slice_get interfaces.now 0) block.now ≡ Some reason) }
{
    let Some(interface) = interfaces.first() else {
        return Err(Reason::UnknownInterface);
    };
    if block.len() < 16 || interface.per_second == 0 {
        return Err(Reason::WrongLength);
    }
    let Some(link) = interface.link else {
        return Ok(None);
    };
    let seconds = number32(order, block, 0) as u64;
    let time = time_of(
        seconds,
        number32(order, block, 4) as u64,
        interface.per_second,
    );
    Ok(Some(CapturedPacket {
        time: Some(time),
        link,
        bytes: &block[16..],
    }))
}

/// Returns the packet of a pcapng block, or `None` if it has no packet.
fn frame_of<'a>(
    order: ByteOrder,
    interfaces: &[Interface],
    block: &'a [u8],
) -> Result<Option<CapturedPacket<'a>>, Reason>
    ensures frame { IfOk result (λ found. IfSome found (IsFrame order interfaces.now block.now)) }
    ensures none { IfOk result (λ found. IfNone found
        (HasNo (IsFrame order interfaces.now block.now))) }
    ensures fault { OnErr result (HasNo (IsFrame order interfaces.now block.now)) }
    ensures no_fault { OnOk result (fault_of_frame order interfaces.now block.now ≡ None) }
    ensures reason { IfErr result (λ reason.
        fault_of_frame order interfaces.now block.now ≡ Some reason) }
{
    if block.len() < 12 {
        return Err(Reason::WrongLength);
    }
    match number32(order, block, 0) {
        ENHANCED => enhanced_of(order, interfaces, block),
        OLD_PACKET => enhanced_of(order, interfaces, block),
        SIMPLE => simple_of(order, interfaces, block),
        _ => Ok(None),
    }
}

/// Returns the number of the interface of the packet of a block. In the older packet block it has 16
/// bits, before the number of packets that were lost.
fn interface_in(order: ByteOrder, block: &[u8]) -> usize
    requires { 12 ≤ length block.now }
    ensures { result ≡ interface_in order block.now }
{
    if number32(order, block, 0) == OLD_PACKET {
        number16(order, block, 8) as usize
    } else {
        number32(order, block, 8) as usize
    }
}

/// Returns the packet of an enhanced packet block, or of the older packet block.
fn enhanced_of<'a>(
    order: ByteOrder,
    interfaces: &[Interface],
    block: &'a [u8],
) -> Result<Option<CapturedPacket<'a>>, Reason>
    requires kind { has_time order block.now ≡ true }
    requires whole { 12 ≤ length block.now }
    ensures frame { IfOk result (λ found. IfSome found (IsEnhanced order interfaces.now block.now)) }
    ensures none { IfOk result (λ found. IfNone found
        (HasNo (IsEnhanced order interfaces.now block.now))) }
    ensures fault { OnErr result (HasNo (IsEnhanced order interfaces.now block.now)) }
    ensures no_fault { OnOk result (fault_of_frame order interfaces.now block.now ≡ None) }
    ensures reason { IfErr result (λ reason.
        fault_of_frame order interfaces.now block.now ≡ Some reason) }
{
    if block.len() < 32 {
        return Err(Reason::WrongLength);
    }
    let Some(interface) = interfaces.get(interface_in(order, block)) else {
        return Err(Reason::UnknownInterface);
    };
    let count = number32(order, block, 20) as usize;
    if interface.per_second == 0 {
        Err(Reason::UnknownResolution)
    } else if count > block.len() - 32 {
        Err(Reason::WrongLength)
    } else {
        Ok(with_time(order, *interface, block, &block[28..28 + count]))
    }
}

/// Returns the time of this many ticks of an interface, in UTC: between 0 and 2^64 - 1 seconds.
fn time_on(interface: Interface, ticks: u64) -> Time
    requires { 0 < interface.per_second }
    ensures { IsTimeOn interface ticks result }
{
    let time = time_of(0, ticks, interface.per_second);
    Time {
        seconds: time.seconds.saturating_add_signed(interface.offset),
        nanos: time.nanos,
    }
}

/// Returns the packet with these bytes of a block with a packet and its time, if its link is read.
fn with_time<'a>(
    order: ByteOrder,
    interface: Interface,
    block: &[u8],
    bytes: &'a [u8],
) -> Option<CapturedPacket<'a>>
    requires whole { 32 ≤ length block.now }
    requires ticks { 0 < interface.per_second }
    ensures none { IfNone result (interface.link ≡ None) }
    ensures frame { IfSome result (λ frame. (time : Time) × (frame.time ≡ Some time) ×
        IsTimeOn interface (ticks_in order block.now) time ×
        (interface.link ≡ Some frame.link) × (frame.bytes.now ≡ bytes.now)) }
{
    let link = interface.link?;
    let high = number32(order, block, 12) as u64;
    let ticks = high * 4_294_967_296 + number32(order, block, 16) as u64;
    Some(CapturedPacket {
        time: Some(time_on(interface, ticks)),
        link,
        bytes,
    })
}

/// Returns the packet of a simple packet block.
fn simple_of<'a>(
    order: ByteOrder,
    interfaces: &[Interface],
    block: &'a [u8],
) -> Result<Option<CapturedPacket<'a>>, Reason>
    requires kind { number32 order 0 block.now ≡ 3 }
    requires whole { 12 ≤ length block.now }
    ensures frame { IfOk result (λ found. IfSome found (IsSimple order interfaces.now block.now)) }
    ensures none { IfOk result (λ found. IfNone found
        (HasNo (IsSimple order interfaces.now block.now))) }
    ensures fault { OnErr result (HasNo (IsSimple order interfaces.now block.now)) }
    ensures no_fault { OnOk result (fault_of_frame order interfaces.now block.now ≡ None) }
    ensures reason { IfErr result (λ reason.
        fault_of_frame order interfaces.now block.now ≡ Some reason) }
{
    if block.len() < 16 {
        return Err(Reason::WrongLength);
    }
    let Some(interface) = interfaces.first() else {
        return Err(Reason::UnknownInterface);
    };
    let Some(link) = interface.link else {
        return Ok(None);
    };
    let count = simple_count(order, interface.most, block);
    Ok(Some(CapturedPacket {
        time: None,
        link,
        bytes: &block[12..12 + count],
    }))
}

/// Returns the number of bytes of the packet of a simple packet block, of which at most `most` were
/// captured, or all with 0.
fn simple_count(order: ByteOrder, most: u32, block: &[u8]) -> usize
    requires { 16 ≤ length block.now }
    ensures count { result ≡ simple_count order most block.now }
    ensures within { result + 16 ≤ length block.now }
{
    let all = number32(order, block, 8);
    let count = if most == 0 { all } else { most.min(all) };
    (count as usize).min(block.len() - 16)
}
