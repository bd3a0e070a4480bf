//! Laws about captures.

ghost use Rattle.resp_capture.specs.Histories.{BeginsTrue, StaysTrueOfHeld, StaysTrueOfMissing, StaysTrueOfSegments};
ghost use Rattle.resp_capture.specs.Writing.{SegmentsAreReadBack, TimesAreReadBack};

/// What a stream has reported is true of the segments that have arrived: each byte that was
/// reported is a byte of a segment, at its place; no place is reported twice; and for each byte
/// that has arrived, this byte or another byte at its place was reported, or it waits. Bytes are
/// reported as missing only if none of them has arrived.
pub fn told_bytes_have_come()
    ensures begins { BeginsTrue }
    ensures segments { StaysTrueOfSegments }
    ensures held { StaysTrueOfHeld }
    ensures missing { StaysTrueOfMissing }
{}

/// A record that [`record_head`](crate::record::record_head) begins is read back: any segment that
/// [`read_packet`](crate::packet::read_packet) returns for it is the one that was written, and the
/// time of its packet is the one that was written if it is before the year 2106.
pub fn written_records_are_read()
    ensures segments { SegmentsAreReadBack }
    ensures times { TimesAreReadBack }
{}
