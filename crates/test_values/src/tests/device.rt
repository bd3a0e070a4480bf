//! Device tests that no contract covers: the calls succeed, and a few runs have their expected
//! results.

use super::check_equal;
use resp_io::device::{
    Device, DeviceFault, MemorySink, MemorySource, Sink, Source, WriteFault, write_all,
};
use std::io;
use std::io::Read;
use std::process::Abort;

/// A reader and writer that fails.
#[derive(Drop)]
struct Broken;

impl Read for Broken {
    fn read(&mut self, _into: &mut [u8]) -> io::Result<usize> {
        Err(io::Error::from(io::ErrorKind::Other))
    }
}

impl io::Write for Broken {
    fn write(&mut self, _from: &[u8]) -> io::Result<usize> {
        Err(io::Error::from(io::ErrorKind::Other))
    }

    fn flush(&mut self) -> io::Result<()> {
        Ok(())
    }
}

/// Reads into four bytes, and checks the result and the bytes.
fn check_read<T: Source>(
    rt: &impl Abort,
    source: &mut T,
    answer: Result<usize, DeviceFault>,
    room: [u8; 4],
) {
    let mut into = *b"....";
    let read = source.read(&mut into);
    check_equal(rt, (read, into), (answer, room));
}

#[test]
fn source_reads_to_its_end(rt: HostRuntime) {
    let mut source = MemorySource::new(b"hello", 3);
    check_read(&rt, &mut source, Ok(3), *b"hel.");
    check_read(&rt, &mut source, Ok(2), *b"lo..");
    check_read(&rt, &mut source, Ok(0), *b"....");
    check_equal(&rt, (source.calls(), source.failures()), (3, 0));
}

#[test]
fn source_fails_after_some_bytes(rt: HostRuntime) {
    let mut source = MemorySource::new(b"hello", 2).failing_from(3);
    check_read(&rt, &mut source, Ok(2), *b"he..");
    check_read(&rt, &mut source, Ok(1), *b"l...");
    check_read(&rt, &mut source, Err(DeviceFault), *b"....");
    check_read(&rt, &mut source, Err(DeviceFault), *b"....");
    check_equal(&rt, (source.calls(), source.failures()), (4, 2));
}

fn memory_sink<R: Abort + AllocGlobal>(rt: &R, most: usize, fails_from: usize) -> MemorySink {
    MemorySink::new(rt.alloc(), most, fails_from).expect(rt, "out of memory")
}

#[test]
fn sink_holds_what_is_written(rt: HostRuntime) {
    let mut sink = memory_sink(&rt, 2, 5);
    check_equal(&rt, write_all(&mut sink, b"hello"), Ok(()));
    check_equal(&rt, (sink.calls(), sink.failures()), (3, 0));
    check_equal(&rt, sink.bytes(), b"hello".as_slice());
    check_equal(&rt, sink.into_vec().as_slice(), b"hello".as_slice());
}

#[test]
fn sink_fails_after_some_bytes(rt: HostRuntime) {
    let mut sink = memory_sink(&rt, 2, 3);
    let fault = WriteFault { written: 3 };
    check_equal(&rt, write_all(&mut sink, b"hello"), Err(fault));
    check_equal(&rt, sink.bytes(), b"hel".as_slice());
    check_equal(&rt, (sink.calls(), sink.failures()), (3, 1));
}

#[test]
fn sink_that_takes_no_byte_fails(rt: HostRuntime) {
    let mut sink = memory_sink(&rt, 0, 3);
    check_equal(&rt, sink.write(b"hello"), Ok(0));
    let fault = WriteFault { written: 0 };
    check_equal(&rt, write_all(&mut sink, b"hello"), Err(fault));
    check_equal(&rt, (sink.calls(), sink.failures()), (2, 2));
}

#[test]
fn device_reads_the_bytes_of_std(rt: HostRuntime) {
    let mut reader = Device::new(b"hello".as_slice());
    check_read(&rt, &mut reader, Ok(4), *b"hell");
    check_equal(&rt, (reader.calls(), reader.failures()), (1, 0));
    check_equal(&rt, reader.into_inner(), b"o".as_slice());
}

#[test]
fn device_writes_the_bytes_of_std(rt: HostRuntime) {
    let mut writer = Device::new(Vec::new(rt.alloc()));
    check_equal(&rt, write_all(&mut writer, b"hello"), Ok(()));
    check_equal(&rt, (writer.calls(), writer.failures()), (1, 0));
    check_equal(&rt, writer.into_inner().as_slice(), b"hello".as_slice());
}

#[test]
fn device_counts_failures(rt: HostRuntime) {
    let mut broken = Device::new(Broken);
    check_read(&rt, &mut broken, Err(DeviceFault), *b"....");
    check_equal(&rt, broken.write(b"hello"), Err(DeviceFault));
    check_equal(&rt, (broken.calls(), broken.failures()), (2, 2));
}

#[test]
fn device_counts_a_write_that_is_cut_short(rt: HostRuntime) {
    let mut room = [0; 2];
    let mut full = Device::new(room.as_mut_slice());
    let fault = WriteFault { written: 2 };
    check_equal(&rt, write_all(&mut full, b"hello"), Err(fault));
    check_equal(&rt, (full.calls(), full.failures()), (2, 1));
}
