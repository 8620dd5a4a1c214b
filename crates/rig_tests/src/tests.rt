use lists::{Bytes, Items, Memory};
use rig::{FailedWrite, MemRig, MemSink, MemSource, Rig, Sink, Source};
use std::alloc::Global;
use std::test::Fail;

// A source that gives at most two bytes a read, and whose second read fails.
fn source(alloc: Global) -> Result<MemSource, Memory> {
    let mut source = MemSource::new(alloc, Bytes::from_slice(alloc, b"abc")?);
    source.set_piece(2);
    source.fail_read(2)?;
    Ok(source)
}

fn read(source: &mut impl Source, buffer: &mut [u8; 4]) -> Option<usize> {
    source.read(buffer).ok()
}

#[test]
fn a_source_gives_its_bytes_in_pieces(rt: HostRuntime) -> Result<(), Fail> {
    let mut source = source(rt.alloc())?;
    let mut buffer = [0u8; 4];
    for answer in [Some(2), None, Some(1), Some(0)] {
        assert_eq!(rt; read(&mut source, &mut buffer), answer);
    }
    assert_eq!(rt; buffer[..2], b"cb"[..]);
    assert_eq!(rt; source.given(), b"abc".as_slice());
    assert_eq!(rt; source.left(), b"".as_slice());
    assert_eq!(rt; source.read_count(), 4);
    assert_eq!(rt; source.fault_count(), 1);
    Ok(())
}

#[test]
fn a_source_of_a_slice_fills_the_buffer(rt: HostRuntime) -> Result<(), Fail> {
    let mut source = MemSource::from_slice(rt.alloc(), b"abcde")?;
    let mut buffer = [0u8; 4];
    assert_eq!(rt; read(&mut source, &mut buffer), Some(4));
    assert_eq!(rt; buffer.as_slice(), b"abcd".as_slice());
    Ok(())
}

// A sink whose second and third writes fail behind one byte and behind all.
fn sink(alloc: Global) -> Result<MemSink, Memory> {
    let mut sink = MemSink::new(alloc);
    for (number, prefix) in [(2, 1), (3, 9)] {
        sink.fail_write(FailedWrite { number, prefix })?;
    }
    Ok(sink)
}

fn write(sink: &mut impl Sink, text: &[u8]) -> bool {
    sink.write(text).is_ok()
}

#[test]
fn a_sink_keeps_what_was_written(rt: HostRuntime) -> Result<(), Fail> {
    let mut sink = sink(rt.alloc())?;
    for (text, done) in [(b"ab", true), (b"cd", false), (b"ef", false), (b"gh", true)] {
        assert_eq!(rt; write(&mut sink, text), done);
    }
    assert_eq!(rt; sink.written(), b"abcefgh".as_slice());
    assert_eq!(rt; sink.write_count(), 4);
    assert_eq!(rt; sink.fault_count(), 2);
    assert_eq!(rt; sink.starved_count(), 0);
    Ok(())
}

fn now(rig: &mut impl Rig) -> u64 {
    rig.rest(1);
    rig.now()
}

#[test]
fn a_clock_gives_its_readings_and_then_the_last(rt: HostRuntime) -> Result<(), Fail> {
    let mut rig = MemRig::new(rt.alloc(), 8)?;
    let mut readings = Items::new(rt.alloc());
    readings.push(5u64)?;
    readings.push(3u64)?;
    assert_eq!(rt; now(&mut rig), 0);
    rig.set_readings(readings);
    for reading in [5, 3, 3] {
        assert_eq!(rt; now(&mut rig), reading);
    }
    Ok(())
}
