use super::*;
use mt_base::{Put, Sink, Source, Take};
use std::io;
use std::io::{Error, ErrorKind, Read, Write};
use std::test::Fail;

// Every call is interrupted.
#[derive(Drop)]
struct Interrupted;

impl Read for Interrupted {
    fn read(&mut self, _buf: &mut [u8]) -> io::Result<usize> {
        Err(Error::from(ErrorKind::Interrupted))
    }
}

// It takes nothing of a piece.
#[derive(Drop)]
struct Full;

impl Write for Full {
    fn write(&mut self, _buf: &[u8]) -> io::Result<usize> {
        Ok(0)
    }

    fn flush(&mut self) -> io::Result<()> {
        Ok(())
    }
}

#[test]
fn a_reader_is_a_source_that_counts_its_errors(rt: HostRuntime) {
    let mut buf = [0u8; 2];
    let mut source = ReaderSource::new(b"abc".as_slice());
    assert_eq!(rt; source.take(&mut buf), Take::Took(2));
    assert_eq!(rt; buf, *b"ab");
    assert_eq!(rt; source.take(&mut buf), Take::Took(1));
    assert_eq!(rt; source.take(&mut buf), Take::End);
    assert_eq!(rt; source.faults, 0);
    let mut source = ReaderSource::new(Interrupted);
    assert_eq!(rt; source.take(&mut buf), Take::Failed);
    assert_eq!(rt; source.take(&mut buf), Take::Failed);
    assert_eq!(rt; source.faults, 2);
}

#[test]
fn a_writer_is_a_sink_that_counts_its_errors(rt: HostRuntime) -> Result<(), Fail> {
    let mut sink = WriterSink::new(Vec::new(rt.alloc()));
    assert_eq!(rt; sink.put(b"abc"), Put::Wrote(3));
    assert_eq!(rt; sink.writer.as_slice(), b"abc".as_slice());
    assert_eq!(rt; sink.faults, 0);
    let mut sink = WriterSink::new(Full);
    assert_eq!(rt; sink.put(b"abc"), Put::Failed);
    assert_eq!(rt; sink.faults, 1);
    Ok(())
}

#[test]
fn a_refused_list_of_words_has_its_exit_status(rt: HostRuntime) {
    for (kind, status) in [(ErrorKind::OutOfMemory, 6), (ErrorKind::InvalidData, 10)] {
        assert_eq!(rt; words::refusal(&Error::from(kind)), status);
    }
}
