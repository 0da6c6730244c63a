// What no clause over std says: which errors of a reader and a writer are faults, and how each is counted.
use slurm_io::{Failed, ReaderSource, Sink, Source, WriterSink, write_all};
use std::io;
use std::io::{ErrorKind, Read, Write};
use std::test::Fail;

/// A stream whose first calls end with this error, so many of them; then it gives `x`, and takes what it is given.
#[derive(Drop)]
struct Stumbling {
    kind: ErrorKind,
    times: u32,
}

impl Stumbling {
    // Whether this call ends with the error.
    fn stumbles(&mut self) -> bool {
        let stumbles = self.times > 0;
        self.times = self.times.saturating_sub(1);
        stumbles
    }
}

impl Read for Stumbling {
    fn read(&mut self, buf: &mut [u8]) -> io::Result<usize> {
        if self.stumbles() {
            return Err(self.kind.into());
        }
        match buf.first_mut() {
            None => Ok(0),
            Some(byte) => {
                *byte = b'x';
                Ok(1)
            }
        }
    }
}

impl Write for Stumbling {
    fn write(&mut self, buf: &[u8]) -> io::Result<usize> {
        if self.stumbles() {
            return Err(self.kind.into());
        }
        Ok(buf.len())
    }

    fn flush(&mut self) -> io::Result<()> {
        Ok(())
    }
}

/// A writer that never takes a byte.
#[derive(Drop)]
struct Full;

impl Write for Full {
    fn write(&mut self, _buf: &[u8]) -> io::Result<usize> {
        Ok(0)
    }

    fn flush(&mut self) -> io::Result<()> {
        Ok(())
    }
}

#[test]
fn a_broken_reader_is_a_fault(rt: HostRuntime) -> Result<(), Fail> {
    let kind = ErrorKind::BrokenPipe;
    let mut source = ReaderSource::new(Stumbling { kind, times: 1 });
    let mut byte = [b'?'];
    assert_eq!(rt; source.read(&mut byte), Err(Failed));
    assert_eq!(rt; (byte, source.faults), ([b'?'], 1));
    assert_eq!(rt; source.read(&mut byte), Ok(1));
    assert_eq!(rt; (byte, source.faults), ([b'x'], 1));
    Ok(())
}

#[test]
fn a_broken_writer_is_a_fault(rt: HostRuntime) -> Result<(), Fail> {
    let kind = ErrorKind::BrokenPipe;
    let mut sink = WriterSink::new(Stumbling { kind, times: 1 });
    assert_eq!(rt; write_all(&mut sink, b"x"), Err(Failed));
    assert_eq!(rt; sink.faults, 1);
    assert_eq!(rt; write_all(&mut sink, b"x"), Ok(()));
    assert_eq!(rt; sink.faults, 1);
    let mut full = WriterSink::new(Full);
    assert_eq!(rt; (full.write(b"x"), full.write(b"")), (Err(Failed), Ok(0)));
    assert_eq!(rt; full.faults, 1);
    Ok(())
}

#[test]
fn an_interrupted_call_is_no_fault(rt: HostRuntime) -> Result<(), Fail> {
    let kind = ErrorKind::Interrupted;
    let mut source = ReaderSource::new(Stumbling { kind, times: 2 });
    assert_eq!(rt; source.read(&mut [0]), Ok(1));
    let mut sink = WriterSink::new(Stumbling { kind, times: 2 });
    assert_eq!(rt; sink.write(b"x"), Ok(1));
    assert_eq!(rt; (source.faults, sink.faults), (0, 0));
    Ok(())
}
