// What no clause says of timed streams: how long their calls wait in all, and for how long each is let wait.
use slurm_net::TimedStream;
use std::cell::Cell;
use std::io;
use std::io::{ErrorKind, Read, Write};
use std::net::OpenStream;
use std::test::Fail;
use std::time::{Clock, Duration};

/// A clock that is three seconds later at each reading.
#[derive(Drop)]
struct Ticking {
    seconds: Cell<u64>,
}

impl Clock for Ticking {
    fn monotonic(&self) -> io::Result<Duration> {
        let now = self.seconds.get().saturating_add(3);
        self.seconds.set(now);
        Ok(Duration::from_secs(now))
    }

    fn since_1970(&self) -> io::Result<Duration> {
        self.monotonic()
    }
}

/// A stream that gives a byte at each read, and notes how long it was last let wait.
#[derive(Drop)]
struct Trickle<'a> {
    longest: &'a Cell<u64>,
}

impl Read for Trickle<'_> {
    fn read(&mut self, buf: &mut [u8]) -> io::Result<usize> {
        Ok(buf.len().min(1))
    }
}

impl Write for Trickle<'_> {
    fn write(&mut self, buf: &[u8]) -> io::Result<usize> {
        Ok(buf.len())
    }

    fn flush(&mut self) -> io::Result<()> {
        Ok(())
    }
}

impl OpenStream for Trickle<'_> {
    fn set_read_timeout(&self, dur: Option<Duration>) -> io::Result<()> {
        self.longest.set(dur.map_or(0, |longest| longest.as_secs()));
        Ok(())
    }

    fn set_write_timeout(&self, _dur: Option<Duration>) -> io::Result<()> {
        Ok(())
    }
}

// Reads a byte: whether it came, and how long the read was let wait.
fn read_one<S: Read, R: Clock>(
    stream: &mut TimedStream<S, R>,
    longest: &Cell<u64>,
) -> (Option<usize>, u64)
where
    S: OpenStream,
{
    let came = match stream.read(&mut [0]) {
        Ok(count) => Some(count),
        Err(error) if error.kind() == ErrorKind::TimedOut => None,
        Err(_) => Some(9),
    };
    (came, longest.get())
}

#[test]
fn the_reads_of_a_request_wait_so_long_in_all(rt: HostRuntime) -> Result<(), Fail> {
    let clock = Ticking {
        seconds: Cell::new(0),
    };
    let longest = Cell::new(0);
    let trickle = Trickle { longest: &longest };
    let mut stream = TimedStream::new(
        trickle,
        &clock,
        Duration::from_secs(5),
        Duration::from_secs(10),
    );
    for expected in [
        (Some(1), 5),
        (Some(1), 5),
        (Some(1), 4),
        (Some(1), 1),
        (None, 1),
    ] {
        assert_eq!(rt; read_one(&mut stream, &longest), expected);
    }
    stream.write_all(b"ok")?;
    assert_eq!(rt;
        (read_one(&mut stream, &longest), longest.get()),
        ((Some(1), 5), 5)
    );
    Ok(())
}
