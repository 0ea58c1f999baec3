// What no clause says: that the adapters move bytes of real files and count their faults, and what clocks give.
use edge_base::{
    Clock, ListClock, Put, Sink, Source, StdSink, StdSource, Took, WallClock, write_counted,
};
use std::io::{ErrorKind, Read, Write};
use std::test::Fail;
use std::time::Duration;
use std::{fs, io, time};

#[test]
fn real_streams_give_and_take(rt: HostRuntime) -> Result<(), Fail> {
    let mut sink = StdSink::new(fs::create(&rt, "stream")?);
    let written = write_counted(&mut sink, b"due 1\ninstalled 1\n");
    assert_eq!(rt; written.taken, 18);
    assert!(rt; !written.fault);
    assert_eq!(rt; sink.faults(), 0);
    let mut source = StdSource::new(fs::open(&rt, "stream")?);
    let mut buffer = [0u8; 32];
    assert_eq!(rt; source.read(&mut buffer), Took::Some(18));
    assert_eq!(rt; &buffer[..18], b"due 1\ninstalled 1\n".as_slice());
    assert_eq!(rt; source.read(&mut buffer), Took::End);
    assert_eq!(rt; source.faults(), 0);
    Ok(())
}

// a reader that gives one byte and then fails, and a writer that takes two bytes and then none
#[derive(Drop)]
struct Broken {
    calls: u8,
}

impl Read for Broken {
    fn read(&mut self, buf: &mut [u8]) -> io::Result<usize> {
        if self.calls > 0 || buf.is_empty() {
            return Err(io::Error::from(ErrorKind::BrokenPipe));
        }
        self.calls = 1;
        buf[0] = b'x';
        Ok(1)
    }
}

impl Write for Broken {
    fn write(&mut self, buf: &[u8]) -> io::Result<usize> {
        if self.calls > 0 {
            return Ok(0);
        }
        self.calls = 1;
        Ok(buf.len().min(2))
    }

    fn flush(&mut self) -> io::Result<()> {
        Ok(())
    }
}

#[test]
fn broken_streams_fail(rt: HostRuntime) -> Result<(), Fail> {
    let mut source = StdSource::new(Broken { calls: 0 });
    let mut buffer = [0u8; 4];
    assert_eq!(rt; source.read(&mut buffer), Took::Some(1));
    assert_eq!(rt; source.read(&mut buffer), Took::Failed);
    assert_eq!(rt; source.faults(), 1);
    let mut sink = StdSink::new(Broken { calls: 0 });
    let written = write_counted(&mut sink, b"due 1");
    assert_eq!(rt; written.taken, 2);
    assert!(rt; written.fault);
    assert_eq!(rt; sink.faults(), 1);
    Ok(())
}

// a clock of the library that stands still, and one that cannot be read
#[derive(Drop)]
struct Still {
    nanoseconds: Option<u64>,
}

impl time::Clock for Still {
    fn monotonic(&self) -> io::Result<Duration> {
        Err(io::Error::from(ErrorKind::Unsupported))
    }

    fn since_1970(&self) -> io::Result<Duration> {
        match self.nanoseconds {
            Some(nanoseconds) => Ok(Duration::from_nanos(nanoseconds)),
            None => Err(io::Error::from(ErrorKind::Unsupported)),
        }
    }
}

#[test]
fn clocks_give_milliseconds(rt: HostRuntime) -> Result<(), Fail> {
    let mut list = ListClock::new(rt.alloc(), &[7, 5])?;
    assert_eq!(rt; list.now(), 7);
    assert_eq!(rt; list.now(), 5);
    assert_eq!(rt; list.now(), 5);
    let mut still = WallClock::new(Still {
        nanoseconds: Some(1368751086825999999),
    });
    assert_eq!(rt; still.now(), 1368751086825);
    let mut none = WallClock::new(Still { nanoseconds: None });
    assert_eq!(rt; none.now(), 0);
    let mut wall = WallClock::new(rt.clone()?);
    assert!(rt; wall.now() > 1700000000000);
    Ok(())
}

#[test]
fn real_faults_are_counted(rt: HostRuntime) -> Result<(), Fail> {
    let mut sink = StdSink::new(fs::open(&rt, "/dev/null")?);
    assert_eq!(rt; sink.write(b"x"), Put::Failed);
    assert_eq!(rt; sink.faults(), 1);
    Ok(())
}
