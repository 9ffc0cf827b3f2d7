//! Tests of streams that take a part of what they are given, and of the real ones.
use batch_run::{Failed, Sink, StandardError, StandardOutput, put_counted};
use std::io::{self, ErrorKind, Write};
use std::test::Fail;

/// Takes at most two bytes at a time, is interrupted at every second write, and takes nothing once it has five.
#[derive(Drop)]
struct Halting {
    taken: Vec<u8>,
    writes: u32,
}

impl Write for Halting {
    fn write(&mut self, piece: &[u8]) -> io::Result<usize> {
        self.writes = self.writes.wrapping_add(1);
        if self.writes % 2 == 0 {
            return Err(io::Error::from(ErrorKind::Interrupted));
        }
        let room = 5usize.saturating_sub(self.taken.len());
        let count = piece.len().min(2).min(room);
        self.taken.extend_from_slice(&piece[..count])?;
        Ok(count)
    }

    fn flush(&mut self) -> io::Result<()> {
        Ok(())
    }
}

#[test]
fn streams_are_written_until_all_is_taken(rt: HostRuntime) -> Result<(), Fail> {
    let mut halting = Halting {
        taken: Vec::new(rt.alloc()),
        writes: 0,
    };
    let mut faults = 0;
    assert_eq!(rt; put_counted(&mut halting, &mut faults, b"abc"), Ok(()));
    assert_eq!(rt; faults, 0);
    assert_eq!(rt;
        put_counted(&mut halting, &mut faults, b"defg"),
        Err(Failed)
    );
    assert_eq!(rt; faults, 1);
    assert_eq!(rt; halting.taken.as_slice(), b"abcde".as_slice());
    Ok(())
}

#[test]
fn the_real_streams_take_what_they_are_given(rt: HostRuntime) -> Result<(), Fail> {
    assert_eq!(rt;
        StandardOutput::new(rt.stdout()).put(b"to standard output\n"),
        Ok(())
    );
    assert_eq!(rt;
        StandardError::new(rt.stderr()).put(b"to standard error\n"),
        Ok(())
    );
    Ok(())
}
