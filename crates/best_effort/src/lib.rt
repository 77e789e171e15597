// A writer whose failures nobody hears of.
#![tactic(auto)]

ghost use Rattle.std.specs.Prelude.{◌≡◌, None, Ok, IsOk, length};
ghost use Rattle.std.specs.Io.{WritesAtMost};
ghost use Rattle.std.specs.Io.KnownBytes.{Keeps, WriteAppends};
ghost use Rattle.best_effort.specs.Inner.{inner_of};

use std::io;
use std::io::Write;

// Writes to the inner writer, and drops what that one does not take: a program over it reads its input to the end and succeeds, whether
// anyone takes its answers or not.
#[derive(Drop)]
pub struct BestEffort<W> {
    inner: W,
}

impl<W> BestEffort<W> {
    pub fn new(inner: W) -> Self
        ensures { inner_of result ≡ inner }
    {
        BestEffort { inner }
    }
}

impl<W: Write> Write for BestEffort<W> {
    fn write(&mut self, buf: &[u8]) -> io::Result<usize>
        ensures bound { WritesAtMost result buf.now }
        ensures bytes { WriteAppends None None result buf.now }
        ensures all_taken { result ≡ Ok (length buf.now) }
    {
        let _ = self.inner.write_all(buf);
        Ok(buf.len())
    }

    fn flush(&mut self) -> io::Result<()>
        ensures bytes { Keeps None None }
        ensures ok { IsOk result }
    {
        let _ = self.inner.flush();
        Ok(())
    }
}

#[cfg(test)]
mod tests {
    use super::*;
    use std::test::Fail;

    // Takes one byte at a call, and none once it holds as many as it has room for.
    #[derive(Drop)]
    struct Narrow {
        held: Vec<u8>,
        room: usize,
        is_flushed: bool,
    }

    impl Write for Narrow {
        fn write(&mut self, buf: &[u8]) -> io::Result<usize> {
            if self.held.len() >= self.room {
                return Err(io::ErrorKind::StorageFull.into());
            }
            let first = buf.get(..1).unwrap_or(buf);
            self.held.extend_from_slice(first)?;
            Ok(first.len())
        }

        fn flush(&mut self) -> io::Result<()> {
            self.is_flushed = true;
            Err(io::ErrorKind::StorageFull.into())
        }
    }

    // What the inner writer holds after two writes.
    #[test]
    fn bytes_arrive_in_order(rt: HostRuntime) -> Result<(), Fail> {
        for (room, held) in [
            (0, ""),
            (1, "o"),
            (4, "one "),
            (7, "one two"),
            (9, "one two"),
        ] {
            let mut narrow = Narrow {
                held: Vec::new(rt.alloc()),
                room,
                is_flushed: false,
            };
            let mut out = BestEffort::new(&mut narrow);
            assert_eq!(rt; out.write(b"one ")?, 4, "room for {room}");
            assert_eq!(rt; out.write(b"two")?, 3, "room for {room}");
            out.flush()?;
            assert!(rt; narrow.is_flushed, "room for {room}");
            assert_eq!(rt; narrow.held.as_slice(), held.as_bytes(), "room for {room}");
        }
        Ok(())
    }
}
