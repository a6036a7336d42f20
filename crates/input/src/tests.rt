// Readers that read less than they are asked for, or fail.
use super::*;
use std::io;
use std::io::ErrorKind;

// Gives its bytes three at a time at most, and fails after them if it is told to.
#[derive(Drop)]
struct Reader<'a> {
    rest: &'a [u8],
    fails: bool,
}

impl Read for Reader<'_> {
    fn read(&mut self, buf: &mut [u8]) -> io::Result<usize> {
        if self.rest.is_empty() && self.fails {
            return Err(Error::from(ErrorKind::BrokenPipe));
        }
        let most = buf.len().min(3);
        self.rest.read(&mut buf[..most])
    }
}

#[test]
fn reads_on_after_short_reads(rt: HostRuntime) {
    let mut reader = Reader {
        rest: b"0123456789",
        fails: false,
    };
    let mut buf = [0u8; 8];
    let first = read_full(&mut reader, &mut buf);
    assert_eq!(rt; first.map_err(|e| e.len), Ok(8));
    assert_eq!(rt; &buf, b"01234567");
    let last = read_full(&mut reader, &mut buf);
    assert_eq!(rt; last.map_err(|e| e.len), Ok(2));
    assert_eq!(rt; &buf[..2], b"89".as_slice());
}

#[test]
fn tells_what_was_read_before_an_error(rt: HostRuntime) {
    let mut reader = Reader {
        rest: b"0123456",
        fails: true,
    };
    let mut buf = [0u8; 8];
    for len in [7, 0] {
        match read_full(&mut reader, &mut buf) {
            Ok(_) => panic!(rt; "no error"),
            Err(failed) => {
                assert_eq!(rt; failed.len, len);
                assert!(rt; failed.error.kind() == ErrorKind::BrokenPipe);
            }
        }
    }
    assert_eq!(rt; &buf[..7], b"0123456".as_slice());
}
