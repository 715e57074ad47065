use super::*;
use std::io::{ErrorKind, Write};
use std::test::Fail;
use std::{fs, io};

#[test]
fn a_file_is_read_up_to_one_byte_past_the_limit_and_a_missing_one_is_a_fault(
    rt: HostRuntime,
) -> Result<(), Fail> {
    let path = "pa_desk_fetched.txt";
    fs::write(&rt, path, "abcdef")?;
    let mut shelf = FileShelf::new(&rt);
    let cases = [
        (6, b"abcdef".as_slice()),
        (5, b"abcdef".as_slice()),
        (3, b"abcd".as_slice()),
        (0, b"a".as_slice()),
    ];
    for (most, want) in cases {
        assert!(rt; most <= MOST_FETCHED);
        match shelf.fetch(rt.alloc(), path, most) {
            Ok(bytes) => assert_eq!(rt; bytes.as_slice(), want, "at most {most}"),
            Err(_) => assert!(rt; false, "at most {most}"),
        }
    }
    fs::remove_file(&rt, path)?;
    match shelf.fetch(rt.alloc(), path, 6) {
        Ok(_) => assert!(rt; false),
        Err(fault) => assert!(rt; fault == FetchFault::Failed),
    }
    Ok(())
}

// A writer whose first write is interrupted, whose second takes three bytes, and which is full then.
#[derive(Drop)]
struct FillingUp<'a> {
    taken: &'a mut Vec<u8>,
    writes: u8,
}

impl Write for FillingUp<'_> {
    fn write(&mut self, buf: &[u8]) -> io::Result<usize> {
        self.writes = self.writes.saturating_add(1);
        match self.writes {
            1 => Err(io::Error::from(ErrorKind::Interrupted)),
            2 => {
                let count = buf.len().min(3);
                self.taken.extend_from_slice(&buf[..count])?;
                Ok(count)
            }
            _ => Ok(0),
        }
    }

    fn flush(&mut self) -> io::Result<()> {
        Ok(())
    }
}

#[test]
fn an_output_tries_an_interrupted_write_again_and_counts_a_write_of_nothing(
    rt: HostRuntime,
) -> Result<(), Fail> {
    let mut sink = OutSink::new(io::writer(&rt));
    assert!(rt; put_all(&mut sink, b"some bytes\n").is_ok());

    let mut taken = Vec::new(rt.alloc());
    let mut sink = OutSink::new(FillingUp {
        taken: &mut taken,
        writes: 0,
    });
    assert!(rt; put_all(&mut sink, b"some bytes") == Err(PutFault::Failed));
    assert_eq!(rt; taken.as_slice(), b"som".as_slice());
    Ok(())
}

#[test]
fn a_shelf_in_memory_fails_at_its_numbers_and_where_nothing_is(
    rt: HostRuntime,
) -> Result<(), Fail> {
    let mut files = Vec::new(rt.alloc());
    for (path, bytes) in [("a", "abcdef"), ("empty", ""), ("a", "hidden")] {
        files.push(MemFile {
            path: Vec::from_slice(rt.alloc(), path.as_bytes())?,
            bytes: Vec::from_slice(rt.alloc(), bytes.as_bytes())?,
        })?;
    }
    let mut fails = Vec::new(rt.alloc());
    fails.push(1)?;
    fails.push(3)?;
    fails.push(1)?;
    let mut shelf = MemShelf::new(files, fails);
    let cases = [
        ("a", 6, Some("abcdef"), "whole at its length"),
        ("a", 6, None, "fetch 1 fails"),
        ("a", 3, Some("abcd"), "one byte past the limit"),
        ("none", 3, None, "fetch 3 fails"),
        ("none", 3, None, "nothing is at the path"),
        ("empty", 0, Some(""), "an empty file"),
        ("a", 0, Some("a"), "one byte past no byte"),
    ];
    for (path, most, want, name) in cases {
        assert!(rt; most <= MOST_FETCHED);
        match (shelf.fetch(rt.alloc(), path, most), want) {
            (Ok(bytes), Some(text)) => assert_eq!(rt; bytes.as_slice(), text.as_bytes(), "{name}"),
            (Err(FetchFault::Failed), None) => {}
            _ => assert!(rt; false, "{name}"),
        }
    }
    Ok(())
}

#[test]
fn a_sink_in_memory_fails_at_its_number_and_holds_the_front(rt: HostRuntime) -> Result<(), Fail> {
    let failed = Err(PutFault::Failed);
    let cases = [
        (1, 4, "some bytes", failed, "some", "put 1 fails"),
        (0, 4, "some bytes", failed, "", "put 0 fails"),
        (
            2,
            5,
            "some bytes",
            Ok(()),
            "some bytes",
            "two puts, and put 2 would fail",
        ),
        (
            9,
            1,
            "some bytes",
            failed,
            "some byte",
            "put 9 fails, a byte at a time",
        ),
        (1, 16, "some bytes", Ok(()), "some bytes", "one put"),
        (0, 1, "", Ok(()), "", "no put"),
    ];
    for (fail, most, text, want, held, name) in cases {
        assert!(rt; fail < u64::MAX && most >= 1);
        let mut fails = Vec::new(rt.alloc());
        fails.push(fail)?;
        let mut sink = MemSink::new(rt.alloc(), fails, most);
        assert!(rt; put_all(&mut sink, text.as_bytes()) == want, "{name}");
        assert_eq!(rt; sink.bytes(), held.as_bytes(), "{name}");
    }
    Ok(())
}
