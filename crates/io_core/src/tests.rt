use crate::opens::Opens;
use crate::{
    ByteSink, ByteSource, FileContents, Folder, IoError, Library, Shelf, Sink, Source,
    SourceContents, StdSink, StdSource, read_all, read_file,
};
use std::fs::File;
use std::io::{ErrorKind, Read};
use std::test::Fail;
use std::{fs, io};

#[test]
fn a_source_in_memory_fails_at_each_call_in_turn(rt: HostRuntime) -> Result<(), Fail> {
    let table = [
        (1, [None, Some(2), Some(2), Some(1), Some(0)]),
        (2, [Some(2), None, Some(2), Some(1), Some(0)]),
        (3, [Some(2), Some(2), None, Some(1), Some(0)]),
        (4, [Some(2), Some(2), Some(1), None, Some(0)]),
        (6, [Some(2), Some(2), Some(1), Some(0), Some(0)]),
    ];
    for (failing, answers) in table {
        let bytes = Vec::from_slice(rt.alloc(), b"abcde")?;
        let mut source = ByteSource::new(bytes, vec![in rt.alloc(); failing]?);
        let mut taken = Vec::new(rt.alloc());
        for want in answers {
            let mut into = [0u8; 2];
            match source.take(&mut into) {
                Ok(count) => {
                    assert_eq!(rt; Some(count), want, "failing {failing}");
                    taken.extend_from_slice(&into[..count])?;
                }
                Err(e) => {
                    assert_eq!(rt; e, IoError::Failed);
                    assert_eq!(rt; want, None, "failing {failing}");
                }
            }
        }
        assert_eq!(rt; taken.as_slice(), b"abcde".as_slice());
    }
    Ok(())
}

#[test]
fn a_sink_in_memory_fails_at_each_call_in_turn(rt: HostRuntime) -> Result<(), Fail> {
    let table = [(1, "cdef"), (2, "abef"), (3, "abcd"), (4, "abcdef")];
    for (failing, want) in table {
        let mut sink = ByteSink::new(rt.alloc(), vec![in rt.alloc(); failing]?);
        for (i, bytes) in ["ab", "cd", "ef"].into_iter().enumerate() {
            let answer = sink.give(bytes.as_bytes());
            let fails = i as u64 + 1 == failing;
            assert_eq!(rt; answer.is_err(), fails, "failing {failing}");
        }
        assert_eq!(rt; sink.bytes(), want.as_bytes(), "failing {failing}");
    }
    Ok(())
}

fn shelf_of(rt: &HostRuntime, failing: u64) -> Result<Shelf, Fail> {
    let mut files = Vec::new(rt.alloc());
    files.push((
        String::from_str(rt.alloc(), "a")?,
        Vec::from_slice(rt.alloc(), b"abcde")?,
    ))?;
    Ok(Shelf::new(files, vec![in rt.alloc(); failing]?))
}

#[test]
fn a_library_in_memory_fails_at_each_call_in_turn(rt: HostRuntime) -> Result<(), Fail> {
    for failing in 1..7u64 {
        let mut shelf = shelf_of(&rt, failing)?;
        let lengths = [shelf.length("a"), shelf.length("b")];
        let mut into = [[b'-'; 2]; 4];
        let reads = [
            shelf.read("a", 0, &mut into[0]),
            shelf.read("a", 4, &mut into[1]),
            shelf.read("a", 5, &mut into[2]),
            shelf.read("b", 0, &mut into[3]),
        ];
        for (i, want) in [Some(5), None].into_iter().enumerate() {
            let want = if i as u64 + 1 == failing {
                Err(IoError::Failed)
            } else {
                Ok(want)
            };
            assert_eq!(rt; lengths[i], want, "failing {failing}");
        }
        for (i, (count, bytes)) in [(2, b"ab"), (1, b"e-"), (0, b"--"), (0, b"--")]
            .into_iter()
            .enumerate()
        {
            let fails = i as u64 + 3 == failing;
            let want = if fails {
                Err(IoError::Failed)
            } else {
                Ok(count)
            };
            assert_eq!(rt; reads[i], want, "failing {failing}");
            let bytes = if fails { b"--" } else { bytes };
            assert_eq!(rt; into[i].as_slice(), bytes.as_slice(), "failing {failing}");
        }
    }
    Ok(())
}

#[test]
fn the_forms_over_std_write_read_and_look_up_a_file(rt: HostRuntime) -> Result<(), Fail> {
    let mut sink = StdSink::new(fs::create(&rt, "io_core_test.txt")?);
    sink.give(b"one ")?;
    sink.give(b"two")?;
    let mut source = StdSource::new(File::open(&rt, "io_core_test.txt")?);
    let mut into = [b'-'; 9];
    assert_eq!(rt; source.take(&mut into), Ok(7));
    assert_eq!(rt; into.as_slice(), b"one two--".as_slice());
    assert_eq!(rt; source.take(&mut into), Ok(0));
    let mut folder = Folder::new(rt.alloc(), &rt);
    assert_eq!(rt; folder.length("io_core_test.txt"), Ok(Some(7)));
    assert_eq!(rt; folder.length("io_core_none.txt"), Ok(None));
    assert_eq!(rt; folder.length("."), Err(IoError::Failed));
    assert_eq!(rt; folder.read("io_core_test.txt", 4, &mut into), Ok(3));
    assert_eq!(rt; into.as_slice(), b"two two--".as_slice());
    assert_eq!(rt; folder.read("io_core_test.txt", 7, &mut into), Ok(0));
    assert_eq!(rt;
        folder.read("io_core_none.txt", 0, &mut into),
        Err(IoError::Failed)
    );
    assert_eq!(rt; folder.read(".", 0, &mut into), Err(IoError::Failed));
    fs::remove_file(&rt, "io_core_test.txt")?;
    Ok(())
}

#[test]
fn a_folder_opens_a_file_once(rt: HostRuntime) -> Result<(), Fail> {
    fs::write(&rt, "io_core_once.txt", "abcdefghi")?;
    let opens = Opens::new(&rt);
    let mut folder = Folder::new(rt.alloc(), &opens);
    assert_eq!(rt; folder.length("io_core_once.txt"), Ok(Some(9)));
    let reads = [
        (0, 4, b"abcd"),
        (4, 4, b"efgh"),
        (8, 1, b"i---"),
        (2, 4, b"cdef"),
        (9, 0, b"----"),
        (u64::MAX, 0, b"----"),
        (6, 3, b"ghi-"),
    ];
    for (at, count, bytes) in reads {
        let mut into = [b'-'; 4];
        assert_eq!(rt; folder.read("io_core_once.txt", at, &mut into), Ok(count));
        assert_eq!(rt; into.as_slice(), bytes.as_slice(), "at {at}");
    }
    assert_eq!(rt; folder.length("io_core_once.txt"), Ok(Some(9)));
    assert_eq!(rt; opens.count(), 1);
    fs::remove_file(&rt, "io_core_once.txt")?;
    Ok(())
}

#[test]
fn a_whole_source_is_read_up_to_its_limit(rt: HostRuntime) -> Result<(), Fail> {
    for (size, limit, fits) in [
        (0, 0, true),
        (1, 0, false),
        (9000, 9000, true),
        (9001, 9000, false),
    ] {
        let mut source = ByteSource::new(vec![in rt.alloc(); 7u8; size]?, Vec::new(rt.alloc()));
        let want = if fits {
            SourceContents::Whole(vec![in rt.alloc(); 7u8; size]?)
        } else {
            SourceContents::TooLarge
        };
        let got = read_all(rt.alloc(), &mut source, limit)?;
        assert!(rt; got == want, "{size} bytes up to {limit}");
    }
    let mut source = ByteSource::new(vec![in rt.alloc(); 7u8; 9000]?, vec![in rt.alloc(); 2u64]?);
    assert!(rt; read_all(rt.alloc(), &mut source, 9000) == Err(IoError::Failed));
    Ok(())
}

#[test]
fn a_whole_file_is_read_up_to_its_limit(rt: HostRuntime) -> Result<(), Fail> {
    let mut shelf = shelf_of(&rt, 6)?;
    let whole = Vec::from_slice(rt.alloc(), b"abcde")?;
    let got = read_file(rt.alloc(), &mut shelf, "a", 5)?;
    assert!(rt; got == FileContents::Whole(whole));
    let got = read_file(rt.alloc(), &mut shelf, "a", 4)?;
    assert!(rt; got == FileContents::TooLarge);
    let got = read_file(rt.alloc(), &mut shelf, "b", 4)?;
    assert!(rt; got == FileContents::Missing);
    let got = read_file(rt.alloc(), &mut shelf, "a", 5);
    assert!(rt; got == Err(IoError::Failed));
    Ok(())
}

// What a stream answers, call by call; after the last it is at its end.
#[derive(Drop)]
struct Stub {
    answers: [Result<usize, ErrorKind>; 4],
    call: usize,
}

impl Stub {
    fn next(&mut self) -> io::Result<usize> {
        let call = self.call;
        self.call = call.saturating_add(1);
        match self.answers.get(call).copied() {
            Some(Ok(count)) => Ok(count),
            Some(Err(kind)) => Err(io::Error::from(kind)),
            None => Ok(0),
        }
    }
}

impl Read for Stub {
    fn read(&mut self, buf: &mut [u8]) -> io::Result<usize> {
        Ok(self.next()?.min(buf.len()))
    }
}

#[test]
fn a_reader_that_fails_in_mid_stream_fails_once(rt: HostRuntime) {
    let answers = [
        Ok(1),
        Err(ErrorKind::Interrupted),
        Err(ErrorKind::TimedOut),
        Err(ErrorKind::OutOfMemory),
    ];
    let mut source = StdSource::new(Stub { answers, call: 0 });
    let mut into = [0u8; 2];
    assert_eq!(rt; source.take(&mut into), Ok(1));
    assert_eq!(rt; source.take(&mut into), Err(IoError::Failed));
    assert_eq!(rt; source.take(&mut into), Err(IoError::NoMemory));
    assert_eq!(rt; source.take(&mut into), Ok(0));
}
