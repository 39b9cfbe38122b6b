ghost use Rattle.std.specs.Prelude.{◌<◌, ◌^◌};

use outside_io::{
    ErrSink, FileShelf, Gate, MemShelf, MemSink, OpenGate, OutSink, Read, ReadEnd, Shelf,
    WriteFailed, put_all, read_whole,
};
use std::alloc::Global;
use std::fs;
use std::process::Abort;
use std::rt::Files;

fn bytes_of(rt: &impl Abort, alloc: Global, text: &str) -> Vec<u8> {
    Vec::from_slice(alloc, text.as_bytes()).expect(rt, "memory")
}

static FILES: [(&str, &str); 3] = [("a", "hello"), ("empty", ""), ("a", "other")];

/// A shelf that holds `hello`, an empty file, and a second file of the first name.
fn shelf_of(rt: &impl Abort, alloc: Global, chunk: usize, failing: &[u64]) -> MemShelf
    requires { 0 < chunk }
{
    let mut files = Vec::new(alloc);
    for &(name, text) in &FILES {
        let name = String::from_str(alloc, name).expect(rt, "memory");
        files
            .push((name, bytes_of(rt, alloc, text)))
            .expect(rt, "memory");
    }
    MemShelf::new(files, chunk, failing.to_vec(alloc).expect(rt, "memory"))
}

/// A name, a place, and the answer with the bytes that a read from there gives, of which the second fails.
static READS: [(&str, u64, Read, &str); 7] = [
    ("a", 0, Read::Bytes(2), "he"),
    ("a", 2, Read::Failed, ""),
    ("a", 3, Read::Bytes(2), "lo"),
    ("a", 4, Read::Bytes(1), "o"),
    ("a", 5, Read::End, ""),
    ("b", 0, Read::Failed, ""),
    ("empty", 0, Read::End, ""),
];

fn is_read(shelf: &mut MemShelf, name: &str, at: u64, answer: Read, bytes: &str) -> bool {
    let mut into = [0; 4];
    shelf.read(name, at, &mut into) == answer && into.starts_with(bytes.as_bytes())
}

#[test]
fn reads_parts_of_files_in_memory(rt: HostRuntime) {
    let mut shelf = shelf_of(&rt, rt.alloc(), 2, &[2]);
    for row in &READS {
        assert!(rt;
            is_read(&mut shelf, row.0, row.1, row.2, row.3),
            "{} from {}",
            row.0,
            row.1
        );
    }
}

fn is_whole(found: &Result<Vec<u8>, ReadEnd>, wanted: Result<&[u8], ReadEnd>) -> bool {
    match (found, wanted) {
        (Ok(bytes), Ok(text)) => bytes.as_slice() == text,
        (Err(end), Err(other)) => *end == other,
        _ => false,
    }
}

/// A name, a limit, the numbers of the reads that fail, and what a read of the whole file gives.
type Whole = (&'static str, u64, [u64; 2], Result<&'static [u8], ReadEnd>);

static WHOLES: [Whole; 5] = [
    ("a", 5, [9, 9], Ok(b"hello")),
    ("a", 4, [9, 9], Err(ReadEnd::TooLong)),
    ("empty", 0, [9, 9], Ok(b"")),
    ("a", 5, [9, 2], Err(ReadEnd::Failed)),
    ("b", 5, [9, 9], Err(ReadEnd::Failed)),
];

fn is_read_whole(rt: &impl Abort, alloc: Global, row: &Whole) -> bool {
    assert!(rt; row.1 < 1 << 32);
    let mut shelf = shelf_of(rt, alloc, 2, &row.2);
    is_whole(&read_whole(alloc, &mut shelf, row.0, row.1), row.3)
}

fn are_read_whole(rt: &impl Abort, alloc: Global, rows: &[Whole]) {
    for row in rows {
        assert!(rt; is_read_whole(rt, alloc, row), "{} up to {}", row.0, row.1);
    }
}

#[test]
fn reads_whole_files(rt: HostRuntime) {
    are_read_whole(&rt, rt.alloc(), &WHOLES);
}

const FAILED: Result<(), WriteFailed> = Err(WriteFailed);

/// Room and chunk of a text in memory, the number of the put that fails, how `abc` and `def` end, and the text then.
type Puts = (
    usize,
    usize,
    u64,
    Result<(), WriteFailed>,
    Result<(), WriteFailed>,
    &'static str,
);

static PUTS: [Puts; 4] = [
    (4, 1, 9, Ok(()), FAILED, "abcd"),
    (8, 1, 9, Ok(()), Ok(()), "abcdef"),
    (8, 2, 2, FAILED, Ok(()), "abdef"),
    (4, 8, 9, Ok(()), FAILED, "abc"),
];

fn is_put(rt: &impl Abort, alloc: Global, row: &Puts) -> bool {
    assert!(rt; row.1 > 0);
    let failing = Vec::from_slice(alloc, &[row.2]).expect(rt, "memory");
    let mut sink = MemSink::new(alloc, row.0, row.1, failing).expect(rt, "memory");
    put_all(&mut sink, b"").is_ok()
        && put_all(&mut sink, b"abc") == row.3
        && put_all(&mut sink, b"def") == row.4
        && sink.text() == row.5.as_bytes()
}

#[test]
fn puts_pieces_into_memory(rt: HostRuntime) {
    for row in &PUTS {
        assert!(rt; is_put(&rt, rt.alloc(), row), "{}", row.5);
    }
}

const PATH: &str = "outside_io_test";

fn has_whole<R: Files>(rt: &R, alloc: Global, limit: u64, whole: Result<&[u8], ReadEnd>) -> bool
    requires { limit < 2 ^ 32 }
{
    let mut shelf = FileShelf::new(rt);
    is_whole(&read_whole(alloc, &mut shelf, PATH, limit), whole)
}

#[test]
fn reads_a_file_of_the_machine(rt: HostRuntime) {
    let text = vec![in rt.alloc(); b'x'; 40_000].expect(&rt, "memory");
    fs::write(&rt, PATH, text.as_slice()).expect(&rt, "a file that is written");
    let is_read = has_whole(&rt, rt.alloc(), 40_000, Ok(text.as_slice()));
    let is_too_long = has_whole(&rt, rt.alloc(), 39_999, Err(ReadEnd::TooLong));
    fs::remove_file(&rt, PATH).expect(&rt, "a file that is removed");
    let is_gone = has_whole(&rt, rt.alloc(), 5, Err(ReadEnd::Failed));
    assert!(rt; is_read && is_too_long && is_gone);
}

#[test]
fn writes_to_the_machine(rt: HostRuntime) {
    OpenGate.pass(0);
    assert!(rt; put_all(&mut OutSink::new(rt.stdout()), b"out\n").is_ok());
    assert!(rt; put_all(&mut ErrSink::new(rt.stderr()), b"err\n").is_ok());
    let mut room = [0; 3];
    let full = put_all(&mut OutSink::new(room.as_mut_slice()), b"more");
    assert!(rt; full == Err(WriteFailed));
    assert!(rt; room.as_slice() == b"mor".as_slice());
}
