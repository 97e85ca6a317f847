//! Shelves and sinks at work, with faults, and real files and output at sizes that need more than one read or write.
use np_io::{Fetch, FileShelf, Give, MemoryShelf, MemorySink, OutSink, Shelf, Sink};
use std::cell::Cell;
use std::fmt::Display;
use std::io::ErrorKind;
use std::process::Abort;
use std::rt::Files;
use std::test::Fail;
use std::{env, fs, io, process};

/// A name, a limit, and what a fetch answers.
type Fetched<'a> = (&'a str, usize, Result<&'a str, Fetch>);

/// A name, a text, and what a put answers.
type Put<'a> = (&'a str, &'a str, Result<(), Give>);

/// A piece, and what a push answers.
type Pushed<'a> = (&'a str, Result<(), Give>);

/// Whether a fetch of this name answers so.
fn fetches<S: Shelf>(rt: &(impl Abort + AllocGlobal), shelf: &mut S, row: &Fetched<'_>) -> bool {
    match (shelf.fetch(rt.alloc(), row.0, row.1), row.2) {
        (Ok(bytes), Ok(text)) => bytes.as_slice() == text.as_bytes(),
        (Err(why), Err(wanted)) => why == wanted,
        _ => false,
    }
}

/// Whether a put of this text answers so.
fn puts<S: Shelf>(shelf: &mut S, row: &Put<'_>) -> bool {
    shelf.put(row.0, row.1.as_bytes()) == row.2
}

/// Whether a push of this piece answers so.
fn pushes<W: Sink>(sink: &mut W, row: &Pushed<'_>) -> bool {
    sink.push(row.0.as_bytes()) == row.1
}

/// Fetches texts by name and limit, and compares the answers.
fn expect_fetches<S: Shelf>(rt: &(impl Abort + AllocGlobal), shelf: &mut S, rows: &[Fetched<'_>]) {
    for row in rows {
        assert!(rt; fetches(rt, shelf, row), "{}", row.0);
    }
}

/// Puts texts under names, and compares the answers.
fn expect_puts<S: Shelf>(rt: &impl Abort, shelf: &mut S, rows: &[Put<'_>]) {
    for row in rows {
        assert!(rt; puts(shelf, row), "{}", row.0);
    }
}

/// Pushes pieces, and compares the answers.
fn expect_pushes<W: Sink>(rt: &impl Abort, sink: &mut W, rows: &[Pushed<'_>]) {
    for row in rows {
        assert!(rt; pushes(sink, row), "{}", row.0);
    }
}

/// A shelf with a text under `d`, whose third, fifth and sixth call are to fail.
fn failing_shelf(rt: &(impl Abort + AllocGlobal)) -> MemoryShelf {
    let mut shelf = MemoryShelf::new(rt.alloc());
    shelf.set("d", b"old").expect(rt, "memory");
    shelf.set("d", b"domain").expect(rt, "memory");
    for (call, kept) in [(3, 0), (5, 5), (5, 1), (6, 99)] {
        shelf.fail(call, kept).expect(rt, "memory");
    }
    shelf
}

/// What it answers, call by call.
const FETCHES: &[Fetched<'static>] = &[
    ("d", 6, Ok("domain")),
    ("d", 5, Err(Fetch::TooLong)),
    ("p", usize::MAX, Err(Fetch::Failed)),
    ("d", 6, Err(Fetch::Failed)),
    ("d", 6, Ok("domain")),
];

const PUTS: &[Put<'static>] = &[
    ("c", "(certificate", Err(Give::Failed)),
    ("e", "ab", Err(Give::Failed)),
    ("d", "new", Ok(())),
];

const LEFT: &[Fetched<'static>] = &[
    ("c", 9, Ok("(cert")),
    ("e", 9, Ok("ab")),
    ("d", 9, Ok("new")),
];

/// Whether the shelf has made eleven calls, four of which failed, and holds what a cut put has left.
fn is_worn(shelf: &MemoryShelf) -> bool {
    shelf.get("c") == Some(b"(cert".as_slice())
        && shelf.calls() == 11
        && shelf.failures().len() == 4
}

#[test]
fn memory_fails_where_it_was_told(rt: HostRuntime) {
    let mut shelf = failing_shelf(&rt);
    expect_fetches(&rt, &mut shelf, FETCHES);
    expect_puts(&rt, &mut shelf, PUTS);
    expect_fetches(&rt, &mut shelf, LEFT);
    assert!(rt; is_worn(&shelf));
}

/// A sink whose second call is to fail after two bytes.
fn failing_sink(rt: &(impl Abort + AllocGlobal)) -> MemorySink {
    let mut sink = MemorySink::new(rt.alloc());
    sink.fail(1, 2).expect(rt, "memory");
    sink
}

const PUSHES: &[Pushed<'static>] = &[
    ("one ", Ok(())),
    ("two ", Err(Give::Failed)),
    ("end", Ok(())),
];

/// Whether the sink has made three calls, one of which failed, and has the bytes that were pushed.
fn is_cut(sink: &MemorySink) -> bool {
    sink.bytes() == b"one twend".as_slice() && sink.calls() == 3 && sink.faults() == 1
}

#[test]
fn a_sink_fails_where_it_was_told(rt: HostRuntime) {
    let mut sink = failing_sink(&rt);
    expect_pushes(&rt, &mut sink, PUSHES);
    assert!(rt; is_cut(&sink));
}

/// The size of a text that takes many reads and writes.
const LONG: usize = 5_000_000;

/// A text of that size in which no two pieces of 64 KiB are the same.
fn long_text(rt: &(impl Abort + AllocGlobal)) -> Vec<u8> {
    let mut text = Vec::with_capacity(rt.alloc(), LONG).expect(rt, "memory");
    for n in 0..LONG {
        text.push((n % 251) as u8).expect(rt, "memory");
    }
    text
}

/// Whether a long text is put under the name, and fetched where the limit lets it.
fn keeps_long<S: Shelf>(rt: &(impl Abort + AllocGlobal), shelf: &mut S, name: &str) -> bool {
    let long = long_text(rt);
    let is_put = shelf.put(name, long.as_slice()) == Ok(());
    let short = shelf.fetch(rt.alloc(), name, LONG - 1);
    let whole = shelf.fetch(rt.alloc(), name, LONG);
    match (short, whole) {
        (Err(Fetch::TooLong), Ok(read)) => is_put && read.as_slice() == long.as_slice(),
        _ => false,
    }
}

/// A short text in the place of the long one, and a file below a file.
fn expect_short<S: Shelf>(rt: &(impl Abort + AllocGlobal), shelf: &mut S, name: &str, below: &str) {
    let puts = [(name, "short", Ok(())), (below, "x", Err(Give::Failed))];
    expect_puts(rt, shelf, &puts);
    let fetches = [
        (name, 4, Err(Fetch::TooLong)),
        (name, 5, Ok("short")),
        (name, usize::MAX, Ok("short")),
    ];
    expect_fetches(rt, shelf, &fetches);
}

/// A file shelf under this name, of which nothing is there yet. Two of its calls fail.
fn expect_files(rt: &(impl Abort + AllocGlobal + Files), name: &str) {
    let below = format!(in rt.alloc(); "{name}/below").expect(rt, "memory");
    let mut shelf = FileShelf::new(rt.alloc(), rt);
    expect_fetches(rt, &mut shelf, &[(name, 9, Err(Fetch::Failed))]);
    assert!(rt; keeps_long(rt, &mut shelf, name));
    expect_short(rt, &mut shelf, name, below.as_str());
    assert!(rt; shelf.failures().len() == 2);
}

#[test]
fn files_are_written_and_read(rt: HostRuntime) -> Result<(), Fail> {
    let file = format!(in rt.alloc(); "np_io-{}", process::id(rt.process()))?;
    let path = env::temp_dir(&rt)?.join(rt.alloc(), file.as_str())?;
    expect_files(&rt, path.as_str());
    fs::remove_file(&rt, path.as_path())?;
    Ok(())
}

/// Output that takes three bytes at a time, and none of a piece that begins with `!`. It keeps a sum of the bytes that it
/// took, each times its place.
#[derive(Drop)]
struct Slow {
    taken: Cell<u64>,
    sum: Cell<u64>,
}

impl Slow {
    /// Takes one byte.
    fn take(&self, byte: u8) {
        let place = self.taken.get().wrapping_add(1);
        self.taken.set(place);
        self.sum.set(
            self.sum
                .get()
                .wrapping_add(place.wrapping_mul(u64::from(byte))),
        );
    }
}

impl Print for Slow {
    fn print<D: Display + Drop>(&self, _value: D) -> io::Result<()> {
        Err(io::Error::from(ErrorKind::Unsupported))
    }

    fn println<D: Display + Drop>(&self, _value: D) -> io::Result<()> {
        Err(io::Error::from(ErrorKind::Unsupported))
    }

    fn write_all(&self, _bytes: &[u8]) -> io::Result<()> {
        Err(io::Error::from(ErrorKind::Unsupported))
    }

    fn write_some(&self, bytes: &[u8]) -> io::Result<usize> {
        if bytes.first() == Some(&b'!') {
            return Ok(0);
        }
        let count = bytes.len().min(3);
        for byte in bytes.iter().take(count) {
            self.take(*byte);
        }
        Ok(count)
    }
}

#[test]
fn output_is_pushed(rt: HostRuntime) {
    let mut out = OutSink::new(&rt);
    expect_pushes(&rt, &mut out, &[("standard output\n", Ok(()))]);
    assert!(rt; out.faults() == 0);
}

const SLOW: &[Pushed<'static>] = &[("four", Ok(())), ("one!", Err(Give::Failed)), ("", Ok(()))];

/// Whether the push of more than a page is taken: 10,000 bytes of the value 1 at the places 8 to 10,007.
fn takes_page<W: Sink>(rt: &(impl Abort + AllocGlobal), sink: &mut W) -> bool {
    let page = vec![in rt.alloc(); 1u8; 10_000].expect(rt, "memory");
    sink.push(page.as_slice()) == Ok(())
}

#[test]
fn slow_output_is_pushed(rt: HostRuntime) {
    let slow = Slow {
        taken: Cell::new(0),
        sum: Cell::new(0),
    };
    let mut out = OutSink::new(&slow);
    expect_pushes(&rt, &mut out, SLOW);
    assert!(rt; out.faults() == 1 && slow.taken.get() == 7);
    let sum = slow.sum.get();
    assert!(rt; takes_page(&rt, &mut out) && slow.taken.get() == 10_007);
    assert!(rt; slow.sum.get().wrapping_sub(sum) == 50_075_000);
}
