//! The program, as it answers its words, over a shelf and a sink in memory.
use crate::trial::steps_shelf;
use np_io::MemorySink;
use np_program::program;
use std::env::FillError;
use std::process::Abort;
use std::rt::Env;

const USAGE: &str =
    "usage: solve DOMAIN PROBLEM PLAN CERT [NODES]\n       check DOMAIN PROBLEM CERT [PLAN]\n       run DOMAIN PROBLEM PLAN\n       list DOMAIN PROBLEM\n";

/// The words of a process, the program's name first, and no environment.
#[derive(Drop)]
struct Words<'a> {
    words: &'a [&'a [u8]],
}

impl<'a> Env for Words<'a> {
    fn arg(&self, i: usize, buf: &mut [u8]) -> Result<usize, FillError> {
        let Some(word) = self.words.get(i) else {
            return Err(FillError::NotPresent);
        };
        if word.len() > buf.len() {
            return Err(FillError::TooLong);
        }
        for (to, from) in buf.iter_mut().zip(word.iter()) {
            *to = *from;
        }
        Ok(word.len())
    }

    fn var(&self, _name: &str, _buf: &mut [u8]) -> Result<usize, FillError> {
        Err(FillError::NotPresent)
    }

    fn var_at(&self, _i: usize, _buf: &mut [u8]) -> Result<usize, FillError> {
        Err(FillError::NotPresent)
    }
}

/// Words, the line and the status.
const ROWS: &[(&[&[u8]], &str, u8)] = &[
    (
        &[b"famuvoliel", b"solve", b"d", b"p", b"plan", b"cert", b"2"],
        "Budget spent 2, bound 2, weak 0\n",
        11,
    ),
    (
        &[b"famuvoliel", b"solve", b"d", b"p", b"plan", b"cert"],
        "Optimal 3, weak 0\n",
        0,
    ),
    // The last word isn't UTF-8.
    (
        &[b"famuvoliel", b"solve", b"d", b"p", b"plan", b"cer\xff"],
        USAGE,
        2,
    ),
    (&[b"famuvoliel"], USAGE, 2),
    (&[], USAGE, 2),
];

/// Runs the program on these words over the first example, and compares its status and what it pushed.
fn expect_program(rt: &(impl Abort + AllocGlobal), words: &[&[u8]], answer: &str, status: u8) {
    let mut shelf = steps_shelf(rt);
    let mut sink = MemorySink::new(rt.alloc());
    let given = program(rt.alloc(), &Words { words }, &mut shelf, &mut sink);
    assert!(rt; sink.bytes() == answer.as_bytes() && given == status);
}

#[test]
fn words_are_answered(rt: HostRuntime) {
    for (words, answer, status) in ROWS {
        expect_program(&rt, words, answer, *status);
    }
}
