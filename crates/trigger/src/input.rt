// The whole input, and its lines. An input is any bytes: a line that is no text is unreadable and does not end the program.
ghost use Rattle.std.specs.Prelude.{◌≡◌, ℕ, ◌<◌, ◌≤◌, length, IsUtf8, MatchResult, ◌≢◌, slice_index};
ghost use Rattle.std.specs.Iterator.{at_most};

use crate::unreadable::Unreadable;
use std::io::Read;
use std::{fs, io};

// The bytes of the file, or of the standard input where none is named.
pub(crate) fn read_all(rt: &HostRuntime, path: Option<&str>) -> io::Result<Vec<u8>> {
    match path {
        Some(path) => fs::read(rt, path),
        None => read_standard_input(rt),
    }
}

fn read_standard_input(rt: &HostRuntime) -> io::Result<Vec<u8>> {
    let mut bytes = Vec::new(rt.alloc());
    rt.stdin().read_to_end(&mut bytes)?;
    Ok(bytes)
}

// Where the first line ends: at its newline, or at the end of the bytes.
fn line_end(bytes: &[u8]) -> usize
    ensures within { result ≤ length bytes.now }
    ensures before { (k : ℕ) → k < result → slice_index bytes.now k ≢ 10 }
    ensures found { result < length bytes.now → slice_index bytes.now result ≡ 10 }
{
    bytes
        .iter()
        .position(|b| *b == b'\n')
        .unwrap_or(bytes.len())
}

// A line of the input without its newline, and its number from 1.
#[derive(Clone, Copy)]
pub(crate) struct InputLine<'a> {
    pub(crate) number: u64,
    pub(crate) bytes: &'a [u8],
}

// The lines of the input. The last one needs no newline. Tried with `split` and `enumerate`: in each loop over the lines it stayed
// open that the closure which they hold can be called, and that the count fits.
#[derive(Drop)]
pub(crate) struct ByteLines<'a> {
    rest: &'a [u8],
    // how many lines came before: counted here, so that each line bears its number
    passed: u64,
}

impl<'a> ByteLines<'a> {
    pub(crate) fn new(bytes: &'a [u8]) -> ByteLines<'a> {
        ByteLines {
            rest: bytes,
            passed: 0,
        }
    }
}

impl<'a> Iterator for ByteLines<'a> {
    type Item = InputLine<'a>;

    ghost remaining = { λ s. at_most (length s.rest.now) };

    fn next(&mut self) -> Option<InputLine<'a>> {
        let bytes = self.rest;
        if bytes.is_empty() {
            return None;
        }
        let (line, rest) = bytes.split_at(line_end(bytes));
        self.rest = match rest {
            [_, after @ ..] => after,
            [] => rest,
        };
        self.passed = self.passed.saturating_add(1);
        Some(InputLine {
            number: self.passed,
            bytes: line,
        })
    }
}

// A line as text.
pub(crate) fn text_of(bytes: &[u8]) -> Result<&str, Unreadable>
    ensures { MatchResult result (λ text. text.now ≡ bytes.now) (λ _. IsUtf8 bytes.now → ⊥) }
{
    std::str::from_utf8(bytes).map_err(|_| Unreadable::NotText)
}
