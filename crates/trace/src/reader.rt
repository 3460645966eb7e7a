// "A reader that holds the trace slice and its place serves the programs, over a core on plain numbers."
ghost use Rattle.std.specs.Prelude.{◌≡◌};
ghost use Rattle.trace.specs.Answers.{read_told};
ghost use Rattle.trace.specs.Promises.{ReadPromise, NextPromise};
ghost use Rattle.trace.specs.Reader.{reader_at};

use crate::answer::{Read, Refused};
use crate::number::read_at;

#[derive(Clone, Copy)]
pub struct Reader<'a> {
    pub src: &'a [u8],
    pub at: usize,
}

impl<'a> Reader<'a> {
    // A reader of `src` at the place `at`.
    pub fn open(src: &'a [u8], at: usize) -> Reader<'a>
        ensures { result ≡ reader_at src.entry at }
    {
        Reader { src, at }
    }

    // The next number. Where it is accepted the reader moves on; at a refusal and at the end it stays.
    pub fn next(&mut self) -> Result<Read, Refused>
        ensures { NextPromise self.old result self.new }
    {
        let found = read_at(self.src, self.at);
        self.at = place_of(found);
        found
    }
}

// The place that an answer gives.
fn place_of(found: Result<Read, Refused>) -> usize
    ensures { result ≡ (read_told found).place }
{
    match found {
        Ok(Read::Number { next, .. }) => next,
        Ok(Read::End { at }) => at,
        Err(Refused { at, .. }) => at,
    }
}

// "up to 32,768 bytes, as if the input ended there": the most that a program reads of a trace.
pub const MOST_BYTES: usize = 32768;

// The number at a place of a slice, by a reader made for it: what programs call. Its contract says
// nothing of a reader.
pub fn number_at(s: &[u8], at: usize) -> Result<Read, Refused>
    ensures { ReadPromise s.now at result }
{
    Reader::open(s, at).next()
}
