//! The clock of a script.
ghost use Rattle.std.specs.Prelude.{◌≡◌, drop, option_map, IfOk};
ghost use Rattle.std.specs.List.{filter_map, list_all};
ghost use Rattle.moka_script.specs.Lex.{is_number, number_of, texts, words_of};
ghost use Rattle.moka_script.specs.Clock.{is_clock, readings_of, told_readings};

use crate::lex::{is_word, number};
use std::alloc::{AllocError, Global};

/// The readings of a clock, which still stand in their line, so that reading it needs no memory.
#[derive(Clone, Copy)]
pub struct Readings<'a> {
    line: &'a str,
}

impl<'a> Readings<'a> {
    /// The readings in a line, behind its first word, if they are all numbers.
    pub fn new(line: &'a str) -> Option<Self>
        ensures { option_map told_readings result ≡ readings_of (drop 1 (words_of line.now)) }
    {
        if are_numbers(line) {
            Some(Readings { line })
        } else {
            None
        }
    }

    /// The readings in order.
    pub fn collect(self, alloc: Global) -> Result<Vec<u64>, AllocError>
        ensures { IfOk result (λ readings. readings.items ≡ told_readings self.entry) }
    {
        numbers_of(alloc, self.line)
    }
}

/// Tells whether all words behind the first one are numbers.
fn are_numbers(line: &str) -> bool
    ensures { result ≡ list_all is_number (drop 1 (words_of line.now)) }
{
    let mut words = line.split(' ').filter(is_word).skip(1);
    words.all(|word| number(word).is_some())
}

/// The numbers behind the first word.
fn numbers_of(alloc: Global, line: &str) -> Result<Vec<u64>, AllocError>
    ensures { IfOk result (λ numbers. numbers.items ≡ filter_map (number_of 64) (drop 1 (words_of line.now))) }
{
    let words = line.split(' ').filter(is_word).skip(1);
    words.filter_map(number).collect(alloc)
}

/// Tells whether the words are `clock` and at least one more.
pub fn is_clock(words: &[&str]) -> bool
    ensures { result ≡ is_clock (texts words.now) }
{
    match words {
        [name, _, ..] => *name == "clock",
        _ => false,
    }
}
