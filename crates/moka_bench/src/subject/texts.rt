//! The engine with texts.
ghost use Rattle.std.specs.Prelude.{◌≡◌, IfOk};
ghost use Rattle.moka_bench.specs.Engines.{made_with, plain_config};

use super::Subject;
use crate::config::Config;
use crate::engines::Driven;
use moka_parts::closures::NoWeigher;
use moka_parts::error::OutOfMemory;
use moka_parts::housekeeper::FixedClock;
use moka_parts::notification::NoListener;
use moka_parts::policy::{Instant, NoExpiry};
use std::alloc::{AllocError, Global};
use std::hash::BuildHasher;

/// The engine with texts by texts, which were made before: a number tells the one at its place, modulo how many there
/// are.
pub struct Texts<S: BuildHasher> {
    driven: Driven<String, String, S, NoExpiry, NoListener, NoWeigher>,
    keys: Vec<String>,
    values: Vec<String>,
}

// Written out so that an owner's drop is one call.
impl<S: BuildHasher + Drop> Drop for Texts<S> {
    fn drop(self) {
        let Texts {
            driven: _,
            keys: _,
            values: _,
        } = self;
    }
}

impl<S: BuildHasher> Texts<S> {
    /// An empty engine at the moment 0, and so many texts.
    pub fn new(alloc: Global, hasher: S, config: Config) -> Result<Self, OutOfMemory>
    where
        S: Drop,
        ensures { IfOk result (λ t. t.driven.engine.state
            ≡ made_with {L = Unit {0}} (plain_config config) hasher config.is_automatic) }
    {
        Ok(Texts {
            keys: make_texts(alloc, "key-", config.texts)?,
            values: make_texts(alloc, "value-", config.texts)?,
            driven: Driven::new(alloc, hasher, config.plain(), config.is_automatic)?,
        })
    }
}

impl<S: BuildHasher> Subject for Texts<S> {
    // What is found counts as its last byte.
    #[inline(always)]
    fn get(&mut self, key: u64, now: Instant) -> Result<Option<u64>, OutOfMemory> {
        let Some(key) = text_at(&self.keys, key) else {
            return Ok(None);
        };
        let hash = self.driven.engine.hash(key);
        let found = self
            .driven
            .engine
            .get_with_own_hash(key, hash, false, now, &mut FixedClock(now))?;
        let Some(entry) = found else {
            return Ok(None);
        };
        match entry.value().as_bytes().last() {
            Some(last) => Ok(Some(u64::from(*last))),
            None => Ok(Some(0)),
        }
    }

    // The value is the key's own text.
    fn put(&mut self, key: u64, _: u64, now: Instant, may_run: bool) -> Result<bool, OutOfMemory> {
        let (Some(key), Some(value)) = (text_at(&self.keys, key), text_at(&self.values, key)) else {
            return Ok(false);
        };
        let (key, value) = (key.clone()?, value.clone()?);
        self.driven.put_and_send(key, value, now, may_run)
    }

    fn run(&mut self, now: Instant, batch: u32) {
        self.driven.maintain(now, batch);
    }

    fn entry_count(&self) -> u64 {
        self.driven.engine.entry_count()
    }

    fn notices(&self) -> u64 {
        0
    }
}

// The text that a number tells.
#[inline(always)]
fn text_at(texts: &Vec<String>, number: u64) -> Option<&String> {
    let place = number.checked_rem(texts.len() as u64)?;
    texts.get(place as usize)
}

// So many texts.
fn make_texts(alloc: Global, begin: &str, count: u64) -> Result<Vec<String>, AllocError> {
    let mut texts = Vec::new(alloc);
    for number in 0..count {
        texts.push(text(alloc, begin, number)?)?;
    }
    Ok(texts)
}

// The last sixteen digits of a number.
fn digits(number: u64) -> [u8; 16] {
    let mut bytes = [b'0'; 16];
    let mut rest = number;
    for byte in bytes.iter_mut().rev() {
        *byte = b'0' + (rest % 10) as u8;
        rest /= 10;
    }
    bytes
}

// A number's text: its digits, with these bytes in place of the first.
fn text(alloc: Global, begin: &str, number: u64) -> Result<String, AllocError> {
    let mut bytes = digits(number);
    for (to, from) in bytes.iter_mut().zip(begin.as_bytes()) {
        *to = *from;
    }
    match str::from_utf8(&bytes) {
        Ok(text) => String::from_str(alloc, text),
        Err(_) => Err(AllocError),
    }
}
