//! Streams of operations, in phases.
ghost use Rattle.std.specs.Prelude.{◌≡◌, ◌<◌, length, is_some};
ghost use Rattle.moka_bench.specs.Phases.{is_known, is_stream, number_at};

use crate::driver::Driver;
use crate::subject::Subject;
use moka_parts::housekeeper::EVICTION_BATCH_SIZE;

// How many words a phase begins with.
const HEADER: usize = 4;

// What is done in a phase.
#[derive(Clone, Copy)]
enum Phase {
    Get,
    Put,
    ReadThrough,
    PutPairs,
    Run,
    Tick,
    GetAndRun,
    PutAndRun,
}

impl Phase {
    // The phase that a word says.
    fn of(operation: u64) -> Option<Phase>
        ensures { is_some result ≡ is_known operation }
    {
        match operation {
            1 => Some(Phase::Get),
            2 => Some(Phase::Put),
            3 => Some(Phase::ReadThrough),
            4 => Some(Phase::PutPairs),
            5 => Some(Phase::Run),
            6 => Some(Phase::Tick),
            7 => Some(Phase::GetAndRun),
            8 => Some(Phase::PutAndRun),
            _ => None,
        }
    }
}

/// Drives a cache through the phases of a stream. Whether the stream is well formed.
pub fn drive<T: Subject>(driver: &mut Driver<T>, stream: &[[u8; 8]]) -> bool
    ensures { result ≡ is_stream (length stream.now) stream.now }
{
    let mut rest = stream;
    for _ in 0..stream.len() {
        if rest.len() < HEADER {
            return rest.is_empty();
        }
        let (_, body) = rest.split_at(HEADER);
        let n = number(rest, 1);
        if n > body.len() as u64 {
            return false;
        }
        let (words, behind) = body.split_at(n as usize);
        let operation = number(rest, 0);
        let argument = number(rest, 2);
        if !make(driver, operation, argument, words) {
            return false;
        }
        rest = behind;
    }
    rest.is_empty()
}

// The number that a word says.
fn number(words: &[[u8; 8]], index: usize) -> u64
    requires { index < length words.now }
    ensures { result ≡ number_at words.now index }
{
    u64::from_le_bytes(words[index])
}

// Makes the operations of one phase. Whether it is a known one.
fn make<T: Subject>(
    driver: &mut Driver<T>,
    operation: u64,
    argument: u64,
    words: &[[u8; 8]],
) -> bool
    ensures { result ≡ is_known operation }
{
    let Some(phase) = Phase::of(operation) else {
        return false;
    };
    match phase {
        Phase::Get => get_all(driver, words),
        Phase::Put => put_all(driver, words, true),
        Phase::ReadThrough => read_through(driver, words),
        Phase::PutPairs => put_pairs(driver, words),
        Phase::Run => driver.run(u32::try_from(argument).unwrap_or(u32::MAX)),
        Phase::Tick => driver.tick(argument),
        Phase::GetAndRun => get_and_run(driver, words, argument),
        Phase::PutAndRun => put_and_run(driver, words, argument),
    }
    true
}

#[inline(never)]
fn get_all<T: Subject>(driver: &mut Driver<T>, keys: &[[u8; 8]]) {
    for key in keys {
        driver.step();
        driver.get(u64::from_le_bytes(*key));
    }
}

fn put_all<T: Subject>(driver: &mut Driver<T>, keys: &[[u8; 8]], may_run: bool) {
    for key in keys {
        driver.step();
        driver.put_next(u64::from_le_bytes(*key), may_run);
    }
}

// Puts the second number of each pair under the first.
fn put_pairs<T: Subject>(driver: &mut Driver<T>, words: &[[u8; 8]]) {
    for pair in words.chunks_exact(2) {
        driver.step();
        let (key, value) = (u64::from_le_bytes(pair[0]), u64::from_le_bytes(pair[1]));
        driver.put(key, value, true);
    }
}

// Gets each key, and puts what is missing at the same moment.
#[inline(never)]
fn read_through<T: Subject>(driver: &mut Driver<T>, keys: &[[u8; 8]]) {
    for key in keys {
        driver.step();
        let key = u64::from_le_bytes(*key);
        if !driver.get(key) {
            driver.put_next(key, true);
        }
    }
}

// Gets all keys, with a run after each `count` of them and at the end.
fn get_and_run<T: Subject>(driver: &mut Driver<T>, keys: &[[u8; 8]], count: u64) {
    for some in keys.chunks((count as usize).max(1)) {
        get_all(driver, some);
        driver.run(EVICTION_BATCH_SIZE);
    }
    driver.run(EVICTION_BATCH_SIZE);
}

// Puts all keys, with a run after each `count` of them and at the end.
fn put_and_run<T: Subject>(driver: &mut Driver<T>, keys: &[[u8; 8]], count: u64) {
    for some in keys.chunks((count as usize).max(1)) {
        put_all(driver, some, false);
        driver.run(EVICTION_BATCH_SIZE);
    }
    driver.run(EVICTION_BATCH_SIZE);
}
