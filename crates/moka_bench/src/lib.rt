//! The engine behind one function on bytes, for programs that time it.
#![tactic(auto)]

ghost use Rattle.std.specs.Prelude.{◌≡◌, ◌≢◌, ◌≤◌, ◌↔◌, true, false, length, Err, OnOk};
ghost use Rattle.moka_bench.specs.Config.{is_served};
ghost use Rattle.moka_bench.specs.Phases.{is_well_formed};
ghost use Rattle.moka_bench.specs.declared.driver.Failure.TheVariants.{Malformed};

mod config;
mod driver;
mod engines;
mod given;
mod phases;
mod subject;

use crate::config::{Config, is_served};
use crate::driver::{Counts, Driver, Failure};
use crate::engines::Driven;
use crate::given::{Apart, BY_VALUE, ByRemainder, Heard};
use crate::phases::drive;
use crate::subject::{Subject, Synchronous, Texts};
use moka_parts::error::OutOfMemory;
use std::alloc::Global;
use std::hash::{BuildHasher, BuildHasherDefault, DefaultHasher, FoldHasher};

// What `run` answers.
const DONE: u64 = 0;

const NOT_SERVED: u64 = 1;

const OUT_OF_MEMORY: u64 = 2;

const MALFORMED: u64 = 3;

/// Makes a cache, drives it through a stream of operations, and writes what it counted into `counts`.
///
/// The answer is 0, 1 if the configuration is not served, 2 if memory was refused, and 3 if the stream is malformed;
/// `counts` is written at 0 alone.
pub fn run(alloc: Global, config: &[u8], stream: &[u8], counts: &mut [u8]) -> u64
    ensures answers { result ≤ 3 }
    ensures not_served { (result ≡ 1) ↔ (is_served config.now (length counts.old) ≡ false) }
    ensures length { length counts.new ≡ length counts.old }
    ensures kept { result ≢ 0 → counts.new ≡ counts.old }
    ensures done { result ≡ 0 → is_well_formed stream.now ≡ true }
    ensures malformed { result ≡ 3 → is_well_formed stream.now ≡ false }
{
    if !is_served(config, counts.len()) {
        return NOT_SERVED;
    }
    let config = Config::read(config);
    let counted = if config.is_sip {
        run_hashed::<BuildHasherDefault<DefaultHasher>>(alloc, config, stream)
    } else {
        run_hashed::<BuildHasherDefault<FoldHasher>>(alloc, config, stream)
    };
    match counted {
        Ok(counted) => {
            counts.copy_from_slice(counted.words().as_flattened());
            DONE
        }
        Err(Failure::OutOfMemory) => OUT_OF_MEMORY,
        Err(Failure::Malformed) => MALFORMED,
    }
}

/// [`run`], as `include/moka_bench.h` declares it.
#[unsafe(no_mangle)]
pub extern "C" fn moka_bench_run(
    alloc: Global,
    config: &[u8],
    stream: &[u8],
    counts: &mut [u8],
) -> u64
    ensures answers { result ≤ 3 }
    ensures not_served { (result ≡ 1) ↔ (is_served config.now (length counts.old) ≡ false) }
    ensures length { length counts.new ≡ length counts.old }
    ensures kept { result ≢ 0 → counts.new ≡ counts.old }
    ensures done { result ≡ 0 → is_well_formed stream.now ≡ true }
    ensures malformed { result ≡ 3 → is_well_formed stream.now ≡ false }
{
    run(alloc, config, stream, counts)
}

// Drives a new cache, whose keys are hashed so, through the stream.
fn run_hashed<S: BuildHasher + Default + Drop>(
    alloc: Global,
    config: Config,
    stream: &[u8],
) -> Result<Counts, Failure>
    ensures done { OnOk result (is_well_formed stream.now ≡ true) }
    ensures malformed { result ≡ Err Malformed → is_well_formed stream.now ≡ false }
{
    let hasher = S::default();
    if config.is_synchronous {
        let made = Synchronous::new(alloc, hasher, config);
        return count(made, config, stream);
    }
    if config.texts > 0 {
        return count(Texts::new(alloc, hasher, config), config, stream);
    }
    if config.has_expiry {
        return run_expiring(alloc, Apart(hasher), config, stream);
    }
    if config.has_listener {
        return run_listening(alloc, Apart(Apart(hasher)), config, stream);
    }
    if config.has_weigher {
        return run_weighing(alloc, Apart(Apart(Apart(hasher))), config, stream);
    }
    let made = Driven::new(alloc, hasher, config.plain(), config.is_automatic);
    count(made, config, stream)
}

// Drives an engine whose entries have an expiry of their own.
fn run_expiring<S: BuildHasher + Drop>(
    alloc: Global,
    hasher: S,
    config: Config,
    stream: &[u8],
) -> Result<Counts, Failure>
    ensures done { OnOk result (is_well_formed stream.now ≡ true) }
    ensures malformed { result ≡ Err Malformed → is_well_formed stream.now ≡ false }
{
    let given = config.plain().expire_after(BY_VALUE);
    let made = Driven::new(alloc, hasher, given, config.is_automatic);
    count(made, config, stream)
}

// Drives an engine with a listener.
fn run_listening<S: BuildHasher + Drop>(
    alloc: Global,
    hasher: S,
    config: Config,
    stream: &[u8],
) -> Result<Counts, Failure>
    ensures done { OnOk result (is_well_formed stream.now ≡ true) }
    ensures malformed { result ≡ Err Malformed → is_well_formed stream.now ≡ false }
{
    let given = config.plain().eviction_listener(Heard(0));
    let made = Driven::new(alloc, hasher, given, config.is_automatic);
    count(made, config, stream)
}

// Drives an engine with a weigher.
fn run_weighing<S: BuildHasher + Drop>(
    alloc: Global,
    hasher: S,
    config: Config,
    stream: &[u8],
) -> Result<Counts, Failure>
    ensures done { OnOk result (is_well_formed stream.now ≡ true) }
    ensures malformed { result ≡ Err Malformed → is_well_formed stream.now ≡ false }
{
    let given = config.plain().weigher(ByRemainder);
    let made = Driven::new(alloc, hasher, given, config.is_automatic);
    count(made, config, stream)
}

// Drives a cache, if there was memory for it, through the stream.
fn count<T: Subject + Drop>(
    made: Result<T, OutOfMemory>,
    config: Config,
    stream: &[u8],
) -> Result<Counts, Failure>
    ensures done { OnOk result (is_well_formed stream.now ≡ true) }
    ensures malformed { result ≡ Err Malformed → is_well_formed stream.now ≡ false }
{
    let Ok(subject) = made else {
        return Err(Failure::OutOfMemory);
    };
    let mut driver = Driver::new(subject, config);
    let (words, _) = stream.as_chunks::<8>();
    if !drive(&mut driver, words) {
        return Err(Failure::Malformed);
    }
    match driver.counts() {
        Some(counts) => Ok(counts),
        None => Err(Failure::OutOfMemory),
    }
}
