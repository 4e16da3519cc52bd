//! What a caller sets, as 16 words.
ghost use Rattle.std.specs.Prelude.{◌≡◌, ◌<◌};
ghost use Rattle.moka_bench.specs.Config.{additions, config_of, is_served, optional_at, word_at};
ghost use Rattle.moka_bench.specs.Engines.{plain_config};

use moka_engine::CacheConfig;
use moka_parts::policy::EvictionPolicy;
use std::time::Duration;

// The words by their index, which the header explains.
const CAPACITY: usize = 0;

const TIME_TO_LIVE: usize = 1;

const TIME_TO_IDLE: usize = 2;

const POLICY: usize = 3;

const EXPIRY: usize = 4;

const AUTOMATIC: usize = 5;

const INITIAL_CAPACITY: usize = 6;

const HASHER: usize = 7;

const TEXTS: usize = 8;

const STEP: usize = 9;

const CACHE: usize = 10;

const LISTENER: usize = 11;

const WEIGHER: usize = 12;

// The number that stands for no capacity, no time to live and no time to idle.
const NONE: u64 = u64::MAX;

// How many bytes the configuration and the counts have.
const CONFIG_LENGTH: usize = 128;

const COUNTS_LENGTH: usize = 64;

/// How a cache is made and driven.
#[derive(Clone, Copy)]
pub struct Config {
    pub max_capacity: Option<u64>,
    /// How long an entry stays after it was inserted, in nanoseconds.
    pub time_to_live: Option<u64>,
    /// How long an entry stays after it was inserted or read, in nanoseconds.
    pub time_to_idle: Option<u64>,
    /// Whether the policy is LRU, and else TinyLFU.
    pub is_lru: bool,
    pub initial_capacity: usize,
    /// Whether the cache starts runs by itself.
    pub is_automatic: bool,
    /// Whether keys are hashed by SipHash, and else by folding.
    pub is_sip: bool,
    /// Whether the synchronous cache is driven, and else the engine.
    pub is_synchronous: bool,
    /// Whether entries expire by their values.
    pub has_expiry: bool,
    /// Whether a listener is told removals.
    pub has_listener: bool,
    /// Whether entries weigh something else than 1.
    pub has_weigher: bool,
    /// How many texts stand for numbers; with none, numbers are keys and values.
    pub texts: u64,
    /// How far the clock goes on before each operation, in nanoseconds.
    pub step: u64,
}

impl Config {
    /// The settings that these bytes say.
    pub fn read(bytes: &[u8]) -> Config
        ensures { result ≡ config_of bytes.now }
    {
        Config {
            max_capacity: optional(bytes, CAPACITY),
            time_to_live: optional(bytes, TIME_TO_LIVE),
            time_to_idle: optional(bytes, TIME_TO_IDLE),
            is_lru: word(bytes, POLICY) == 1,
            initial_capacity: word(bytes, INITIAL_CAPACITY) as usize,
            is_automatic: word(bytes, AUTOMATIC) == 1,
            is_sip: word(bytes, HASHER) == 1,
            is_synchronous: word(bytes, CACHE) == 1,
            has_expiry: word(bytes, EXPIRY) == 1,
            has_listener: word(bytes, LISTENER) == 1,
            has_weigher: word(bytes, WEIGHER) == 1,
            texts: word(bytes, TEXTS),
            step: word(bytes, STEP),
        }
    }

    /// What an engine is made with, but for an expiry, a listener and a weigher.
    pub fn plain(self) -> CacheConfig
        ensures { result ≡ plain_config self }
    {
        let policy = if self.is_lru {
            EvictionPolicy::lru()
        } else {
            EvictionPolicy::tiny_lfu()
        };
        let mut made = CacheConfig::default()
            .initial_capacity(self.initial_capacity)
            .eviction_policy(policy);
        if let Some(capacity) = self.max_capacity {
            made = made.max_capacity(capacity);
        }
        if let Some(nanoseconds) = self.time_to_live {
            made = made.time_to_live(Duration::from_nanos(nanoseconds));
        }
        if let Some(nanoseconds) = self.time_to_idle {
            made = made.time_to_idle(Duration::from_nanos(nanoseconds));
        }
        made
    }
}

/// Whether lengths and settings are served: the engine, or one of what may stand in its place or be added to it.
pub fn is_served(bytes: &[u8], counts: usize) -> bool
    ensures { result ≡ is_served bytes.now counts }
{
    bytes.len() == CONFIG_LENGTH
        && counts == COUNTS_LENGTH
        && word(bytes, POLICY) <= 1
        && word(bytes, HASHER) <= 1
        && additions(bytes) <= 1
}

// How many additions to the plain engine are asked for.
fn additions(bytes: &[u8]) -> u64
    ensures { result ≡ additions bytes.now }
{
    let texts = word(bytes, TEXTS).min(1);
    word(bytes, EXPIRY)
        .saturating_add(word(bytes, CACHE))
        .saturating_add(word(bytes, LISTENER))
        .saturating_add(word(bytes, WEIGHER))
        .saturating_add(texts)
}

// The number at an index, if it does not stand for none.
fn optional(bytes: &[u8], index: usize) -> Option<u64>
    ensures { result ≡ optional_at bytes.now index }
{
    match word(bytes, index) {
        NONE => None,
        number => Some(number),
    }
}

// The word at an index, 0 past the end.
fn word(bytes: &[u8], index: usize) -> u64
    ensures { result ≡ word_at bytes.now index }
{
    let (words, _) = bytes.as_chunks::<8>();
    match words.get(index) {
        Some(word) => u64::from_le_bytes(*word),
        None => 0,
    }
}
