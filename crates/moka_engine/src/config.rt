//! What a cache is made with. moka: `sync::builder`.
ghost use Rattle.std.specs.Prelude.{◌≡◌, ◌≤◌, true, Some, IfOk, option_map, unwrap_or};
ghost use Rattle.std.specs.Duration.{as_nanos};
ghost use Rattle.std.specs.String.{string_bytes};
ghost use Rattle.moka_engine.specs.Config.{new_engine, with_expiry, with_listener, with_weigher};

use crate::base_cache::BaseCache;
use moka_parts::closures::{NoPredicate, NoWeigher, PredicateFn, Weigher};
use moka_parts::error::OutOfMemory;
use moka_parts::housekeeper::HousekeeperConfig;
use moka_parts::notification::{Listener, NoListener};
use moka_parts::policy::{EvictionPolicy, ExpirationPolicy, Expiry, Instant, NoExpiry};
use std::alloc::Global;
use std::hash::{BuildHasher, BuildHasherDefault, FoldHasher, Hash};
use std::marker::{Model, PhantomData};
use std::time::Duration;

/// The hasher of a cache that is built without one.
pub type DefaultHasher = BuildHasherDefault<FoldHasher>;

/// A cache as `CacheConfig::build` makes it; what is left out is not set.
pub type Engine<K, V, X = NoExpiry, L = NoListener, P = NoPredicate, W = NoWeigher> = BaseCache<
    K,
    V,
    DefaultHasher,
    X,
    L,
    P,
    W,
>;

/// What a cache is made with: a default, and a setter for each choice. moka: `sync::CacheBuilder`.
///
/// `X`, `L`, `P` and `W` are the types of the expiry, the listener, the predicates and the weigher; each is the type
/// for "none" until a setter chooses another.
#[derive(Drop)]
pub struct CacheConfig<X = NoExpiry, L = NoListener, P = NoPredicate, W = NoWeigher> {
    choices: Choices,
    expiry: Option<X>,
    listener: Option<L>,
    predicates: PhantomData<P>,
    weigher: Option<W>,
}

// What is chosen by plain values.
#[derive(Drop)]
struct Choices {
    name: Option<String>,
    max_capacity: Option<u64>,
    initial_capacity: Option<usize>,
    eviction_policy: EvictionPolicy,
    time_to_live: Option<Duration>,
    time_to_idle: Option<Duration>,
    invalidator_enabled: bool,
    housekeeper: HousekeeperConfig,
    first_ticket: u64,
}

impl<X, L, P, W> Model for CacheConfig<X, L, P, W> {
    ghost use Rattle.std.specs.Prelude.{◌≤◌, option_map};
    ghost use Rattle.std.specs.Duration.{as_nanos};
    ghost use Rattle.std.specs.String.{string_bytes};
    ghost use Rattle.moka_engine.specs.Config.{Config};

    ghost Value = { Config X L W };

    ghost view = { λ c. record {
      name = option_map string_bytes c.choices.name;
      max_capacity = c.choices.max_capacity;
      initial_capacity = c.choices.initial_capacity;
      policy = c.choices.eviction_policy;
      time_to_live = option_map as_nanos c.choices.time_to_live;
      time_to_idle = option_map as_nanos c.choices.time_to_idle;
      expiry = c.expiry;
      weigher = c.weigher;
      listener = c.listener;
      invalidator = c.choices.invalidator_enabled;
      run_limit = as_nanos c.choices.housekeeper.maintenance_task_timeout;
      run_repeats = c.choices.housekeeper.max_log_sync_repeats;
      run_batch = c.choices.housekeeper.eviction_batch_size;
      first_ticket = c.choices.first_ticket;
    } };

    ghost invariant = { λ c. 1 ≤ c.choices.first_ticket };
}

impl Default for CacheConfig<NoExpiry, NoListener, NoPredicate, NoWeigher> {
    ghost use Rattle.std.specs.Prelude.{◌≡◌};
    ghost use Rattle.moka_engine.specs.Config.{default_config};

    ghost is_default = { λ c. c ≡ default_config };

    /// No bound, no expiry, no listener, no predicates, no weigher, TinyLFU, and tickets from 1.
    fn default() -> Self {
        CacheConfig {
            choices: Choices {
                name: None,
                max_capacity: None,
                initial_capacity: None,
                eviction_policy: EvictionPolicy::default(),
                time_to_live: None,
                time_to_idle: None,
                invalidator_enabled: false,
                housekeeper: HousekeeperConfig::default(),
                first_ticket: 1,
            },
            expiry: None,
            listener: None,
            predicates: PhantomData,
            weigher: None,
        }
    }
}

impl<X, L, P, W> CacheConfig<X, L, P, W> {
    /// A name for diagnostics, which `name` returns. By default there is none.
    pub fn name(mut self, name: String) -> Self
        ensures { result ≡ record self { name = Some (string_bytes name) } }
    {
        self.choices.name = Some(name);
        self
    }

    /// The greatest total weight that runs of maintenance leave; without a weigher each entry weighs 1. A cache of
    /// capacity 0 keeps nothing and takes no inserts. By default there is no bound.
    pub fn max_capacity(mut self, max_capacity: u64) -> Self
        ensures { result ≡ record self { max_capacity = Some max_capacity } }
    {
        self.choices.max_capacity = Some(max_capacity);
        self
    }

    /// How many entries room is made for at once, whatever they weigh. It bounds nothing, and `build` refuses
    /// a number above the limit of records, just below 2^32, or one for which memory is refused. By default
    /// no room is made.
    pub fn initial_capacity(mut self, number_of_entries: usize) -> Self
        ensures { result ≡ record self { initial_capacity = Some number_of_entries } }
    {
        self.choices.initial_capacity = Some(number_of_entries);
        self
    }

    /// How a bounded cache chooses what stays. By default it is TinyLFU.
    pub fn eviction_policy(mut self, policy: EvictionPolicy) -> Self
        ensures { result ≡ record self { policy = policy } }
    {
        self.choices.eviction_policy = policy;
        self
    }

    /// How long an entry stays after it was inserted, exact to the nanosecond. With zero, entries expire at once; there
    /// is no upper limit: the sum of a moment and a duration saturates at 2^64 - 1 nanoseconds. By default entries
    /// stay.
    pub fn time_to_live(mut self, duration: Duration) -> Self
        ensures { result ≡ record self { time_to_live = Some (as_nanos duration) } }
    {
        self.choices.time_to_live = Some(duration);
        self
    }

    /// How long an entry stays after it was inserted or read, exact to the nanosecond. With zero, entries expire at
    /// once; there is no upper limit: the sum of a moment and a duration saturates at 2^64 - 1 nanoseconds. By default
    /// entries stay.
    pub fn time_to_idle(mut self, duration: Duration) -> Self
        ensures { result ≡ record self { time_to_idle = Some (as_nanos duration) } }
    {
        self.choices.time_to_idle = Some(duration);
        self
    }

    /// Sets what decides when each entry expires: inserts and gets ask it how long the entry lasts, and its answer
    /// replaces what was left. The sum of a moment and an answer saturates at 2^64 - 1 nanoseconds. By default no entry
    /// has an expiry of its own.
    pub fn expire_after<Y>(self, expiry: Y) -> CacheConfig<Y, L, P, W>
    where
        X: Drop,
        ensures { result ≡ with_expiry self expiry }
    {
        CacheConfig {
            choices: self.choices,
            expiry: Some(expiry),
            listener: self.listener,
            predicates: self.predicates,
            weigher: self.weigher,
        }
    }

    /// Sets what weighs each entry as it is inserted, from 0 to 2^32 - 1. By default each entry weighs 1.
    pub fn weigher<U>(self, weigher: U) -> CacheConfig<X, L, P, U>
    where
        W: Drop,
        ensures { result ≡ with_weigher self weigher }
    {
        CacheConfig {
            choices: self.choices,
            expiry: self.expiry,
            listener: self.listener,
            predicates: self.predicates,
            weigher: Some(weigher),
        }
    }

    /// Sets the listener, which is notified of key, value and cause of each value that leaves, except those that the
    /// engine's `remove_entry`, `remove_entry_with_own_hash` and `remove_by` return. By default nobody is notified.
    pub fn eviction_listener<M>(self, listener: M) -> CacheConfig<X, M, P, W>
    where
        L: Drop,
        ensures { result ≡ with_listener self listener }
    {
        CacheConfig {
            choices: self.choices,
            expiry: self.expiry,
            listener: Some(listener),
            predicates: self.predicates,
            weigher: self.weigher,
        }
    }

    /// Lets predicates of the type `Q` be registered. By default `invalidate_entries_if` refuses every
    /// predicate.
    pub fn support_invalidation_closures<Q>(self) -> CacheConfig<X, L, Q, W>
        ensures { result ≡ record self { invalidator = true } }
    {
        CacheConfig {
            choices: Choices {
                invalidator_enabled: true,
                ..self.choices
            },
            expiry: self.expiry,
            listener: self.listener,
            predicates: PhantomData,
            weigher: self.weigher,
        }
    }

    /// Sets the limits of the runs that the housekeeper starts: the time limit, the repeats and the batch, as
    /// `run_pending_tasks` takes them. By default they are 100 milliseconds, 4 and 384. `Cache::run_pending_tasks`, and
    /// the run that empties a full queue, take no time limit and batches of 384.
    pub fn housekeeper_config(mut self, config: HousekeeperConfig) -> Self
        ensures { result ≡ record self {
          run_limit = as_nanos config.maintenance_task_timeout;
          run_repeats = config.max_log_sync_repeats;
          run_batch = config.eviction_batch_size;
        } }
    {
        self.choices.housekeeper = config;
        self
    }

    /// The ticket of the first operation, at least 1. Tickets rise by 1, and inserts are refused once the tickets below
    /// 2^64 are too few to remove each record. By default it is 1.
    pub fn first_ticket(mut self, ticket: u64) -> Self
        requires { 1 ≤ ticket }
        ensures { result ≡ record self { first_ticket = ticket } }
    {
        self.choices.first_ticket = ticket;
        self
    }

    /// An empty cache made at the moment `now`, with the default hasher. It takes its memory from `alloc`.
    ///
    /// # Errors
    /// `OutOfMemory` if memory for the tables is refused, or the initial capacity is above the limit, just below 2^32.
    pub fn build<K, V>(
        self,
        alloc: Global,
        now: Instant,
    ) -> Result<Engine<K, V, X, L, P, W>, OutOfMemory>
    where
        K: Eq + Hash + Drop,
        V: Drop,
        X: Expiry<K, V> + Drop,
        L: Listener<K, V> + Drop,
        P: PredicateFn<K, V> + Drop,
        W: Weigher<K, V> + Drop,
        ensures empty { IfOk result (λ c. c ≡ new_engine self c.hasher now.0 c.room) }
        ensures room { IfOk result (λ c. unwrap_or self.initial_capacity 0 ≤ c.room) }
    {
        self.build_with_hasher(alloc, DefaultHasher::default(), now)
    }

    /// An empty cache made at the moment `now`, with this hasher. It takes its memory from `alloc`.
    ///
    /// # Errors
    /// `OutOfMemory` if memory for the tables is refused, or the initial capacity is above the limit, just below 2^32.
    pub fn build_with_hasher<K, V, S>(
        self,
        alloc: Global,
        hasher: S,
        now: Instant,
    ) -> Result<BaseCache<K, V, S, X, L, P, W>, OutOfMemory>
    where
        K: Eq + Hash + Drop,
        V: Drop,
        S: BuildHasher + Drop,
        X: Expiry<K, V> + Drop,
        L: Listener<K, V> + Drop,
        P: PredicateFn<K, V> + Drop,
        W: Weigher<K, V> + Drop,
        ensures empty { IfOk result (λ c. c ≡ new_engine self hasher now.0 c.room) }
        ensures room { IfOk result (λ c. unwrap_or self.initial_capacity 0 ≤ c.room) }
    {
        let choices = self.choices;
        BaseCache::new(
            alloc,
            choices.name,
            choices.max_capacity,
            choices.initial_capacity,
            hasher,
            self.weigher,
            choices.eviction_policy,
            self.listener,
            expirations(choices.time_to_live, choices.time_to_idle, self.expiry),
            choices.housekeeper,
            choices.invalidator_enabled,
            now,
            choices.first_ticket,
        )
    }
}

// When entries expire.
fn expirations<X: Drop>(
    time_to_live: Option<Duration>,
    time_to_idle: Option<Duration>,
    expiry: Option<X>,
) -> ExpirationPolicy<X>
    ensures { result ≡ record {
      time_to_live = option_map as_nanos time_to_live;
      time_to_idle = option_map as_nanos time_to_idle;
      expiry = expiry;
    } }
{
    let mut policy = ExpirationPolicy::default();
    if let Some(duration) = time_to_live {
        policy.set_time_to_live(duration);
    }
    if let Some(duration) = time_to_idle {
        policy.set_time_to_idle(duration);
    }
    if let Some(expiry) = expiry {
        policy.set_expiry(expiry);
    }
    policy
}
