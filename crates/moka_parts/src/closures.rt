//! What weighs entries and what tests them. moka: `common::concurrent`, `sync::invalidator` and
//! `sync::base_cache`.
ghost use Rattle.std.specs.Prelude.{◌≡◌};
ghost use Rattle.moka_parts.specs.Closures.{CanAlwaysAsk, HasOneAnswer};

use std::marker::{Model, PhantomData};

/// Weighs an entry. moka: `common::concurrent::Weigher`.
///
/// The meaning, `weighs`, has at most one weight for the same key and value.
pub trait Weigher<K, V> {
    ghost use Rattle.std.specs.Prelude.{ℕ};
    ghost use Rattle.moka_parts.specs.Closures.{HasOneAnswer};

    /// The key and the value may have this weight.
    ghost weighs: { Self → K → V → ℕ → Type 0 };

    /// The weight of a key with its value.
    fn weigh(&self, key: &K, value: &V) -> u32
        ensures { weighs self.now key.now value.now result };

    ghost one_weight: { (w : Self) → HasOneAnswer (weighs w) };
}

/// Tests an entry. moka: `sync::invalidator::PredicateFun`.
///
/// The meaning, `says`, has at most one answer for the same key and value.
pub trait PredicateFn<K, V> {
    ghost use Rattle.std.specs.Prelude.{Bool};
    ghost use Rattle.moka_parts.specs.Closures.{HasOneAnswer};

    /// The test of the key and the value may answer so.
    ghost says: { Self → K → V → Bool → Type 0 };

    /// Whether a key with its value passes the test.
    fn applies(&self, key: &K, value: &V) -> bool
        ensures { says self.now key.now value.now result };

    ghost one_answer: { (p : Self) → HasOneAnswer (says p) };
}

/// A caller's own test of the value that a look-up finds. Every `FnMut(&V) -> bool` is one.
/// moka: the `ignore_if` of `sync::base_cache::BaseCache::get_with_hash_and_ignore_if`.
pub trait ValueTest<V> {
    ghost use Rattle.std.specs.Prelude.{Bool};

    /// The test may be asked of the value.
    ghost can_ask: { Self → V → Type 0 };

    /// Asked of the value, the test may answer so, and leave this test.
    ghost asks: { Self → V → Bool → Self → Type 0 };

    /// Whether the look-up is to ignore the value.
    fn ignores(&mut self, value: &V) -> bool
        requires { can_ask self.old value.now }
        ensures { asks self.old value.now result self.new };
}

impl<V, F: FnMut(&V) -> bool> ValueTest<V> for F {
    ghost use Rattle.std.specs.Fn.{CalledAt, TakesAt};

    ghost can_ask = { TakesAt F.FnMut };

    ghost asks = { CalledAt F.FnMut };

    fn ignores(&mut self, value: &V) -> bool {
        self(value)
    }
}

/// Answers for a key and a value. Every `Fn(&K, &V) -> R` does.
pub trait PairFn<K, V, R> {
    /// The question may be put.
    ghost can_ask: { Self → K → V → Type 0 };

    /// This may be the answer.
    ghost answers: { Self → K → V → R → Type 0 };

    /// The answer for a key and a value.
    fn ask(&self, key: &K, value: &V) -> R
        requires { can_ask self.now key.now value.now }
        ensures { answers self.now key.now value.now result };
}

impl<K, V, R, F: Fn(&K, &V) -> R> PairFn<K, V, R> for F {
    ghost use Rattle.std.specs.Prelude.{◌≡◌};
    ghost use Rattle.std.specs.Borrow.{Bor};

    ghost can_ask = { λ f k v.
        (p : Bor K) (q : Bor V) → p.now ≡ k → q.now ≡ v → F.pre f p q };

    ghost answers = { λ f k v r.
        (p : Bor K) × (q : Bor V) × (p.now ≡ k) × (q.now ≡ v) × F.post f p q r };

    fn ask(&self, key: &K, value: &V) -> R {
        self(key, value)
    }
}

/// A weigher or a predicate made of a closure that may always be called and that has one answer
/// for the same arguments; seen as the closure.
///
/// The closure is made by the caller and handed on to a function that is generic in it.
#[derive(Drop)]
pub struct ByClosure<K, V, R, F: PairFn<K, V, R>> {
    closure: F,
    marker: PhantomData<(K, V, R)>,
}

impl<K, V, R, F: PairFn<K, V, R>> Model for ByClosure<K, V, R, F> {
    ghost use Rattle.moka_parts.specs.Closures.{CanAlwaysAsk, HasOneAnswer};

    ghost Value = { F };

    ghost view = { λ c. c.closure };

    ghost invariant = { λ c.
        CanAlwaysAsk (F.can_ask c.closure) × HasOneAnswer (F.answers c.closure) };
}

impl<K, V, R, F: PairFn<K, V, R>> ByClosure<K, V, R, F> {
    /// A weigher or a predicate that asks the closure.
    pub fn new(closure: F) -> Self
        requires callable { CanAlwaysAsk (F.can_ask closure) }
        requires functional { HasOneAnswer (F.answers closure) }
        ensures { result ≡ closure }
    {
        ByClosure {
            closure,
            marker: PhantomData,
        }
    }
}

impl<K, V, F: PairFn<K, V, u32>> Weigher<K, V> for ByClosure<K, V, u32, F> {
    ghost use Rattle.std.specs.Prelude.{◌≡◌, ℕ};

    // The closure gives this weight and no other.
    ghost weighs = { λ c k v a. F.answers c k v a × ((b : ℕ) → F.answers c k v b → a ≡ b) };

    fn weigh(&self, key: &K, value: &V) -> u32 {
        self.closure.ask(key, value)
    }

    ghost one_weight = { λ c k v a b p q. p.1 b q.0 };
}

impl<K, V, F: PairFn<K, V, bool>> PredicateFn<K, V> for ByClosure<K, V, bool, F> {
    ghost use Rattle.std.specs.Prelude.{◌≡◌, Bool};

    // The closure gives this answer and no other.
    ghost says = { λ c k v a. F.answers c k v a × ((b : Bool) → F.answers c k v b → a ≡ b) };

    fn applies(&self, key: &K, value: &V) -> bool {
        self.closure.ask(key, value)
    }

    ghost one_answer = { λ c k v a b p q. p.1 b q.0 };
}

/// Weighs each entry 1, as a cache without a weigher does.
#[derive(Clone, Copy, Debug)]
pub struct NoWeigher;

impl<K, V> Weigher<K, V> for NoWeigher {
    ghost use Rattle.std.specs.Prelude.{◌≡◌};
    ghost use Rattle.std.proofs.Common.{sym, ◌∙◌};

    ghost weighs = { λ _ _ _ weight. weight ≡ 1 };

    fn weigh(&self, _: &K, _: &V) -> u32 {
        1
    }

    ghost one_weight = { λ _ _ _ _ _ first second. first ∙ sym second };
}

/// A predicate that no entry meets.
#[derive(Clone, Copy, Debug)]
pub struct NoPredicate;

impl<K, V> PredicateFn<K, V> for NoPredicate {
    ghost use Rattle.std.specs.Prelude.{◌≡◌, false};
    ghost use Rattle.std.proofs.Common.{sym, ◌∙◌};

    ghost says = { λ _ _ _ answer. answer ≡ false };

    fn applies(&self, _: &K, _: &V) -> bool {
        false
    }

    ghost one_answer = { λ _ _ _ _ _ first second. first ∙ sym second };
}

/// A test that ignores no value.
#[derive(Clone, Copy, Debug)]
pub struct NoTest;

impl<V> ValueTest<V> for NoTest {
    ghost use Rattle.std.specs.Prelude.{◌≡◌, false, ⊤};

    ghost can_ask = { λ _ _. ⊤ };

    ghost asks = { λ _ _ answer _. answer ≡ false };

    fn ignores(&mut self, _: &V) -> bool {
        false
    }
}
