//! What looks a key up without being one: a borrowed form of it, as a `&str` of a `String`.

use std::hash::Hash;

/// Tells one key from all others. A look-up by a test finds what a look-up by that key finds, and needs no key.
///
/// The meaning, `passes`, is true of one key and of those equal to it, or of none.
pub trait KeyTest<K: Eq + Hash> {
    ghost use Rattle.std.specs.Prelude.{◌≡◌, Bool, true};

    /// Whether a key passes.
    ghost passes: { Self → K → Bool };

    /// Whether this is the key that is looked for.
    fn is_key(&self, key: &K) -> bool
        ensures { result ≡ passes self.now key.now };

    ghost one_key: { (t : Self) (x y : K) → passes t x ≡ true → passes t y ≡ K.eq x y };
}

/// A key, as the test that it and what is equal to it pass.
#[derive(Clone, Copy)]
pub struct SameKey<'a, K>(pub &'a K);

impl<'a, K: Eq + Hash> KeyTest<K> for SameKey<'a, K> {
    ghost passes = { λ t. K.eq t.0.now };

    #[inline(always)]
    fn is_key(&self, key: &K) -> bool {
        *self.0 == *key
    }

    ghost one_key = { λ t. K.Eq.laws.congr t.0.now };
}

/// A text finds the string that has it.
impl<'a> KeyTest<String> for &'a str {
    ghost use Rattle.std.specs.Str.{bytes_eq};
    ghost use Rattle.std.specs.String.{string_bytes};
    ghost use Rattle.std.specs.Cmp.Lexicographic.{nat_list_eq_equiv};

    ghost passes = { λ t k. bytes_eq t.now (string_bytes k) };

    fn is_key(&self, key: &String) -> bool {
        *self == key.as_str()
    }

    ghost one_key = { λ t x y. nat_list_eq_equiv.congr t.now (string_bytes x) (string_bytes y) };
}
