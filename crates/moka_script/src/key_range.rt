//! The predicates of a script.
use crate::word::Word;
use moka_parts::closures::PredicateFn;

/// Covers the keys from `low` to `high`.
#[derive(Clone, Copy)]
pub struct KeyRange {
    pub low: u32,
    pub high: u32,
}

impl PredicateFn<u32, Word> for KeyRange {
    ghost use Rattle.std.specs.Prelude.{◌≡◌, ◌&&◌, nat_le};
    ghost use Rattle.std.proofs.Common.{◌∙◌, sym};

    ghost says = { λ range key _ answer. answer ≡ (nat_le range.low key && nat_le key range.high) };

    fn applies(&self, key: &u32, _value: &Word) -> bool {
        (self.low..=self.high).contains(key)
    }

    ghost one_answer = { λ _ _ _ _ _ first second. first ∙ sym second };
}
