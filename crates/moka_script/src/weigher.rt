//! The weigher of a script.
use crate::lex::small_number;
use crate::word::Word;
use moka_parts::closures::Weigher;

/// The most digits of a weight.
const MAX_DIGITS: usize = 10;

/// A word of one to ten digits weighs the number that it says, if it fits in 32 bits; any other
/// word weighs 1.
#[derive(Clone, Copy)]
pub struct NumberWeigher;

impl Weigher<u32, Word> for NumberWeigher {
    ghost use Rattle.std.specs.Prelude.{◌≡◌};
    ghost use Rattle.moka_script.specs.Lex.{weight_of};
    ghost use Rattle.std.proofs.Common.{◌∙◌, sym};

    ghost weighs = { λ _ _ value weight. weight ≡ weight_of value };

    fn weigh(&self, _key: &u32, value: &Word) -> u32 {
        let word = value.as_str();
        if word.len() > MAX_DIGITS {
            return 1;
        }
        small_number(word).unwrap_or(1)
    }

    ghost one_weight = { λ _ _ _ _ _ first second. first ∙ sym second };
}
