//! Words of sixteen counters of four bits, in a table whose length is a power of two.
ghost use Rattle.std.specs.Prelude.{◌≡◌, ◌≢◌, ◌+◌, ◌-◌, ◌*◌, ◌/◌, ◌%◌, ◌^◌, ◌<◌, ◌≤◌, ◌↔◌, ℕ, IsTrue, false, length, slice_index, map, fold, min};
ghost use Rattle.std.specs.Int.{IsPowerOfTwo};
ghost use Rattle.moka_parts.specs.Frequency.{group_of, place_of, places_of, least_at, raised, can_rise, counted_once};
ghost use Rattle.moka_sketch.specs.Words.{counter_at, counters_of, table_of};

/// The greatest count.
const GREATEST: u64 = 15;

/// The factors that mix a hash, one for each of its four counters.
const FACTORS: [u64; 4] = [
    0x9E3779B97F4A7C15,
    0xBF58476D1CE4E5B9,
    0x94D049BB133111EB,
    0xD6E8FEB86659FD93,
];

/// The counter at a position of a word.
fn counter(word: u64, position: u32) -> u64
    requires { position < 16 }
    ensures { result ≡ counter_at word position }
{
    (word >> (4 * position)) & 15
}

/// The word with one more at a position.
fn raised_word(word: u64, position: u32) -> u64
    requires in_word { position < 16 }
    requires below { counter_at word position < 15 }
    ensures here { counter_at result position ≡ counter_at word position + 1 }
    ensures others { (q : ℕ) → q ≢ position → counter_at result q ≡ counter_at word q }
{
    word + (1 << (4 * position))
}

/// The word with each of its counters halved.
fn halved_word(word: u64) -> u64
    ensures { (q : ℕ) → q < 16 → counter_at result q ≡ counter_at word q / 2 }
{
    // The mask clears the bit that each counter shifts into the one below it.
    (word >> 1) & 0x7777777777777777
}

/// The index of the word with a hash's counter, by that counter's factor.
fn word_index(hash: u64, factor: u64, length: usize) -> usize
    requires { IsPowerOfTwo length }
    ensures value { result ≡ group_of length hash factor }
    ensures within { result < length }
{
    let mixed = hash.wrapping_mul(factor);
    ((mixed ^ (mixed >> 32)) & (length as u64 - 1)) as usize
}

/// The position within its word of a hash's i-th counter.
fn position_of(hash: u64, i: u64) -> u32
    requires { i < 4 }
    ensures value { result ≡ 4 * (hash % 4) + i }
    ensures within { result < 16 }
{
    (4 * (hash % 4) + i) as u32
}

/// The i-th counter of a hash, by that counter's factor.
fn count(words: &[u64], hash: u64, i: u64, factor: u64) -> u64
    requires power { IsPowerOfTwo (length words.now) }
    requires four { i < 4 }
    ensures value { result ≡ slice_index (counters_of words.now) (place_of (length words.now) hash i factor) }
{
    let word = words[word_index(hash, factor, words.len())];
    counter(word, position_of(hash, i))
}

/// The least of the four counters of a hash.
pub fn least_count(words: &[u64], hash: u64) -> u8
    requires { IsPowerOfTwo (length words.now) }
    ensures { result ≡ least_at (counters_of words.now) (places_of (length words.now) hash) }
{
    let first = count(words, hash, 0, FACTORS[0]);
    let second = count(words, hash, 1, FACTORS[1]);
    let third = count(words, hash, 2, FACTORS[2]);
    let fourth = count(words, hash, 3, FACTORS[3]);
    GREATEST.min(first).min(second).min(third).min(fourth) as u8
}

/// Raises the i-th counter of a hash, if it is below the greatest count, and says whether it was.
fn raise(words: &mut [u64], hash: u64, i: u64, factor: u64) -> bool
    requires power { IsPowerOfTwo (length words.old) }
    requires four { i < 4 }
    ensures counters { counters_of words.new ≡ raised (counters_of words.old)
        (place_of (length words.old) hash i factor) }
    ensures rose { IsTrue result ↔
        (slice_index (counters_of words.old) (place_of (length words.old) hash i factor) < 15) }
    ensures kept { result ≡ false → words.new ≡ words.old }
{
    let at = word_index(hash, factor, words.len());
    let position = position_of(hash, i);
    let word = words[at];
    if counter(word, position) >= GREATEST {
        return false;
    }
    words[at] = raised_word(word, position);
    true
}

/// Raises the four counters of a hash, and says whether any of them could rise.
fn raise_all(words: &mut [u64], hash: u64) -> bool
    requires { IsPowerOfTwo (length words.old) }
    ensures counters { counters_of words.new ≡ fold raised (counters_of words.old) (places_of (length words.old) hash) }
    ensures rose { result ≡ can_rise (counters_of words.old) (places_of (length words.old) hash) }
    ensures kept { result ≡ false → words.new ≡ words.old }
{
    let first = raise(words, hash, 0, FACTORS[0]);
    let second = raise(words, hash, 1, FACTORS[1]);
    let third = raise(words, hash, 2, FACTORS[2]);
    let fourth = raise(words, hash, 3, FACTORS[3]);
    first || second || third || fourth
}

/// Halves every counter.
fn halve_all(words: &mut [u64])
    ensures { counters_of words.new ≡ map (λ c. c / 2) (counters_of words.old) }
{
    for word in words.iter_mut() {
        *word = halved_word(*word);
    }
}

/// Counts a hash once more in a table of a given size, and gives the size afterwards.
pub fn count_once(words: &mut [u64], size: u64, hash: u64) -> u64
    requires power { IsPowerOfTwo (length words.old) }
    requires within { length words.old ≤ 2 ^ 30 }
    requires below { size < 10 * length words.old }
    ensures table { table_of words.new result ≡ counted_once (table_of words.old size) hash }
    ensures size_below { result < 10 * length words.new }
{
    if !raise_all(words, hash) {
        return size;
    }
    let length = words.len() as u64;
    if size + 1 == 10 * length {
        halve_all(words);
        5 * length
    } else {
        size + 1
    }
}
