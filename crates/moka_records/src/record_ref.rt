//! Records that are lent. What look-ups read of a record stands apart from the rest, so that more entries fit into the
//! processor's caches, and a record is lent as its parts.
ghost use Rattle.std.specs.Prelude.{◌≡◌, is_some};
ghost use Rattle.moka_records.specs.RecordParts.{joined, expiry_of};
ghost use Rattle.moka_records.specs.Records.{is_applied};

use crate::instant::Instant;
use crate::records::Record;
use std::marker::Model;

/// What look-ups read of a record, also if there is a time to live.
#[derive(Drop)]
pub struct Hot<K, V> {
    /// The key of the first insert.
    pub key: K,
    /// The hash that came with the first insert.
    pub hash: u64,
    /// The value of the last insert.
    pub value: V,
    /// When it was last inserted or read.
    pub read: Instant,
    /// When it was last inserted. It stands last, since only look-ups with a time to live read it.
    pub written: Instant,
}

/// What is read of a record only if it expires by itself, or as it is written and its writes are applied.
#[derive(Clone, Copy)]
pub struct Cold {
    /// When it expires by itself, if it does; else any moment.
    pub expires: Instant,
    /// Counts the writes of the key, from 1.
    pub generation: u64,
    /// The highest generation of which an operation was applied, 0 before the first.
    pub applied: u64,
    /// The weight of the value that stands there, whether it is counted yet or not.
    pub weight: u32,
    /// The weight that is counted for the row's membership, if it is a member; else anything. It is no part of the
    /// record: the store keeps it here, since no look-up reads it.
    pub counted: u32,
}

/// A record but for its cold part and its number.
#[derive(Drop)]
pub struct Front<K, V> {
    /// What look-ups read of it.
    pub hot: Hot<K, V>,
    /// Whether it expires by itself.
    pub expiring: bool,
}

/// A record that is lent; seen as the record.
#[derive(Drop)]
pub struct RecordRef<'a, K, V> {
    hot: &'a Hot<K, V>,
    cold: &'a Cold,
    number: u64,
    expiring: bool,
}

impl<'a, K, V> Model for RecordRef<'a, K, V> {
    ghost use Rattle.moka_records.specs.declared.records.Record.{Record};
    ghost use Rattle.moka_records.specs.RecordParts.{joined, record_code};

    ghost Value = { Record K V };

    ghost coded = { record_code K.code V.code };

    ghost view = { λ a. joined a.number (record { hot = a.hot.now; expiring = a.expiring }) a.cold.now };
}

impl<'a, K, V> RecordRef<'a, K, V> {
    /// The record of these parts.
    #[inline(always)]
    pub fn new(number: u64, hot: &'a Hot<K, V>, expiring: bool, cold: &'a Cold) -> Self
        ensures { result ≡ joined number (record { hot = hot.now; expiring = expiring }) cold.now }
    {
        RecordRef {
            hot,
            cold,
            number,
            expiring,
        }
    }

    /// The key of the first insert.
    #[inline(always)]
    pub fn key(&self) -> &'a K
        ensures { result.now ≡ self.now.key }
    {
        &self.hot.key
    }

    /// The hash that came with the first insert.
    #[inline(always)]
    pub fn hash(&self) -> u64
        ensures { result ≡ self.now.hash }
    {
        self.hot.hash
    }

    /// The value of the last insert.
    #[inline(always)]
    pub fn value(&self) -> &'a V
        ensures { result.now ≡ self.now.value }
    {
        &self.hot.value
    }

    /// When it was last inserted or read.
    #[inline(always)]
    pub fn read(&self) -> Instant
        ensures { result ≡ self.now.read }
    {
        self.hot.read
    }

    /// When it was last inserted.
    #[inline(always)]
    pub fn written(&self) -> Instant
        ensures { result ≡ self.now.written }
    {
        self.hot.written
    }

    /// When it expires by itself, if it does.
    #[inline(always)]
    pub fn expires(&self) -> Option<Instant>
        ensures { result ≡ self.now.expires }
    {
        expiry_of(self.expiring, self.cold.expires)
    }

    /// The number, which no other record has.
    #[inline(always)]
    pub fn number(&self) -> u64
        ensures { result ≡ self.now.number }
    {
        self.number
    }

    /// The weight of the value that stands there, whether it is counted yet or not.
    #[inline(always)]
    pub fn weight(&self) -> u32
        ensures { result ≡ self.now.weight }
    {
        self.cold.weight
    }

    /// Counts the writes of the key, from 1.
    #[inline(always)]
    pub fn generation(&self) -> u64
        ensures { result ≡ self.now.generation }
    {
        self.cold.generation
    }

    /// The highest generation of which an operation was applied, 0 before the first.
    #[inline(always)]
    pub fn applied(&self) -> u64
        ensures { result ≡ self.now.applied }
    {
        self.cold.applied
    }

    /// Whether its newest operation was applied.
    #[inline(always)]
    pub fn is_settled(&self) -> bool
        ensures { result ≡ is_applied self.now }
    {
        self.cold.applied == self.cold.generation
    }
}

// The moment at which a record expires, if it does.
#[inline(always)]
fn expiry_of(expiring: bool, moment: Instant) -> Option<Instant>
    ensures { result ≡ expiry_of expiring moment }
{
    expiring.then_some(moment)
}

/// The moment that is kept of an expiry.
#[inline(always)]
pub fn moment_of(expires: Option<Instant>) -> Instant
    ensures { expiry_of (is_some expires) result ≡ expires }
{
    expires.unwrap_or(Instant(0))
}

/// The parts of a record, but for its number.
#[inline(always)]
pub fn split<K, V>(stored: Record<K, V>) -> (Front<K, V>, Cold)
    ensures { joined stored.number result.0 result.1 ≡ stored }
{
    let Record {
        key,
        hash,
        value,
        read,
        expires,
        number: _,
        written,
        generation,
        applied,
        weight,
    } = stored;
    let front = Front {
        hot: Hot {
            key,
            hash,
            value,
            read,
            written,
        },
        expiring: expires.is_some(),
    };
    let cold = Cold {
        expires: moment_of(expires),
        generation,
        applied,
        weight,
        counted: 0,
    };
    (front, cold)
}

/// The record of these parts.
#[inline(always)]
pub fn join<K, V>(number: u64, front: Front<K, V>, cold: Cold) -> Record<K, V>
    ensures { result ≡ joined number front cold }
{
    let Front { hot, expiring } = front;
    let Hot {
        key,
        hash,
        value,
        read,
        written,
    } = hot;
    Record {
        key,
        hash,
        value,
        read,
        expires: expiry_of(expiring, cold.expires),
        number,
        written,
        generation: cold.generation,
        applied: cold.applied,
        weight: cold.weight,
    }
}
