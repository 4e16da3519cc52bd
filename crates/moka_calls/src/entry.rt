//! Entries that calls hand out.

/// What an entry call answers. moka: `Entry`.
#[derive(Debug, Drop)]
pub struct CacheEntry<K, V> {
    /// The caller's own key if the value was there, and a clone of it if the call put the value.
    pub key: K,
    /// A clone of the value.
    pub value: V,
    /// Whether the call put the value. It is true also of a cache of capacity 0, which drops the value instead.
    pub is_fresh: bool,
    /// Whether the look-up of a call that put the value saw another. A run of maintenance that the look-up started may
    /// have removed that one before.
    pub is_old_value_replaced: bool,
}
