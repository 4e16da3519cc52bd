//! What the caches of a capacity found.
ghost use Rattle.std.specs.Prelude.{◌≡◌, ◌≤◌, IfSome, option_map};
ghost use Rattle.moka_hit_ratio.specs.Ratios.{share_of};
ghost use Rattle.moka_hit_ratio.specs.Rows.{tally_of};
ghost use Rattle.moka_hit_ratio.specs.declared.tally.Ratio.{Ratio};
ghost use Rattle.moka_hit_ratio.specs.declared.tally.Tally.{Tally};

use crate::tally::{Ratio, Tally, WHOLE};

/// What decides which keys a cache keeps.
#[derive(Clone, Copy)]
pub enum Policy {
    /// It knows the accesses to come.
    Optimum,
    /// This engine under TinyLFU.
    TinyLfu,
    /// This engine under LRU.
    Lru,
    /// What came first is evicted first.
    Fifo,
}

/// All policies, in the order in which they are shown.
pub const POLICIES: [Policy; 4] = [Policy::Optimum, Policy::TinyLfu, Policy::Lru, Policy::Fifo];

impl Policy {
    /// The name that is shown.
    pub fn name(self) -> &'static str {
        match self {
            Policy::Optimum => "optimum",
            Policy::TinyLfu => "TinyLFU",
            Policy::Lru => "LRU",
            Policy::Fifo => "FIFO",
        }
    }
}

/// What the caches of a capacity found.
#[derive(Clone, Copy)]
pub struct Row {
    /// How many entries a cache has room for.
    pub capacity: u64,
    /// `None` if the optimum was not asked for.
    pub optimum: Option<Tally>,
    pub tiny_lfu: Tally,
    pub lru: Tally,
    pub fifo: Tally,
}

impl Row {
    /// The hit ratio under a policy, `None` if it was not played.
    pub fn ratio(&self, policy: Policy) -> Option<Ratio>
        ensures share { option_map (λ (ratio : Ratio). ratio.0) result
            ≡ option_map (λ (tally : Tally). share_of tally.hits tally.reads) (tally_of policy self.now) }
        ensures part { IfSome result (λ ratio. ratio.0 ≤ WHOLE) }
    {
        let tally = match policy {
            Policy::Optimum => self.optimum?,
            Policy::TinyLfu => self.tiny_lfu,
            Policy::Lru => self.lru,
            Policy::Fifo => self.fifo,
        };
        Some(tally.ratio())
    }
}
