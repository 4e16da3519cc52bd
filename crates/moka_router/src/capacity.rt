//! The capacity of all segments.
ghost use Rattle.std.specs.Prelude.{◌≡◌};
ghost use Rattle.moka_router.specs.Capacity.{both, saturated};

/// The sum of two capacities, saturating; `None` if one of them has no bound.
pub fn both(one: Option<u64>, other: Option<u64>) -> Option<u64>
    ensures { result ≡ saturated (both one other) }
{
    match (one, other) {
        (Some(one), Some(other)) => Some(one.saturating_add(other)),
        _ => None,
    }
}
