//! Laws of the calls that a synchronous cache made.

pub use moka_calls::laws::{
    ages_out, calls_for_many_set_no_capacity, counts_look_ups, counts_removals, goes_on,
    hears_clones, hears_themselves, joins_registrations, keeps_limits, keeps_promises,
    made_anytime, makes_one_step,
};
