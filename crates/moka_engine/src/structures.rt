//! The structures that the engine keeps its entries in, each from a crate of its own.
pub use moka_sketch::frequency_sketch::{FrequencySketch, sketch_capacity, table_len_for};
pub use moka_structures::{OrderList, Outstanding};
pub use moka_wheel::{Due, TimerWheel};
