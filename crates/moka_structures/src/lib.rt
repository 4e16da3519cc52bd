//! The order list under the cache, and items that were handed out under tickets and are taken back by them.
#![tactic(auto)]

mod older;
pub mod order_list;
pub mod outstanding;
mod ticket_table;

pub use order_list::OrderList;
pub use outstanding::Outstanding;
