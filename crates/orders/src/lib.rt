// Order tables: learning spaces that are given by a few orders in which the items can be taught.
#![tactic(auto)]

mod row;
mod table;
#[cfg(test)]
mod tests;

pub use table::OrderTable;
