// Clause tables: which skill needs which others.
#![tactic(auto)]

mod build;
mod clause;
mod list;
mod space;
mod table;
#[cfg(test)]
mod tests;

pub use table::ClauseTable;
