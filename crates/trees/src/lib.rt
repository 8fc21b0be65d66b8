// Trees of words, the order in which their nodes are listed, and the tray that a listing is written into.
#![tactic(auto)]

mod count;
mod full;
mod listed;
mod sink;
mod stopped;
mod tray;
mod tree;
mod walk;

pub use count::count as count_wanted;
pub use listed::Listed;
pub use sink::Sink;
pub use stopped::Stopped;
pub use tray::{MOST_PLACES, Tray};
pub use tree::Tree;
