// The judge: it hears the grounds for a "none" line by line, and accepts them only where no profile
// meets the rules that it was opened on. It sees rules and lines, and nothing of the search.
#![tactic(auto)]

pub mod examples;
pub mod judge;
pub mod open;
mod state;
mod table;
