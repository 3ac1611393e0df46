// Bounds, rules and blocks of profiles: what the search and the judge share, and all that they share.
#![tactic(auto)]

pub mod block;
pub mod bound;
pub mod examples;
pub mod lasts;
pub mod line;
pub mod problem;
pub mod rule;
pub mod ruleset;
pub mod sink;
pub mod slot;
pub mod standing;
pub mod status;
