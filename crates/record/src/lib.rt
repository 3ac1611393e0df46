// The record of the grounds: the ten bytes of a line, a sink that writes lines into a lent buffer,
// and reading them back into any sink.
//
// Promised here: a line and its bytes determine each other, a record takes lines while ten bytes
// are free and leaves all other bytes as they were, and a reading ends at the first line refused.
#![tactic(auto)]

pub mod bytes;
pub mod feed;
pub mod halt;
pub mod laws;
pub mod read;
pub mod sink;
