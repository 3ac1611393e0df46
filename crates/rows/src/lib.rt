// A row: items in order, up to a fixed number, kept in the value itself and never on the heap.
#![tactic(auto)]

pub mod row;
