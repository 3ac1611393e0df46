// Scales: finite sets of values, each in a total order, and the refusals that every layer shares.
//
// A scale counts its values from 0 upward, so that the layers above work with positions alone.
// Promised here: a value and its position determine each other, the order of values is the order
// of positions, and a refusal names its reason, its layer and its place.
#![tactic(auto)]

pub mod checks;
pub mod examples;
pub mod grade;
pub mod reading;
pub mod refusal;
pub mod scale;
pub mod settings;
pub mod side;
pub mod whole;
pub mod window;
