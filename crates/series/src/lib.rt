// What a call on a sheet does, what a series of calls is, and two laws: on the grounds of each "none",
// and on what stands after every series. There is no code to run here: the definitions stand in specs/,
// and each function's contract is a law. The sheet's calls cite the definitions and the first law.
// specs/Choices and specs/Theorem are for the whole theorem over every series, which no contract
// promises yet.
#![tactic(auto)]

pub mod grounds;
pub mod standing;
