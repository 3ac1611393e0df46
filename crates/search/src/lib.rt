// The search. `solve` finds a region of profiles that meet every rule of a problem, or says that there
// is none, and sends the lines of its grounds to a sink. Its contract says that it is a run of the
// relation in specs/Search, one step at a time; `laws` says what holds of every run: there is one and
// only one, its verdict is right, and with 193 slots one is always free. The method is
// conflict-driven clause learning over intervals.
#![tactic(auto)]

pub mod analyse;
pub mod course;
pub mod examples;
pub mod laws;
pub mod moves;
pub mod numbered;
pub mod scan;
pub mod solve;
pub mod tally;
pub mod trail;
pub mod verdict;
