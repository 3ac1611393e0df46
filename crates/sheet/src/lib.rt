// The sheet. A draft takes settings. Closing it gives a sheet, which takes rules, searches for a
// profile that meets them all, and judges records of grounds. What each call does is said by the
// definition of a call in crate series, over which a series of calls is defined.
#![tactic(auto)]

pub mod draft;
pub mod name;
pub mod sheet;
