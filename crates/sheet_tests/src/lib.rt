// Tests of the sheet: settings on four kinds of scale, rules made on these scales, a profile found, a
// "none" with its record, and the record judged whole and tampered with.
//
// The positions and the lines are worked out by hand.
#![tactic(auto)]

#[cfg(test)]
mod making;
#[cfg(test)]
mod none;
#[cfg(test)]
mod profiles;
#[cfg(test)]
mod settings;
