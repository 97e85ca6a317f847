//! The public calls of the crates below the planner that speak of no text, tried at values that were worked by hand. There is
//! nothing here but tests.
#![tactic(auto)]

#[cfg(test)]
mod blind;
#[cfg(test)]
mod check;
#[cfg(test)]
mod evidence;
#[cfg(test)]
mod flat;
#[cfg(test)]
mod frac;
#[cfg(test)]
mod io;
#[cfg(test)]
mod plans;
#[cfg(test)]
mod proofs;
#[cfg(test)]
mod search;
#[cfg(test)]
mod space;
#[cfg(test)]
mod state;
