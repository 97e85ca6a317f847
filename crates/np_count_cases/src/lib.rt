//! Counting proofs for tasks at random, against the definitions in plain loops and against every list of up to four steps. There is
//! nothing here but tests.
#![tactic(auto)]

#[cfg(test)]
mod differing;
#[cfg(test)]
mod lists;
#[cfg(test)]
mod random;
#[cfg(test)]
mod slow;
#[cfg(test)]
mod texts;
#[cfg(test)]
mod worked;
