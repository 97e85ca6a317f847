//! Random small tasks of the whole language: what the commands answer of each, beside what the definitions say. There is nothing here but
//! tests.
#![tactic(auto)]

#[cfg(test)]
mod judging;
#[cfg(test)]
mod random;
#[cfg(test)]
mod searching;
#[cfg(test)]
mod solving;
#[cfg(test)]
mod texts;
