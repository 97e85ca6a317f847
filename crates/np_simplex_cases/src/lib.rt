//! The exact simplex, tried on programs that were worked by hand, at its limits, with an arithmetic that refuses, and on programs at
//! random. There is nothing here but tests.
#![tactic(auto)]

#[cfg(test)]
mod asking;
#[cfg(test)]
mod limits;
#[cfg(test)]
mod random;
#[cfg(test)]
mod refusing;
#[cfg(test)]
mod table;
#[cfg(test)]
mod weighing;
