//! The public calls of linear sums and binding, tried on what was worked by hand, and tasks at random beside their flat tasks. There is
//! nothing here but tests.
#![tactic(auto)]

#[cfg(test)]
mod agreeing;
#[cfg(test)]
mod binding;
#[cfg(test)]
mod linear;
#[cfg(test)]
mod random;
#[cfg(test)]
mod texts;
