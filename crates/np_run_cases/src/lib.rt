//! The public calls that speak of tasks, tried at values that were worked by hand; and what lists of steps come to: a table, a task
//! of the definitions, and random tasks beside a slow run. There is nothing here but tests.
#![tactic(auto)]

#[cfg(test)]
mod agreeing;
#[cfg(test)]
mod building;
#[cfg(test)]
mod counter;
#[cfg(test)]
mod ends;
#[cfg(test)]
mod model;
#[cfg(test)]
mod random;
#[cfg(test)]
mod rows;
#[cfg(test)]
mod slow;
