//! What the commands answer, tried as a whole over a shelf and a sink in memory. There is nothing here but tests.
#![tactic(auto)]

#[cfg(test)]
mod check;
#[cfg(test)]
mod check_beside;
#[cfg(test)]
mod check_proofs;
#[cfg(test)]
mod check_tables;
#[cfg(test)]
mod command_line;
#[cfg(test)]
mod faults;
#[cfg(test)]
mod list;
#[cfg(test)]
mod list_edges;
#[cfg(test)]
mod order;
#[cfg(test)]
mod pairs;
#[cfg(test)]
mod run;
#[cfg(test)]
mod solve;
#[cfg(test)]
mod trial;
#[cfg(test)]
mod typing;
