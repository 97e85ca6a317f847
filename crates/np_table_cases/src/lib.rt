//! Reachable subgoals, cost tables and cuts of small flat tasks, and verdicts on certificates by tables: some worked by hand, and random ones
//! beside the definitions in plain loops and beside every list of up to four steps. There is nothing here but tests.
#![tactic(auto)]

#[cfg(test)]
mod answers;
#[cfg(test)]
mod counter;
#[cfg(test)]
mod differing;
#[cfg(test)]
mod lists;
#[cfg(test)]
mod random;
#[cfg(test)]
mod slow;
#[cfg(test)]
mod texts;
#[cfg(test)]
mod verdicts;
#[cfg(test)]
mod worked;
