//! The public calls that read and print texts, tried at texts that were worked by hand. There is nothing here but tests.
#![tactic(auto)]

#[cfg(test)]
mod cert_printing;
#[cfg(test)]
mod cert_reading;
#[cfg(test)]
mod domain;
#[cfg(test)]
mod domain_values;
#[cfg(test)]
mod lex;
#[cfg(test)]
mod plan;
#[cfg(test)]
mod problem;
#[cfg(test)]
mod problem_values;
#[cfg(test)]
mod read;
#[cfg(test)]
mod texts;
