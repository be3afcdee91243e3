//! Worked cases of the crates that stand on no database: values that a person worked out, texts
//! byte for byte, the largest lists, and readers and writers that fail. They show what no clause
//! can: that the clauses say what was meant, and that a call with memory at hand succeeds.
#![tactic(auto)]

#[cfg(test)]
mod accounts;
#[cfg(test)]
mod bank_files;
#[cfg(test)]
mod calendar;
#[cfg(test)]
mod decisions;
#[cfg(test)]
mod rates;
#[cfg(test)]
mod statements;
#[cfg(test)]
mod streams;
