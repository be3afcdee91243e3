//! Cases of the office over a store in memory that neither its request files nor its program come
//! to: calls given at once, streams that fail half way, a store that is made twice, rows that are read
//! one at a time or are no rows, and files that stop or fail at each of their calls in turn.
#![tactic(auto)]

#[cfg(test)]
mod calls;
#[cfg(test)]
mod cases;
#[cfg(test)]
mod disks;
#[cfg(test)]
mod runs;
#[cfg(test)]
mod script;
#[cfg(test)]
mod stops;
#[cfg(test)]
mod stores;
#[cfg(test)]
mod streams;
