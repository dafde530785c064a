//! Tests of a table's log and of versions over it: sessions of one small world meet there, on one
//! thread and on four. It holds tests alone.
#![tactic(auto)]

#[cfg(test)]
mod calls;
#[cfg(test)]
mod edits;
#[cfg(test)]
mod endings;
#[cfg(test)]
mod guards;
#[cfg(test)]
mod rows;
#[cfg(test)]
mod threads;
#[cfg(test)]
mod turns;
#[cfg(test)]
mod uniform;
#[cfg(test)]
mod words;
