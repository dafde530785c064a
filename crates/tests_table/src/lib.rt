//! Tests of a table of nodes, on one thread and on many: what its calls answer, and what is left
//! when a table is closed. It holds tests alone.
#![tactic(auto)]

#[cfg(test)]
mod calls;
#[cfg(test)]
mod closes;
#[cfg(test)]
mod nodes;
#[cfg(test)]
mod shares;
#[cfg(test)]
mod tests;
#[cfg(test)]
mod threads;
#[cfg(test)]
mod tinted;
#[cfg(test)]
mod worlds;
