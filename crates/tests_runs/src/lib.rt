//! Tests of what the program's top call writes, and of scripts that run at the same time. It holds
//! tests alone, over shelves and sinks in memory.
#![tactic(auto)]

#[cfg(test)]
mod outputs;
#[cfg(test)]
mod threads;
