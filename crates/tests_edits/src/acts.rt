//! Tests of what runs stand on, each alone: the nodes that an act makes, questions of the empty
//! world, and a report of a history that was made by hand. It holds tests alone.

#[cfg(test)]
mod empty_worlds;
#[cfg(test)]
mod reports;
#[cfg(test)]
mod tests;
