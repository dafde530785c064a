//! Tests of tinted acts over a store, and of what such a store tells. It holds tests alone, over
//! the store for one thread.

#[cfg(test)]
mod asking;
#[cfg(test)]
mod cells;
#[cfg(test)]
mod crowds;
#[cfg(test)]
mod open;
#[cfg(test)]
mod tests;
#[cfg(test)]
mod worlds;
