//! Tests of what may be asked of a world: rows of answers. It holds tests alone, over the store for
//! one thread.

#[cfg(test)]
mod rows;
#[cfg(test)]
mod seen;
