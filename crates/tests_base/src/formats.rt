//! Tests of the readers and writers of VOX files, over files that are put together from chunks,
//! and of the files and scripts of a load. It holds tests alone, over bytes in memory.

#[cfg(test)]
mod chunks;
#[cfg(test)]
mod files;
#[cfg(test)]
mod loads;
#[cfg(test)]
mod models;
#[cfg(test)]
mod tests;
#[cfg(test)]
mod written;
