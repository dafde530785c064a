//! Tests of regions of worlds and of the scenes of VOX files. It holds tests alone, over the store
//! for one thread and over bytes in memory.

#[cfg(test)]
mod floods;
#[cfg(test)]
mod nodes;
#[cfg(test)]
mod regions;
#[cfg(test)]
mod scenes;
