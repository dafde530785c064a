//! Tests of single crates of the lower layers, over their public calls: cells, rows of bits,
//! kernels of leaves, plans and keys, places in a table, files on shelves, and real files. It holds
//! tests alone, a module for each of these; those over real files remove what they made.
#![tactic(auto)]

#[cfg(test)]
mod bit_rows;
#[cfg(test)]
mod cells;
#[cfg(test)]
mod formats;
#[cfg(test)]
mod kernels;
#[cfg(test)]
mod keys;
#[cfg(test)]
mod places;
#[cfg(test)]
mod real_files;
#[cfg(test)]
mod shelves;
