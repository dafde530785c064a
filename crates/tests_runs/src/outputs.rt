//! Tests of what the program's top call writes: transcripts, journals, reports and saved files,
//! and what is left where a call fails. It holds tests alone, over shelves and sinks in memory.

#[cfg(test)]
mod colour_tests;
#[cfg(test)]
mod keep_tests;
#[cfg(test)]
mod run_tests;
#[cfg(test)]
mod save_tests;
#[cfg(test)]
mod version_tests;
