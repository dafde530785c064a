//! Tests of scripts, journals and transcripts as texts.
#![tactic(auto)]

#[cfg(test)]
mod act_tests;
#[cfg(test)]
mod acts;
#[cfg(test)]
mod broken_journals;
#[cfg(test)]
mod journal_tests;
#[cfg(test)]
mod packing_tests;
#[cfg(test)]
mod plain_tests;
#[cfg(test)]
mod script_faults;
#[cfg(test)]
mod script_tests;
#[cfg(test)]
mod transcript_tests;
#[cfg(test)]
mod undos;
