//! Tests of audits: of texts written by hand, with tints too, and of such with a piece changed. It
//! holds tests alone, and they touch no file.

#[cfg(test)]
mod changes;
#[cfg(test)]
mod colours;
#[cfg(test)]
mod keeping;
#[cfg(test)]
mod meetings;
#[cfg(test)]
mod texts;
