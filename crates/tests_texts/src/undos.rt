//! Tests of where undos and redos go, over the words of a log and along a trail, and of which
//! versions fall out. It holds tests alone.

#[cfg(test)]
mod logs;
#[cfg(test)]
mod retained;
#[cfg(test)]
mod tests;
#[cfg(test)]
mod trails;
