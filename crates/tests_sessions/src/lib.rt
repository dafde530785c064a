//! Tests of sessions of one world, on one thread and on two, and of worlds whose cells have tints:
//! what their calls answer, and what a closed world leaves. It holds tests alone.
#![tactic(auto)]

#[cfg(test)]
mod calls;
#[cfg(test)]
mod endings;
#[cfg(test)]
mod meetings;
#[cfg(test)]
mod pins;
#[cfg(test)]
mod players;
#[cfg(test)]
mod rows;
#[cfg(test)]
mod tinted;
#[cfg(test)]
mod worlds;
