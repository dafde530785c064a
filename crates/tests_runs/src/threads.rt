//! Scripts that run at the same time, each as a session of one world: in an order that a gate
//! says, and as they may. It holds tests alone, over threads of their own.

#[cfg(test)]
mod adders;
#[cfg(test)]
mod meeting_tests;
#[cfg(test)]
mod order_tests;
#[cfg(test)]
mod run_tests;
#[cfg(test)]
mod stale_tests;
