// The unit: a running memory, a draft memory and a mode; its starts and its requests.
#![tactic(auto)]

pub mod answer;
mod call;
pub mod operation;
mod operations;
pub mod request;
pub mod start;
pub mod states;
#[cfg(test)]
mod tests;

// A refusal is what a get and a set answer too, so it stands with them.
pub use transfers::refusal;
