// What gets and sets do on one memory, and why a call is turned away.
#![tactic(auto)]

pub mod get;
pub mod items;
pub mod refusal;
pub mod set;
