// A bounded list over memory that the caller lends, for any record that is `Copy`.
#![tactic(auto)]

pub mod list;
#[cfg(test)]
mod tests;
