// The seven families of parameters: their columns, where each value stands, and which values are allowed.
#![tactic(auto)]

pub mod address;
pub mod allowed;
pub mod columns;
pub mod factory;
pub mod family;
pub mod place;
#[cfg(test)]
mod tests;
pub mod work;
