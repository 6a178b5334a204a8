// Walking a step list (document 01, "The step-list program").
#![tactic(auto)]

pub mod list;
pub mod memory;
mod opening;
mod walk;
