//! The values of fields: each is read by the text that it is written as.
#![tactic(auto)]

mod numbers;
mod signs;
mod value;

pub use value::Value;
