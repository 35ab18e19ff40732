//! Tests of the two-stage walk, whose expected answers come from a model that was written apart from the program.
#![tactic(auto)]

#[cfg(test)]
mod cases;
#[cfg(test)]
mod scenarios;
#[cfg(test)]
mod tests;
