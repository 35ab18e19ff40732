//! Tests of the machine: lists of calls on several translators, settled and not, with refusals in between.
#![tactic(auto)]

#[cfg(test)]
mod lists;
#[cfg(test)]
mod tests;
