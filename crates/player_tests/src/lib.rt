//! Tests of the player: what is refused, at which limit, and whole reports.
#![tactic(auto)]

#[cfg(test)]
mod tests;
