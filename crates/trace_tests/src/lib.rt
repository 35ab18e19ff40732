//! Tests of reading traces and writing reports.
#![tactic(auto)]

#[cfg(test)]
mod answers;
#[cfg(test)]
mod damage;
#[cfg(test)]
mod headers;
#[cfg(test)]
mod texts;
