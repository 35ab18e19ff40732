//! Examples of the shadow: pools of every size, exhaustion, fences, every ASID, both halves of the address space, and rights.
#![tactic(auto)]

#[cfg(test)]
mod pools;
#[cfg(test)]
mod steps;
#[cfg(test)]
mod tests;
