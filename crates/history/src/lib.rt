//! What runs of a machine promise, over any translator: the plain machine, settled calls, and the agreement theorem.
#![tactic(auto)]

mod laws;
mod runs;

pub use laws::{
    faults_are_walked, fences_refresh, grants_covered, grants_true, moments_bear, moments_covered,
    next_is_plain, still_is_settled,
};
pub use runs::{runs_agree, walks_agree};
