// The definition that the whole compiler is held to: specs/ and its theorems in proofs/. Here: the types, numbers, limits and tags
// that all crates share.
#![tactic(auto)]

pub mod builtins;
pub mod limit;
pub mod operator;
pub mod output;
pub mod reason;
pub mod tag;

pub use reason::{Reason, Refusal, refused};
