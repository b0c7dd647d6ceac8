//! What holds of linked programs. No call here changes anything: its contract is the law.
#![tactic(auto)]

pub mod laws;
