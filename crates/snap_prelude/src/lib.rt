//! The words of the table's rule and steps and of all below them, passed on from one place to specs and
//! proofs above. No code.
#![tactic(auto)]
