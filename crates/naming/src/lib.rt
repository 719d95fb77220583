//! Tables of names: definitions, and what proofs say of a word that no row names.
#![tactic(auto)]
