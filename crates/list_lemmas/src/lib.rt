//! What proofs cite and the library lacks, of lists, Booleans, options and results: no code stands here.
#![tactic(auto)]
