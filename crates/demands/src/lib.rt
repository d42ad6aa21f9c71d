// The three demands as statements, with their proofs; the twelve worked cases; and that every promise fixes its reply. There is no code here.
#![tactic(auto)]
