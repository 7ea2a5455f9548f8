// The demands as statements, document 01's table and edges (specs/), and their proofs (proofs/).
#![tactic(auto)]
