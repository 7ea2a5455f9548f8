// What is built reads back, over the contracts of the calls on DDM objects: the statements (specs/) and their proofs (proofs/).
#![tactic(auto)]
