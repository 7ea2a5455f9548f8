// DRDA volume 3's layouts: predicates alone (specs/).
#![tactic(auto)]
