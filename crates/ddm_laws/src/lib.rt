// The laws of the definitions of DDM: theorems alone (specs/).
#![tactic(auto)]
