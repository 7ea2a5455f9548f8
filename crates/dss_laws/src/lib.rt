// The laws of the definitions of DSS: theorems alone (specs/).
#![tactic(auto)]
