// The laws of changing one parameter, document 02, W-204 (specs/).
#![tactic(auto)]
