// No code: the three demands as theorems over what the calls promise. proofs/Demands.antt has them, in the demands' own words.
#![tactic(auto)]
