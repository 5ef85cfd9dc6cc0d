// What happened to the table of maps: events, sets and the answers that 01 defines from them. Definitions and laws only.
#![tactic(auto)]
