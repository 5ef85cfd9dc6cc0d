// Sets of messages and the map that a set says (01, "A set and its judgement"). Definitions and laws only.
#![tactic(auto)]
