// 01's starred examples ("Examples to hold it to"). No code: specs/Starred.antt is the table, proofs/Starred.antt the one claim about it.
#![tactic(auto)]
