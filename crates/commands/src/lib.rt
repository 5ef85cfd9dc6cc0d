// No code: runs of calls on the filters, and the theorem that a pair's answers go by the commands that named it. specs/Calls.antt has the runs.
#![tactic(auto)]
