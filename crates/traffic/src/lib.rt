// What happened at the ports of a bridge and what is counted of it, from a trace alone, and that the bridge's words say so after any run of calls: no function.
#![tactic(auto)]
