// No code: runs of the calls of the transport protocol, and the theorem that a pair's session and its answers go by its own frames. specs/Events.antt has what
// happens to the sessions, specs/Calls.antt the runs.
#![tactic(auto)]
