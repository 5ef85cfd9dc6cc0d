// No code: what a session of the transport protocol is, what a packet makes of it and is answered, and what a sender cuts a payload up into (02, Req 14).
// specs/Session.antt has the sessions, specs/Cut.antt the sender's side.
#![tactic(auto)]
