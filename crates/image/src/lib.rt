// No code: the saved image of a learned table as definitions, and its laws. Rooms save, load and view have the calls.
#![tactic(auto)]
