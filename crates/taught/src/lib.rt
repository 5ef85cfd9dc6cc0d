// What frames teach: a history of frames, the sets and maps under it, and messages learned one after another. Definitions and laws only.
#![tactic(auto)]
