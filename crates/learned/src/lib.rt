// What the learned table's words hold and answer after any list of events (learn a message, forget a key, give a key an edition), and which rows an event touches. Definitions and
// laws only.
#![tactic(auto)]
