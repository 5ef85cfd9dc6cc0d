// What a log of a hire reports, by the log alone (02, Req 06), and that the words which `hire` leaves say just that. Definitions and laws only.
#![tactic(auto)]
