// What a shifted table encodes to (document 02, Ticket 13): definitions and laws, no code.
#![tactic(auto)]
