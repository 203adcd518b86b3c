// The definitions of the ticket clock stand in specs/; there is no code here.
#![tactic(auto)]
