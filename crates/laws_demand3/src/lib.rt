// Laws only: they stand in specs/ and proofs/.
#![tactic(auto)]
