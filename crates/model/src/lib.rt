// Definitions only: what the clock means stands in specs/.
#![tactic(auto)]
