// An open text behind what a pool holds: laws alone.
#![tactic(auto)]
