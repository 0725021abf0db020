// What the four calls on a text in parts leave: laws alone.
#![tactic(auto)]
