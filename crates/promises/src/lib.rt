// What the library promises, as theorems over its definitions. There is no code here.
#![tactic(auto)]
