// An open text in a pool: what its complete lines have stored, and its closing.
#![tactic(auto)]
