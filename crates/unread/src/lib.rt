// A text that a query does not read moves nothing: laws alone.
#![tactic(auto)]
