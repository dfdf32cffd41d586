// That the contract of each call for users and for the border settles what the call does; no code.
#![tactic(auto)]
