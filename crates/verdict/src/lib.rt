// What checking a record file against a text answers, and what is proved of every such answer; no code.
#![tactic(auto)]
