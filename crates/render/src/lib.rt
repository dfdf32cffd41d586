// The text that records are written as, and what is proved of it: it reads back. No code.
#![tactic(auto)]
