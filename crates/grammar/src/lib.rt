// The grammar of LEF as one table, the reading of a text that it defines, and what is proved of every reading; no code.
#![tactic(auto)]
