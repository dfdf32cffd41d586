// How definitions write down a text: as it stands in quotes, byte by byte. The crate has definitions and no code.
#![tactic(auto)]
