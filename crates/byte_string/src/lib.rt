// Byte strings: lists whose every entry is a byte. It has a definition and what follows from it, and no code.
#![tactic(auto)]
