// A text at the start of a buffer: specs/Over.antt and its laws. No code.
#![tactic(auto)]
