// Document 01's cases that are to be proved, one table: specs/Cases.antt and its one proof. No code.
#![tactic(auto)]
