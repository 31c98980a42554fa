// What a sheet says: definitions and theorems, no code.
#![tactic(auto)]
