// Definitions and theorems only: specs/ and proofs/.
#![tactic(auto)]
