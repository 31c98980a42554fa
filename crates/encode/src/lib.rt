// The writer's table and the bytes that it stands for: definitions and theorems (specs, proofs); the code is in crates/compose, writer and lend.
#![tactic(auto)]
