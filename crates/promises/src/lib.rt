// Theorems alone: what the contracts below promise together.
#![tactic(auto)]
