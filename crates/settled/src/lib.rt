// Theorems alone: what a settled list of instructions says once its text is read and decoded.
#![tactic(auto)]
