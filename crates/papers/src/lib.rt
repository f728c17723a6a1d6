// What the papers say: DFU 1.1, ST's UM0424 and AN3156. Definitions and their own laws, no code.
#![tactic(auto)]
