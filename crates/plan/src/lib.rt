// Definitions and laws alone: the requests that the papers ask of an update, and the answers that a session awaits.
#![tactic(auto)]
