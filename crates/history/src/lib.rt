// The history of a list of events, in specs/, and what a power cut leaves, in proofs/.
#![tactic(auto)]
