// A chain of deliveries to a track from a fresh start, and the claim about all of it: what it leaves is the track on paper. No code.
#![tactic(auto)]
