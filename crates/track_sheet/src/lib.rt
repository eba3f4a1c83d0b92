// A track's sheet: writing takes every track that deliveries can finish (specs/Accepted.antt). No code.
#![tactic(auto)]
