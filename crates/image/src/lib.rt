// The image of a physical cluster, as a definition. No code.
#![tactic(auto)]
