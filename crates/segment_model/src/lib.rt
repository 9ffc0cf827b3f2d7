//! What joining segments means for their numbers, and its laws.
#![tactic(auto)]
