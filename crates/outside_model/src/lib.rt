//! Files and sinks as contracts see them: what files hold and answer, what sinks take, and what a program leaves in them.
//! Definitions, which contracts cite.
#![tactic(auto)]
