// The equations of a grammar, and what their least solution says of its derivations.
#![tactic(auto)]
