// No code: the systems of specs/Laws/Cases.antt, whose bits come from outside, are computed by the definitions of `solve`.
#![tactic(auto)]
