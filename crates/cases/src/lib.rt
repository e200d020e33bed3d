// No code: the bench's starred cases, proved together by computing the definitions (specs/Laws/Cases.antt).
#![tactic(auto)]
