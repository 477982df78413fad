// The starred cases of document 01, proved of the definitions; no code.
#![tactic(auto)]
