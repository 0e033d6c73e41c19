// The starred worked values of document 01, in specs/. No code.
#![tactic(auto)]
