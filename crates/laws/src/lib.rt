// No code: the laws are in specs/.
#![tactic(auto)]
