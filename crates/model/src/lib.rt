// No code: document 01 as definitions is in specs/.
#![tactic(auto)]
