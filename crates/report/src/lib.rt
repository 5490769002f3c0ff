// Answers and the closing report, written into a lent buffer as model's Report defines them.
#![tactic(auto)]

pub mod answers;
pub mod closing;
