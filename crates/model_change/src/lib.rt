// A sheet that is read, changed and written again. What it comes to, and what is claimed of it, is in specs/: a request
// makes of a job another one, or a refusal, so that there is no type of its own for it.
#![tactic(auto)]
