// No code: the claims over any list of operations, about the `step` that `row::operate` is proved equal to.
#![tactic(auto)]
