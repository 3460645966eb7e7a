// No code: the counters are the history's rows added up.
#![tactic(auto)]
