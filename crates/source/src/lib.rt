// The source rules with ticks, the published big-step rules, and what is claimed of them. These stand in specs/.
#![tactic(auto)]
