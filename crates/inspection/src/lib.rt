// Heights of the stack at the positions of code, the call that inspects, and what is claimed of them. These stand in
// specs/.
#![tactic(auto)]
