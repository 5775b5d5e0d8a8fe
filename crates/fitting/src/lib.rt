// Loading and reading back, previews, calls in a row, code and its table in one call, the simulation, demand 3, in
// pieces too. These stand in specs/.
#![tactic(auto)]
