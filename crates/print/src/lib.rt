// What the printing program prints for a text. The definitions stand in specs/.
#![tactic(auto)]
