// What holds of the definitions stands in specs/.

#![tactic(auto)]
