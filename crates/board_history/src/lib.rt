// What a power cut leaves of a board's chips: all of it stands in specs/.
#![tactic(auto)]
