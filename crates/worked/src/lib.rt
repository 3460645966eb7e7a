// Examples of the chip, worked out from the documents by hand: all of it stands in specs/.
#![tactic(auto)]
