// Laws about tests, choices and masks, and the bits of a byte, that belong to no rule of the document: all of it stands in specs/.
#![tactic(auto)]
