// Laws of the update of one train: an accepted train stays accepted, and the search of a round ends. The crate has no functions.
#![tactic(auto)]
