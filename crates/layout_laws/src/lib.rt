// Laws of laying out a train: what it writes is accepted, and a renumbering of links and trains carries through. The crate has no functions.
#![tactic(auto)]
