// Routes: the search for one, along which a share moves, or the marks that no route leaves; and the chains that it follows.
// Over weights and ends alone. Arrays have room for the limits; the chains say how many constraints are in use.
#![tactic(auto)]

pub mod chains;
pub mod search;
