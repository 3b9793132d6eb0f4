// The weights in force: the stated weight in the place of the table weight.
ghost use Rattle.std.specs.Prelude.{◌≡◌, ◌<◌, ◌≤◌, length};
ghost use Rattle.drawing.specs.Weight.{in_force, object_weight, constraint_weight};

use crate::entries::Entries;
use crate::table::{object_table, table_weight};

// The stated weight, or the table weight where none is stated; 0 is none, as the definition has it.
#[tactic(auto, using(crate::proofs::Choice::tests), unfolding(crate::specs::Weight::in_force, crate::specs::Choice::pick))]
pub fn in_force(stated: u8, table: u8) -> u8
    ensures { result ≡ in_force stated table }
{
    if stated == 0 { table } else { stated }
}

impl Entries {
    // The weight of object i, 0 where there is none, as in the arrays of a net.
    #[tactic(auto, unfolding(crate::specs::Weight::object_weight))]
    pub fn object_weight(&self, i: usize) -> u8
        ensures weight { i < length self.now.objects → result ≡ object_weight self.now i }
        ensures none { length self.now.objects ≤ i → result ≡ 0 }
    {
        let objects = self.objects.as_slice();
        objects
            .get(i)
            .map_or(0, |o| in_force(o.stated, object_table(o.kind)))
    }

    // The weight of constraint e, looked up by the kinds of the objects at its ends; 0 where there is none,
    // as in the arrays of a net.
    #[tactic(auto, unfolding(crate::specs::Weight::constraint_weight))]
    pub fn constraint_weight(&self, e: usize) -> u8
        ensures weight { e < length self.now.constraints → result ≡ constraint_weight self.now e }
        ensures none { length self.now.constraints ≤ e → result ≡ 0 }
    {
        let constraints = self.constraints.as_slice();
        constraints.get(e).map_or(0, |c| {
            let table = table_weight(c.kind, self.kind_of(c.first), self.kind_of(c.second));
            in_force(c.stated, table.unwrap_or(0))
        })
    }
}
