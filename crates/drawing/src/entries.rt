// The entries of a drawing as they are read, one after another.
ghost use Rattle.std.specs.Prelude.{◌≡◌};
ghost use Rattle.drawing.specs.Entry.{empty_drawing, kind_of};

use crate::front::Item;
use crate::padded::Padded;
use crate::{Constraint, Object};
use limits::{CONSTRAINTS, OBJECTS};
use std::marker::Model;

// A drawing: its objects and its constraints, each numbered from 0.
#[derive(Clone, Copy)]
pub struct Entries {
    pub objects: Padded<Object, OBJECTS>,
    pub constraints: Padded<Constraint, CONSTRAINTS>,
}

impl Item for Object {
    ghost use Rattle.drawing.specs.Entry.{no_object};

    ghost blank = { no_object };

    fn blank() -> Self {
        Object { kind: 0, stated: 0 }
    }
}

impl Item for Constraint {
    ghost use Rattle.drawing.specs.Entry.{no_constraint};

    ghost blank = { no_constraint };

    fn blank() -> Self {
        Constraint {
            kind: 0,
            stated: 0,
            first: 0,
            second: 0,
        }
    }
}

impl Model for Entries {
    ghost use Rattle.drawing.specs.Entry.{Drawing};

    ghost Value = { Drawing };

    ghost view = { λ e. record { objects = e.objects; constraints = e.constraints } };

    ghost inverse = { λ d. record { objects = d.objects; constraints = d.constraints } };
}

impl Entries {
    // The drawing in which nothing has been read.
    pub fn new() -> Self
        ensures { result ≡ empty_drawing }
    {
        Entries {
            objects: Padded::new(),
            constraints: Padded::new(),
        }
    }

    // The kind of the object that an end names, as read; 0 where there is none, as the definition has it: that of the blanks.
    #[tactic(auto, using(crate::proofs::Fronts::padded_get))]
    pub fn kind_of(&self, end: u16) -> u8
        ensures { result ≡ kind_of self.now end }
    {
        let objects = self.objects.as_array();
        objects.get(usize::from(end)).map_or(0, |o| o.kind)
    }
}
