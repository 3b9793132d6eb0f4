// The kinds of objects and constraints, and the table of weights.
ghost use Rattle.std.specs.Prelude.{◌≡◌, ◌<◌, IfSome, unwrap_or};
ghost use Rattle.drawing.specs.Kinds.{object_number, constraint_number, KindOf, Weighs};
ghost use Rattle.drawing.specs.Table.{object_table, circle, allowed, table_weight};

use codes::Fault;

// The kinds of objects: a circle has a given radius, a free circle a free one.
#[derive(Clone, Copy, PartialEq, Eq, Debug)]
pub enum ObjectKind {
    Point = 1,
    Line,
    Circle,
    FreeCircle,
    Cluster,
}

// The kinds of constraints. An angle may be that of parallel lines.
#[derive(Clone, Copy, PartialEq, Eq, Debug)]
pub enum ConstraintKind {
    Distance = 1,
    Angle,
    Coincidence,
    Incidence,
    Tangency,
    SharedPoint,
    SameCentre,
}

impl TryFrom<u8> for ObjectKind {
    type Error = Fault;

    ghost try_from_gives = { KindOf object_number };

    fn try_from(k: u8) -> Result<Self, Fault> {
        match k {
            1 => Ok(Self::Point),
            2 => Ok(Self::Line),
            3 => Ok(Self::Circle),
            4 => Ok(Self::FreeCircle),
            5 => Ok(Self::Cluster),
            _ => Err(Fault::NotInTable),
        }
    }
}

impl TryFrom<u8> for ConstraintKind {
    type Error = Fault;

    ghost try_from_gives = { KindOf constraint_number };

    fn try_from(k: u8) -> Result<Self, Fault> {
        match k {
            1 => Ok(Self::Distance),
            2 => Ok(Self::Angle),
            3 => Ok(Self::Coincidence),
            4 => Ok(Self::Incidence),
            5 => Ok(Self::Tangency),
            6 => Ok(Self::SharedPoint),
            7 => Ok(Self::SameCentre),
            _ => Err(Fault::NotInTable),
        }
    }
}

impl ObjectKind {
    // The table weight.
    #[tactic(auto, unfolding(crate::specs::Table::object_table, crate::specs::Choice::pick))]
    pub fn weight(self) -> u8
        ensures { result ≡ object_table (object_number self) }
    {
        match self {
            Self::FreeCircle | Self::Cluster => 3,
            Self::Point | Self::Line | Self::Circle => 2,
        }
    }

    // Whether this is a circle, of either kind.
    pub fn is_circle(self) -> bool
        ensures { result ≡ circle (object_number self) }
    {
        matches!(self, Self::Circle | Self::FreeCircle)
    }
}

impl ConstraintKind {
    // Whether the table allows a constraint of this kind between objects of the kinds a and b, in either order: an arm for each row.
    #[tactic(auto, unfolding(crate::specs::Table::allowed, crate::specs::Choice::pick))]
    pub fn allows(self, a: ObjectKind, b: ObjectKind) -> bool
        ensures { result ≡ allowed (constraint_number self) (object_number a) (object_number b) }
    {
        use ObjectKind::{Cluster, Line, Point};

        let circles = a.is_circle() && b.is_circle();
        match self {
            Self::Distance => matches!((a, b), (Point | Line, Point | Line)),
            Self::Angle => matches!((a, b), (Line, Line)),
            Self::Coincidence => matches!((a, b), (Point, Point)),
            Self::Incidence => match (a, b) {
                (Point, other) | (other, Point) => other == Line || other.is_circle(),
                _ => false,
            },
            Self::Tangency => match (a, b) {
                (Line, other) | (other, Line) => other.is_circle(),
                _ => circles,
            },
            Self::SharedPoint => matches!((a, b), (Cluster, Cluster)),
            Self::SameCentre => circles,
        }
    }

    // The table weight, where the table allows the constraint.
    #[tactic(auto, using(crate::proofs::NoOther::kinds), unfolding(crate::specs::Table::table_weight, crate::specs::Choice::pick))]
    pub fn weight(self) -> u8
        ensures weighs { Weighs self result }
        ensures some { 0 < result }
    {
        match self {
            Self::Coincidence | Self::SharedPoint | Self::SameCentre => 2,
            Self::Distance | Self::Angle | Self::Incidence | Self::Tangency => 1,
        }
    }
}

// The table weight of an object, by its kind as read; for a byte that is no kind it is 2, as the definition has it.
#[tactic(auto, using(crate::proofs::NoOther::kinds))]
pub fn object_table(k: u8) -> u8
    ensures { result ≡ object_table k }
{
    ObjectKind::try_from(k).map_or(2, ObjectKind::weight)
}

// The table weight of a constraint of kind k between objects of the kinds a and b, as read, where the table allows it. Bytes, since the
// definition answers for every byte.
#[tactic(auto, using(crate::proofs::NoOther::kinds))]
pub fn table_weight(k: u8, a: u8, b: u8) -> Option<u8>
    ensures weight { unwrap_or result 0 ≡ table_weight k a b }
    ensures some { IfSome result (λ w. 0 < w) }
{
    let kind = ConstraintKind::try_from(k).ok()?;
    let first = ObjectKind::try_from(a).ok()?;
    let second = ObjectKind::try_from(b).ok()?;
    if kind.allows(first, second) {
        Some(kind.weight())
    } else {
        None
    }
}
