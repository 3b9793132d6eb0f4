// The route search: from a constraint to its objects, and from a full object to the constraints with a share there.
ghost use Rattle.std.specs.Prelude.{◌≡◌, ◌<◌};
ghost use Rattle.limits.specs.Limits.{most_ends};
ghost use Rattle.routes.specs.State.{seen_state};
ghost use Rattle.routes.specs.Search.{ReadyConstraint, ReadyObject, FromConstraint, FromObject};
ghost use Rattle.routes.specs.Search.{Waiting, UsingRoom, Shifting, room_used, share_passed};

use crate::chains::Chains;
use limits::{CONSTRAINTS, ENDS, OBJECTS};

// The set of marked objects: a mark for each object, 0 for none. A search takes it and answers it by value.
#[derive(Clone, Copy)]
pub struct Marks {
    pub objects: [u8; OBJECTS],
}

// How the shares are handed out: the stuck constraints, a mark for each, 0 for none; the shares by place; and the room of each
// object. Marks of constraints are bytes like those of objects, so that one definition says what is marked (`Marked`).
#[derive(Clone, Copy)]
pub struct Sharing {
    pub stuck: [u8; CONSTRAINTS],
    pub shares: [u16; ENDS],
    pub room: [u8; OBJECTS],
}

// What a search answers: whether a route was found, how many objects and constraints it marked, and the marked objects. A flag, and no
// Option, since the count and the marks are promised in both cases (`FromConstraint`).
#[derive(Clone, Copy)]
pub struct Route {
    pub found: bool,
    pub count: usize,
    pub marks: Marks,
}

// Whether the constraint at place k has a share there and is not marked.
fn waiting(k: usize, sharing: &Sharing) -> bool
    requires { k < most_ends }
    ensures { Waiting k sharing.now.stuck sharing.now.shares result }
{
    sharing.shares[k] != 0 && sharing.stuck[k / 2] == 0
}

// The object v, which has room, receives one share more at place i.
fn use_room(i: usize, v: usize, sharing: &mut Sharing)
    requires { UsingRoom i v sharing.old.shares sharing.old.room }
    ensures { sharing.new ≡ room_used i v sharing.old }
{
    sharing.shares[i] += 1;
    sharing.room[v] -= 1;
}

// A share goes from place k to place i.
fn shift(k: usize, i: usize, sharing: &mut Sharing)
    requires { Shifting k i sharing.old.shares }
    ensures { sharing.new ≡ share_passed k i sharing.old }
{
    sharing.shares[k] -= 1;
    sharing.shares[i] += 1;
}

// From constraint e: mark it, and go to its first end; where that finds no route, to its second.
#[cycle(from_constraint_from_object)]
pub fn from_constraint(chains: &Chains, e: usize, marks: Marks, sharing: &mut Sharing) -> Route
    requires { ReadyConstraint chains.now.constraints e chains.now.ends (seen_state marks sharing.old) }
    ensures { let before = seen_state marks sharing.old in
        let after = seen_state result.marks sharing.new in
        FromConstraint chains.now.constraints e chains.now.ends before after result.found result.count }
{
    sharing.stuck[e] = 1;
    let mut one = from_object(chains, 2 * e, marks, sharing);
    one.count += 1;
    if one.found {
        return one;
    }
    let two = from_object(chains, 2 * e + 1, one.marks, sharing);
    Route {
        count: one.count + two.count,
        ..two
    }
}

// To the object at place i. Marked: no route. With room: the share at i rises. Full: mark it, and go on to each unmarked
// constraint with a share there, the last place first; where one finds a route, its share here goes to i.
#[cycle(from_constraint_from_object)]
fn from_object(chains: &Chains, i: usize, mut marks: Marks, sharing: &mut Sharing) -> Route
    requires { ReadyObject chains.now.constraints i chains.now.ends (seen_state marks sharing.old) }
    ensures { let before = seen_state marks sharing.old in
        let after = seen_state result.marks sharing.new in
        FromObject chains.now.constraints i chains.now.ends before after result.found result.count }
{
    let v = usize::from(chains.ends[i]);
    if marks.objects[v] != 0 {
        return Route {
            found: false,
            count: 0,
            marks,
        };
    }
    if sharing.room[v] != 0 {
        use_room(i, v, sharing);
        return Route {
            found: true,
            count: 0,
            marks,
        };
    }
    marks.objects[v] = 1;
    let mut count = 1;
    for k in chains.places(v) {
        if waiting(k, sharing) {
            let route = from_constraint(chains, k / 2, marks, sharing);
            count += route.count;
            if route.found {
                shift(k, i, sharing);
                return Route { count, ..route };
            }
            marks = route.marks;
        }
    }
    Route {
        found: false,
        count,
        marks,
    }
}
