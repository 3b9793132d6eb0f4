// One record among the bytes.
ghost use Rattle.std.specs.Prelude.{◌≡◌, ◌+◌, ◌≤◌, ◌<◌, length, IfOk};
ghost use Rattle.codes.specs.Codes.{fault_of};
ghost use Rattle.records.specs.Format.{object_body_size, constraint_body_size, body_length, next_record, record_kind};
ghost use Rattle.records.specs.Format.{two_at, head_fault, object_body, constraint_body, record_at};
ghost use Rattle.records.specs.Meant.{KindOrFault, kind_number, meant};

use codes::Fault;
use drawing::{Constraint, Object};

// The bytes of a record's head and of each kind's body.
pub const HEAD: usize = 4;

pub const OBJECT_BODY: usize = 2;

pub const CONSTRAINT_BODY: usize = 6;

// The kinds of records.
#[derive(Clone, Copy, PartialEq, Eq, Debug)]
pub enum RecordKind {
    Object = 1,
    Constraint,
    End,
}

impl TryFrom<u16> for RecordKind {
    type Error = Fault;

    ghost try_from_gives = { KindOrFault };

    fn try_from(number: u16) -> Result<RecordKind, Fault> {
        match number {
            1 => Ok(RecordKind::Object),
            2 => Ok(RecordKind::Constraint),
            3 => Ok(RecordKind::End),
            _ => Err(Fault::RecordKind),
        }
    }
}

impl RecordKind {
    // The length of the body.
    #[tactic(auto, unfolding(crate::specs::Format::body_length, drawing::specs::Choice::pick))]
    pub fn body_length(self) -> usize
        ensures { result ≡ body_length (kind_number self) }
    {
        match self {
            RecordKind::Object => OBJECT_BODY,
            RecordKind::Constraint => CONSTRAINT_BODY,
            RecordKind::End => 0,
        }
    }
}

// What stands at a position of the bytes.
#[derive(Clone, Copy)]
pub enum Record {
    Object(Object),
    Constraint(Constraint),
    End,
}

// The little-endian number in two bytes.
#[tactic(auto, unfolding(crate::specs::Format::two_at))]
pub fn two_at(s: &[u8], at: usize) -> u16
    requires { at + 1 < length s.now }
    ensures { result ≡ two_at s.now at }
{
    u16::from_le_bytes([s[at], s[at + 1]])
}

// The kind of the record at a position, whose body is there, or what is wrong with its head or with the length of its body.
#[tactic(auto, unfolding(crate::specs::Format::head_fault, drawing::specs::Choice::pick))]
fn head(s: &[u8], at: usize) -> Result<RecordKind, Fault>
    requires { at ≤ length s.now }
    ensures fault { fault_of result ≡ head_fault s.now at }
    ensures kind { IfOk result (λ kind. kind_number kind ≡ record_kind s.now at) }
    ensures body { IfOk result (λ kind. next_record at (kind_number kind) ≤ length s.now) }
{
    if s.len() < at + HEAD {
        return Err(Fault::CutOff);
    }
    let kind = RecordKind::try_from(two_at(s, at + 2))?;
    let length = kind.body_length();
    if usize::from(two_at(s, at)) != length {
        return Err(Fault::BodyLength);
    }
    if s.len() < at + HEAD + length {
        return Err(Fault::CutOff);
    }
    Ok(kind)
}

// The body of an object.
fn object_body(s: &[u8], at: usize) -> Object
    requires { at + object_body_size ≤ length s.now }
    ensures { result ≡ object_body s.now at }
{
    Object {
        kind: s[at],
        stated: s[at + 1],
    }
}

// The body of a constraint.
fn constraint_body(s: &[u8], at: usize) -> Constraint
    requires { at + constraint_body_size ≤ length s.now }
    ensures { result ≡ constraint_body s.now at }
{
    Constraint {
        first: two_at(s, at),
        second: two_at(s, at + 2),
        kind: s[at + 4],
        stated: s[at + 5],
    }
}

// The record at a position.
#[tactic(auto, unfolding(crate::specs::Format::record_at, crate::specs::Format::body_length, drawing::specs::Choice::pick))]
pub fn record_at(s: &[u8], at: usize) -> Result<Record, Fault>
    requires { at ≤ length s.now }
    ensures { meant result ≡ record_at s.now at }
{
    let body = at + HEAD;
    Ok(match head(s, at)? {
        RecordKind::Object => Record::Object(object_body(s, body)),
        RecordKind::Constraint => Record::Constraint(constraint_body(s, body)),
        RecordKind::End => Record::End,
    })
}
