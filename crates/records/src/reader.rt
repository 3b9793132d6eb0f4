// Reading a drawing, record by record.
ghost use Rattle.std.specs.Prelude.{◌≡◌, OnOk, OnErr};
ghost use Rattle.codes.specs.Codes.{fault_of};
ghost use Rattle.drawing.specs.Entry.{empty_drawing, with_object, with_constraint};
ghost use Rattle.drawing.specs.Fault.{object_fault_in, constraint_fault_in};
ghost use Rattle.records.specs.Read.{read};
ghost use Rattle.records.specs.Meant.{reading_of, filling_of};

use crate::format::{CONSTRAINT_BODY, HEAD, OBJECT_BODY, Record, record_at};
use codes::Fault;
use drawing::entries::Entries;
use drawing::fault::{constraint_fault, object_fault};
use drawing::{Constraint, Object};

// The bytes of an object record, a constraint record and an end record.
const OBJECT_RECORD: usize = HEAD + OBJECT_BODY;

const CONSTRAINT_RECORD: usize = HEAD + CONSTRAINT_BODY;

const END_RECORD: usize = HEAD;

// Reads a drawing.
pub fn read(bytes: &[u8]) -> Result<Entries, Fault>
    ensures { reading_of result ≡ read bytes.now }
{
    let mut entries = Entries::new();
    fill(bytes, &mut entries)?;
    Ok(entries)
}

// Reads a drawing into entries where nothing has been read; of a refused one some may be left there.
#[tactic(auto, using(crate::proofs::reader::Turn::start_and_end))]
pub fn fill(bytes: &[u8], entries: &mut Entries) -> Result<(), Fault>
    requires { entries.old ≡ empty_drawing }
    ensures { filling_of result entries.new ≡ read bytes.now }
{
    // A cursor, which goes on by as many bytes as the record has.
    let mut at = 0;
    loop {
        match record_at(bytes, at)? {
            Record::Object(o) => {
                add_object(entries, o)?;
                at += OBJECT_RECORD;
            }
            Record::Constraint(c) => {
                add_constraint(entries, c)?;
                at += CONSTRAINT_RECORD;
            }
            Record::End => {
                if at + END_RECORD < bytes.len() {
                    return Err(Fault::BytesBehindEnd);
                }
                return Ok(());
            }
        }
    }
}

// An object behind the entries read so far, if it may come there.
fn add_object(entries: &mut Entries, o: Object) -> Result<(), Fault>
    ensures fault { fault_of result ≡ object_fault_in entries.old o }
    ensures added { OnOk result (entries.new ≡ with_object entries.old o) }
    ensures unchanged { OnErr result (entries.new ≡ entries.old) }
{
    let n = entries.objects.len();
    let m = entries.constraints.len();
    object_fault(n, m, o)?;
    entries.objects.push(o);
    Ok(())
}

// A constraint behind the entries read so far, if it may come there.
fn add_constraint(entries: &mut Entries, c: Constraint) -> Result<(), Fault>
    ensures fault { fault_of result ≡ constraint_fault_in entries.old c }
    ensures added { OnOk result (entries.new ≡ with_constraint entries.old c) }
    ensures unchanged { OnErr result (entries.new ≡ entries.old) }
{
    let n = entries.objects.len();
    let m = entries.constraints.len();
    let first = entries.kind_of(c.first);
    let second = entries.kind_of(c.second);
    constraint_fault(n, m, first, second, c)?;
    entries.constraints.push(c);
    Ok(())
}
