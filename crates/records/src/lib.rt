// The bytes of a drawing: reading them, record by record, into objects and constraints, and turning faulty ones away.
#![tactic(auto)]

pub mod format;
pub mod reader;

pub use reader::read;
