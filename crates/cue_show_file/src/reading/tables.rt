//! The lists of tables of a show file, and where each table stands.
ghost use Rattle.std.specs.Prelude.{◌≡◌, IfOk, Some};
ghost use Rattle.toml.specs.Data.{get_member};
ghost use Rattle.toml.specs.View.{items_view, table_view};
ghost use Rattle.cue_show_file.specs.Reading.{if_clean};
ghost use Rattle.cue_show_file.specs.Said.{tables_at};

use super::keys::value_at;
use crate::mistake::{Findings, Mistake, Subject};
use std::alloc::AllocError;
use toml::{Table, Value};

// Where a table stands.
#[derive(Clone, Copy)]
pub(super) struct Place {
    // The line of its header; none if the file does not say.
    pub(super) line: Option<usize>,
    // From 1.
    pub(super) place: usize,
}

// The place of the table with this index.
pub(super) fn place_of(lines: &[usize], index: usize) -> Place {
    Place {
        line: lines.get(index).copied(),
        place: index.saturating_add(1),
    }
}

// The tables of the file under this key, which stands at this line; none if there is no such key.
pub(super) fn tables_in<'a>(
    findings: &mut Findings,
    line: Option<usize>,
    table: &'a Table,
    name: &str,
) -> Result<&'a [Value], AllocError>
    ensures { IfOk result (λ values. if_clean findings.new (Some (items_view values.now))
        ≡ if_clean findings.old (tables_at (get_member name.now (table_view table.now)))) }
{
    match value_at(table, name) {
        None => Ok(&[]),
        Some(Value::Array(values)) => Ok(values.as_slice()),
        Some(_) => {
            findings.look_at(line, Subject::File);
            findings.note(Mistake::NoTables)?;
            Ok(&[])
        }
    }
}
