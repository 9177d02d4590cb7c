//! How a show file has the bytes of the parts of a cue.
ghost use Rattle.std.specs.Prelude.{◌≡◌, IfOk, codes};
ghost use Rattle.toml.specs.Data.{get_member};
ghost use Rattle.toml.specs.View.{items_view, table_view, view};
ghost use Rattle.cue_show_file.specs.Seen.{form_by, form_said, forms_at, forms_said};

use super::keys::value_at;
use crate::file::{Form, Forms};
use std::alloc::{AllocError, Global};
use toml::{Table, Value};

// How a table has the bytes of a part.
fn form_in(table: &Table) -> Form
    ensures { result ≡ form_by (get_member (codes "text") (table_view table.now)) }
{
    match value_at(table, "text") {
        Some(_) => Form::Text,
        None => Form::Digits,
    }
}

// How a value has the bytes of a part.
fn form_of(value: &Value) -> Form
    ensures { result ≡ form_said (view value.now) }
{
    match value {
        Value::Table(table) => form_in(table),
        _ => Form::Digits,
    }
}

// The form of each value.
fn read_each(alloc: Global, values: &[Value]) -> Result<Forms, AllocError>
    ensures { IfOk result (λ forms. forms ≡ forms_said (items_view values.now)) }
{
    let mut forms = Vec::new(alloc);
    for value in values {
        forms.push(form_of(value))?;
    }
    Ok(Forms::of(forms))
}

/// The form of each part of a cue, in order.
pub(super) fn read_forms(alloc: Global, table: &Table) -> Result<Forms, AllocError>
    ensures { IfOk result (λ forms. forms ≡ forms_at (get_member (codes "parts") (table_view table.now))) }
{
    match value_at(table, "parts") {
        Some(Value::Array(values)) => read_each(alloc, values),
        _ => Ok(Forms::of(Vec::new(alloc))),
    }
}
