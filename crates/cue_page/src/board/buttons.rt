//! The lit buttons. Move here is lit for each cue of the stack or for none: that is said once, and not for each cue.
ghost use Rattle.std.specs.Prelude.{◌≡◌, IfOk, filter, map};
ghost use Rattle.std.specs.List.{list_any};
ghost use Rattle.serde_json.specs.Data.{array};
ghost use Rattle.serde_json.specs.View.{items_of, view};
ghost use Rattle.cue_request.specs.Lit.{button_data};
ghost use Rattle.cue_page.specs.Buttons as buttons;

use cue_request::lit::lit_value;
use cue_view::button::Button;
use serde_json::Value;
use std::alloc::{AllocError, Global};

// Whether it moves to a cue.
fn is_move(button: Button) -> bool
    ensures { result ≡ buttons.is_move button }
{
    match button {
        Button::MoveTo(_) => true,
        Button::Standby(_) | Button::Go(_, _) | Button::Cancel(_, _) | Button::Release(_, _) =>
            false,
        Button::Choose(_) | Button::Seen(_) => false,
    }
}

// Those that do not move to a cue.
fn others(alloc: Global, lit: &[Button]) -> Result<Vec<Button>, AllocError>
    ensures { IfOk result (λ some. some.items ≡ filter buttons.is_other lit.now) }
{
    lit.iter()
        .copied()
        .filter(|button| !is_move(*button))
        .collect(alloc)
}

/// Whether Move here is lit.
pub(super) fn has_moves(lit: &[Button]) -> bool
    ensures { result ≡ list_any buttons.is_move lit.now }
{
    lit.iter().any(|button| is_move(*button))
}

/// The lit buttons but for Move here.
pub(super) fn others_value(alloc: Global, lit: &[Button]) -> Result<Value, AllocError>
    ensures { IfOk result (λ v. view v ≡ array (items_of (map button_data (filter buttons.is_other lit.now)))) }
{
    let others = others(alloc, lit)?;
    lit_value(alloc, &others)
}
