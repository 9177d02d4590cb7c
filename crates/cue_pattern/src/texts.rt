//! What stands between braces: texts.

ghost use Rattle.std.specs.Prelude.{◌≡◌, ◌<◌, length, IfOk};
ghost use Rattle.std.specs.List.{list_any};
ghost use Rattle.cue_pattern.specs.Bytes.{comma};
ghost use Rattle.cue_pattern.specs.Reading.{cut};
ghost use Rattle.cue_pattern.specs.Steps.{leads};

use crate::cut::cut_first;
use std::alloc::{AllocError, Global};
use std::marker::Model;

/// The bytes of one of the texts between two braces.
#[derive(Debug, Drop)]
pub struct Text {
    bytes: Vec<u8>,
}

impl Model for Text {
    ghost use Rattle.std.specs.Prelude.{List, ℕ};

    ghost Value = { List ℕ };

    ghost view = { λ t. t.bytes.items };
}

impl Text {
    fn read(alloc: Global, bytes: &[u8]) -> Result<Text, AllocError>
        ensures { IfOk result (λ t. t ≡ bytes.now) }
    {
        let bytes = Vec::from_slice(alloc, bytes)?;
        Ok(Text { bytes })
    }

    pub(crate) fn bytes(&self) -> &[u8]
        ensures { result.now ≡ self.now }
    {
        self.bytes.as_slice()
    }

    /// Whether the text stands at the front, and the position after it is reached.
    fn leads(&self, text: &[u8], reached: &[bool]) -> bool
        requires { length text.now < length reached.now }
        ensures { result ≡ leads self.now text.now reached.now }
    {
        text.starts_with(&self.bytes) && reached[self.bytes.len()]
    }
}

/// The texts between two braces, in order.
#[derive(Debug, Drop)]
pub struct Texts {
    items: Vec<Text>,
}

impl Model for Texts {
    ghost use Rattle.std.specs.Prelude.{List, ℕ};

    ghost Value = { List (List ℕ) };

    ghost view = { λ t. t.items.items };
}

impl Texts {
    /// Reads what stands between the braces.
    pub(crate) fn read(alloc: Global, inside: &[u8]) -> Result<Texts, AllocError>
        ensures { IfOk result (λ t. t ≡ cut comma inside.now) }
    {
        let commas = inside.iter().filter(|b| **b == b',').count();
        let mut items = Vec::with_capacity(alloc, commas + 1)?;
        let mut left = Some(inside);
        while let Some(bytes) = left {
            let (text, behind) = cut_first(b',', bytes);
            items.push(Text::read(alloc, text)?)?;
            left = behind;
        }
        Ok(Texts { items })
    }

    pub(crate) fn items(&self) -> &[Text]
        ensures { result.now ≡ self.now }
    {
        self.items.as_slice()
    }

    /// Whether one of the texts stands at the front, and the position after it is reached.
    pub(crate) fn lead(&self, text: &[u8], reached: &[bool]) -> bool
        requires { length text.now < length reached.now }
        ensures { result ≡ list_any (λ u. leads u text.now reached.now) self.now }
    {
        self.items.iter().any(|u| u.leads(text, reached))
    }
}
