//! A line of the board.
ghost use Rattle.std.specs.Prelude.{◌≡◌, ◌++◌, IfOk, OnOk, map, replicate, string_bytes};
ghost use Rattle.cue_board.specs.Board.{said_of, text_of};
ghost use Rattle.cue_columns.specs.Columns.{AreFit, IsFit};

use cue_columns::{COLUMNS, fitted};
use std::alloc::{AllocError, Global};

/// A line of the board: what the view says, and what follows after it.
#[derive(Drop)]
pub(crate) struct BoardLine {
    pub(crate) said: String,
    /// Names and notes, as the show file has them.
    pub(crate) rest: String,
}

impl BoardLine {
    /// A line after which nothing follows.
    #[tactic(auto, unfolding(crate::specs::Board::said_of))]
    pub(crate) fn bare(alloc: Global, said: String) -> BoardLine
        ensures { said_of result ≡ string_bytes said }
    {
        BoardLine {
            said,
            rest: String::new(alloc),
        }
    }

    /// A line with this after it.
    #[tactic(auto, unfolding(crate::specs::Board::said_of))]
    pub(crate) fn with_rest(
        alloc: Global,
        said: String,
        rest: &str,
    ) -> Result<BoardLine, AllocError>
        ensures { IfOk result (λ line. said_of line ≡ string_bytes said) }
    {
        Ok(BoardLine {
            said,
            rest: String::from_str(alloc, rest)?,
        })
    }

    // The line as it is shown: as much of it as fits.
    #[tactic(auto, unfolding(crate::specs::Board::text_of))]
    fn text(&self, alloc: Global) -> Result<String, AllocError>
        ensures value { IfOk result (λ text. string_bytes text ≡ text_of self.now) }
        ensures fit { IfOk result (λ text. IsFit COLUMNS (string_bytes text)) }
    {
        let mut text = String::from_str(alloc, self.said.as_str())?;
        text.push_str(self.rest.as_str())?;
        fitted(alloc, text.as_str(), COLUMNS)
    }
}

/// So many spaces.
pub(crate) fn push_spaces(text: &mut String, count: usize) -> Result<(), AllocError>
    ensures { OnOk result (string_bytes text.new ≡ string_bytes text.old ++ replicate count 32) }
{
    for _ in 0..count {
        text.push(' ')?;
    }
    Ok(())
}

/// The lines as they are shown.
#[tactic(auto, using(cue_columns::proofs::ColumnLemmas::are_fit_push))]
pub(crate) fn texts(alloc: Global, lines: &[BoardLine]) -> Result<Vec<String>, AllocError>
    ensures value { IfOk result (λ texts. map string_bytes texts.items ≡ map text_of lines.now) }
    ensures fit { IfOk result (λ texts. AreFit texts.items) }
{
    let mut texts = Vec::new(alloc);
    for line in lines {
        texts.push(line.text(alloc)?)?;
    }
    Ok(texts)
}
