//! Pages of HTML that are made once and printed: the cue sheet, and the report of an evening. One writer of both.
//!
//! Why it is so:
//! - What people wrote, or what stands in a log, is put into such a page by `push_escaped` alone. So no text brings
//!   markup with it: `laws::no_text_is_markup`.
//! - Each sheet of paper says which of how many it is, since sheets are taken apart.
//! - A page takes nothing from anywhere and runs nothing, whatever stands in it: its `HEAD` says so to the browser.
#![tactic(auto)]

ghost use Rattle.std.specs.Prelude.{◌≡◌, ◌++◌, OnOk, string_bytes};
ghost use Rattle.std.specs.Str.{encode_utf8_all};
ghost use Rattle.std.specs.List.{flat_map};
ghost use Rattle.cue_html.specs.Html.{cell_of, front_of, head_of, heading_of, html_of, html_sign, line_of, part_of};
ghost use Rattle.cue_html.specs.Html.{row_of, rows_of, sign_of, style_of};

use cue_columns::{Part, Row};
use cue_words::shown;
use std::alloc::AllocError;

pub mod laws;

// The front of a page, up to its title. The policy lets a browser take nothing from anywhere, and run nothing.
const HEAD: &str = r#"<!DOCTYPE html>
<html lang="en">
<head>
<meta charset="utf-8">
<meta http-equiv="Content-Security-Policy" content="default-src 'none'; style-src 'unsafe-inline'">
<meta name="viewport" content="width=device-width, initial-scale=1">
"#;

// How its paper is: it has margins, and says which of how many sheets it is.
const PAPER: &str = r#"
@page { margin: 14mm 14mm 18mm;
  @bottom-right { content: "page " counter(page) " of " counter(pages); font: 9pt sans-serif; } }
"#;

// Puts a sign after a page, as HTML has it: by its entity if it means something there.
fn push_html(page: &mut String, sign: char) -> Result<(), AllocError>
    ensures { OnOk result (string_bytes page.new ≡ string_bytes page.old ++ encode_utf8_all (html_sign sign)) }
{
    match sign {
        '<' => page.push_str("&lt;"),
        '>' => page.push_str("&gt;"),
        '&' => page.push_str("&amp;"),
        '"' => page.push_str("&quot;"),
        '\'' => page.push_str("&#39;"),
        _ => page.push(sign),
    }
}

// Puts a character after a page, as HTML has it.
fn push_sign(page: &mut String, c: char) -> Result<(), AllocError>
    ensures { OnOk result (string_bytes page.new ≡ string_bytes page.old ++ encode_utf8_all (sign_of c)) }
{
    push_html(page, shown(c))
}

/// Puts a text after a page, as HTML has it, between tags or as the value of an attribute in quotes: what means
/// something there is written by its entity, and a character that a screen does not show is a question mark.
pub fn push_escaped(page: &mut String, text: &str) -> Result<(), AllocError>
    ensures { OnOk result (string_bytes page.new ≡ string_bytes page.old ++ html_of text.now) }
{
    for c in text.chars() {
        push_sign(page, c)?;
    }
    Ok(())
}

/// Puts a text between two pieces of markup after a page.
pub fn push_element(page: &mut String, begin: &str, text: &str, end: &str) -> Result<(), AllocError>
    ensures { OnOk result (string_bytes page.new ≡
        string_bytes page.old ++ (begin.now ++ (html_of text.now ++ end.now))) }
{
    page.push_str(begin)?;
    push_escaped(page, text)?;
    page.push_str(end)
}

// Puts how a page looks after it: what both papers have, and its own style.
fn push_style(page: &mut String, style: &str) -> Result<(), AllocError>
    ensures { OnOk result (string_bytes page.new ≡ string_bytes page.old ++ style_of style.now) }
{
    page.push_str(PAPER)?;
    page.push_str(style)?;
    page.push_str("</style>\n</head>\n<body>\n")
}

/// Puts the front of a page after it, up to its body: its title, and how it looks.
pub fn push_head(page: &mut String, title: &str, style: &str) -> Result<(), AllocError>
    ensures { OnOk result (string_bytes page.new ≡ string_bytes page.old ++ head_of title.now style.now) }
{
    page.push_str(HEAD)?;
    push_element(page, "<title>", title, "</title>\n<style>")?;
    push_style(page, style)
}

// Puts a cell of a table after a page: its text may run from right to left.
#[tactic(auto, unfolding(crate::specs::Html::cell_of))]
fn push_cell(page: &mut String, text: &str) -> Result<(), AllocError>
    ensures { OnOk result (string_bytes page.new ≡ string_bytes page.old ++ cell_of text.now) }
{
    push_element(page, "<td dir=\"auto\">", text, "</td>")
}

// Puts cells of a table after a page, with a text in each.
fn push_cells(page: &mut String, cells: &[String]) -> Result<(), AllocError>
    ensures { OnOk result (string_bytes page.new ≡
        string_bytes page.old ++ flat_map (λ cell. cell_of (string_bytes cell)) cells.now) }
{
    for cell in cells {
        push_cell(page, cell.as_str())?;
    }
    Ok(())
}

/// Puts a row of a table after a page, which begins so and has a text in each of its cells.
#[tactic(auto, unfolding(crate::specs::Html::row_of))]
pub fn push_row(page: &mut String, begin: &str, cells: &[String]) -> Result<(), AllocError>
    ensures { OnOk result (string_bytes page.new ≡ string_bytes page.old ++ row_of begin.now cells.now) }
{
    page.push_str(begin)?;
    push_cells(page, cells)?;
    page.push_str("</tr>\n")
}

// Puts what stands before a row of a part after a page.
#[tactic(auto, unfolding(crate::specs::Html::front_of))]
fn push_front(page: &mut String, text: &str) -> Result<(), AllocError>
    ensures { OnOk result (string_bytes page.new ≡ string_bytes page.old ++ front_of text.now) }
{
    push_element(page, "<tr><td class=\"front\">", text, "</td>")
}

// Puts a row of a part after a page.
#[tactic(auto, unfolding(crate::specs::Html::line_of))]
fn push_line(page: &mut String, row: &Row) -> Result<(), AllocError>
    ensures { OnOk result (string_bytes page.new ≡ string_bytes page.old ++ line_of row.now) }
{
    push_front(page, row.front.as_str())?;
    push_cell(page, row.said.as_str())?;
    page.push_str("</tr>\n")
}

// Puts rows of a part after a page.
fn push_rows(page: &mut String, rows: &[Row]) -> Result<(), AllocError>
    ensures { OnOk result (string_bytes page.new ≡ string_bytes page.old ++ flat_map line_of rows.now) }
{
    for row in rows {
        push_line(page, row)?;
    }
    Ok(())
}

// Puts all rows of a part after a page, or that there is none.
#[tactic(auto, unfolding(crate::specs::Html::rows_of))]
fn push_all_rows(page: &mut String, rows: &[Row]) -> Result<(), AllocError>
    ensures { OnOk result (string_bytes page.new ≡ string_bytes page.old ++ rows_of rows.now) }
{
    if rows.is_empty() {
        return page.push_str("<tr><td>none</td></tr>\n");
    }
    push_rows(page, rows)
}

// Puts a heading after a page, and the begin of the table under it.
#[tactic(auto, unfolding(crate::specs::Html::heading_of))]
fn push_heading(page: &mut String, text: &str) -> Result<(), AllocError>
    ensures { OnOk result (string_bytes page.new ≡ string_bytes page.old ++ heading_of text.now) }
{
    push_element(page, "<h2>", text, "</h2>\n<table class=\"part\">\n")
}

/// Puts a part after a page: its heading, and a table of its rows.
#[tactic(auto, unfolding(crate::specs::Html::part_of))]
pub fn push_part(page: &mut String, part: &Part) -> Result<(), AllocError>
    ensures { OnOk result (string_bytes page.new ≡ string_bytes page.old ++ part_of part.now) }
{
    push_heading(page, part.heading)?;
    push_all_rows(page, &part.rows)?;
    page.push_str("</table>\n")
}
