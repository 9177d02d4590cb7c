//! The report as one page of HTML: it stands alone, has no script, and prints in black on white.
ghost use Rattle.std.specs.Prelude.{◌≡◌, ◌++◌, ℕ, List, OnOk, string_bytes};
ghost use Rattle.cue_report.specs.Drawing.{AreDrawn, IsDrawn, class_of, title_by};

mod style;

use crate::attempt::{Attempt, Ended};
use crate::columns::{PAGE, row_of};
use crate::evening::Evening;
use crate::parts::{Head, after, before, head_of};
use crate::sentences::{Told, Words};
use cue_exchange::Outcome;
use cue_html::{push_element, push_head, push_part, push_row};
use std::alloc::AllocError;
use style::STYLE;

/// The names of those who sign, and room for what the log does not know.
const REMARKS: &str = r#"<table class="signed">
<tr><th>Stage manager</th><th>Fly floor</th><th>Stage machinery</th></tr>
<tr><td></td><td></td><td></td></tr>
</table>
<h2>Remarks</h2>
<p class="room"></p>
"#;

// What stands over the page: what the show is called, if that is said.
fn title_of(head: &Head) -> &str
    ensures { result.now ≡ title_by (string_bytes head.now.title) }
{
    if head.title.is_empty() {
        return "Show report";
    }
    head.title.as_str()
}

// The head of the page: what the show is called, when it was, and how much there was.
fn push_front(page: &mut String, told: Told<'_>, evening: &Evening) -> Result<(), AllocError> {
    let head = head_of(told, evening)?;
    let title = title_of(&head);
    push_head(page, title, STYLE)?;
    push_element(page, "<h1 dir=\"auto\">", title, "</h1>\n")?;
    push_element(
        page,
        "<p class=\"span\">Show report, ",
        head.span.as_str(),
        "</p>\n",
    )?;
    push_element(page, "<p>", head.totals.as_str(), "</p>\n")?;
    push_element(page, "<p class=\"note\">", head.note.as_str(), "</p>\n")?;
    page.push_str(REMARKS)
}

// How the row of an attempt begins, by how it ended.
fn class_of(ended: Option<Ended>) -> &'static str
    ensures { result.now ≡ class_of ended }
{
    match ended.map(|ended| ended.outcome) {
        Some(Outcome::Complete) => "<tr class=\"complete\">",
        Some(Outcome::Cancelled) => "<tr class=\"cancelled\">",
        Some(Outcome::Failed) => "<tr class=\"failed\">",
        None => "<tr class=\"open\">",
    }
}

// The row of an attempt.
fn push_attempt(page: &mut String, told: Told<'_>, attempt: &Attempt) -> Result<(), AllocError>
    ensures { OnOk result
        ((row : List ℕ) × (string_bytes page.new ≡ string_bytes page.old ++ row) × IsDrawn attempt.now row) }
{
    let row = row_of(told, attempt, &PAGE)?;
    push_row(page, class_of(attempt.ended), &row)?;
    Ok(())
}

// A row for each attempt, in their order.
fn push_rows(page: &mut String, told: Told<'_>, attempts: &[Attempt]) -> Result<(), AllocError>
    ensures { OnOk result
        ((rows : List ℕ) × (string_bytes page.new ≡ string_bytes page.old ++ rows) × AreDrawn attempts.now rows) }
{
    for attempt in attempts {
        push_attempt(page, told, attempt)?;
    }
    Ok(())
}

// The table of the attempts.
fn push_attempts(
    page: &mut String,
    told: Told<'_>,
    attempts: &[Attempt],
) -> Result<(), AllocError> {
    page.push_str("<h2>Attempts</h2>\n<table class=\"attempts\">\n<thead><tr><th>no.</th>")?;
    for (_, name) in &PAGE {
        push_element(page, "<th>", name, "</th>")?;
    }
    page.push_str("</tr></thead>\n<tbody>\n")?;
    push_rows(page, told, attempts)?;
    page.push_str("</tbody>\n</table>\n")
}

/// The whole page.
pub fn page_of(told: Told<'_>, evening: &Evening) -> Words {
    let mut page = String::new(told.alloc);
    push_front(&mut page, told, evening)?;
    for part in &before(told, evening)? {
        push_part(&mut page, part)?;
    }
    push_attempts(&mut page, told, evening.attempts.list())?;
    for part in &after(told, evening)? {
        push_part(&mut page, part)?;
    }
    page.push_str("</body>\n</html>\n")?;
    Ok(page)
}
