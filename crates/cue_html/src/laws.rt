//! A law of the pages, the contract of a function that does nothing.
ghost use Rattle.cue_html.specs.Html.{NoTextIsMarkup};

/// No text brings markup into a page.
pub fn no_text_is_markup()
    ensures { NoTextIsMarkup }
{}
