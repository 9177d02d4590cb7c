//! The page itself: one text of HTML with its styles and its scripts, and nothing from anywhere else. Its sources are
//! the folder page/ at the top.
mod sources;

use base64::engine::general_purpose::STANDARD;
use sha2::{Digest, Sha256};
use sources::{BODY, END, HEAD, SCRIPTS, STYLES, TOKEN};
use std::alloc::{AllocError, Global};

// Puts each text after the page, as an element of this kind.
fn push_texts(
    page: &mut String,
    alloc: Global,
    kind: &str,
    texts: &[&str],
) -> Result<(), AllocError> {
    for text in texts {
        let element = format!(in alloc; "<{kind}>{text}</{kind}>\n")?;
        page.push_str(element.as_str())?;
    }
    Ok(())
}

/// The page with its token.
pub fn page_text(alloc: Global, token: &str) -> Result<String, AllocError> {
    let mut page = String::from_str(alloc, HEAD)?;
    push_texts(&mut page, alloc, "style", &STYLES)?;
    let body = format!(in alloc; "{TOKEN}{token}{BODY}")?;
    page.push_str(body.as_str())?;
    push_texts(&mut page, alloc, "script", &SCRIPTS)?;
    page.push_str(END)?;
    Ok(page)
}

// How a policy names texts: each by its digest, so that no other text is taken in its place.
fn named(alloc: Global, texts: &[&str]) -> Result<String, AllocError> {
    let mut names = String::new(alloc);
    for text in texts {
        let digest = Sha256::digest(text.as_bytes());
        let spelled = STANDARD.encode(alloc, &digest)?;
        let name = format!(in alloc; " 'sha256-{}'", spelled.as_str())?;
        names.push_str(name.as_str())?;
    }
    Ok(names)
}

/// What the page may do in a browser: run its own scripts with its own style, and a worker of a text that these make,
/// for its beat; and speak with where it came from. No other page may show it in a frame.
pub fn policy(alloc: Global) -> Result<String, AllocError> {
    let (scripts, styles) = (named(alloc, &SCRIPTS)?, named(alloc, &STYLES)?);
    format!(in alloc;
        "default-src 'none'; script-src{}; style-src{}; img-src data:; connect-src 'self'; \
        worker-src blob:; base-uri 'none'; form-action 'none'; frame-ancestors 'none'",
        scripts.as_str(),
        styles.as_str()
    )
}
