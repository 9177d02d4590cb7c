//! Why a request has no answer, as the page is sent it.
use serde_json::json;
use std::alloc::{AllocError, Global};

/// Why there is no answer, as JSON: a sentence that is shown.
pub fn trouble_text(alloc: Global, words: &str) -> Result<String, AllocError> {
    json!(in alloc; {"words": words})?.to_string(alloc)
}
