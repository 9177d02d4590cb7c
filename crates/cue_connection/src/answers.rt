//! What a connection is answered beside the page: a text of the desk, or why there is none.
ghost use Rattle.std.specs.Prelude.{◌≡◌, IfOk, string_bytes};
ghost use Rattle.serde_json.specs.View.{view};
ghost use Rattle.cue_request.specs.Answers as answers;
ghost use Rattle.cue_connection.specs.Answers.{json_answer, trouble_answer, words_data, words_text};
ghost use Rattle.cue_request.specs.declared.answering.Outcome.TheVariants as outcome;

use cue_request::answering::{Kind, NOTHING, Outcome, answer, refusal_words};
use cue_request::request::Refusal;
use serde_json::{Value, json};
use std::alloc::{AllocError, Global};

/// An answer of JSON.
pub fn json_answer(alloc: Global, outcome: Outcome, text: &str) -> Result<String, AllocError>
    ensures { IfOk result (λ whole. string_bytes whole ≡ json_answer outcome text.now) }
{
    answer(alloc, outcome, Kind::Json, NOTHING, text)
}

// A sentence that is shown, as JSON.
fn words_value(alloc: Global, words: &str) -> Result<Value, AllocError>
    ensures { IfOk result (λ value. view value ≡ words_data words.now) }
{
    json!(in alloc; {"words": words})
}

// Its text.
fn words_text(alloc: Global, words: &str) -> Result<String, AllocError>
    ensures { IfOk result (λ text. string_bytes text ≡ words_text words.now) }
{
    words_value(alloc, words)?.to_string(alloc)
}

/// That there is no answer, and why: a sentence that is shown.
pub fn trouble_answer(alloc: Global, outcome: Outcome, words: &str) -> Result<String, AllocError>
    ensures { IfOk result (λ whole. string_bytes whole ≡ trouble_answer outcome words.now) }
{
    let text = words_text(alloc, words)?;
    json_answer(alloc, outcome, text.as_str())
}

/// That a request is refused, and why.
pub fn refused_answer(alloc: Global, refusal: Refusal) -> Result<String, AllocError>
    ensures { IfOk result (λ whole. string_bytes whole
        ≡ trouble_answer (outcome.Refused refusal) (answers.refusal_words refusal)) }
{
    trouble_answer(alloc, Outcome::Refused(refusal), refusal_words(refusal))
}
