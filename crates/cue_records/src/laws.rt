//! Laws of the encodings, each the contract of a function that does nothing.
ghost use Rattle.cue_records.specs.Laws.{AcceptableEventsFit, BatchTextsDiffer, BatchesAreReadBack, StateTextsDiffer};
ghost use Rattle.cue_records.specs.Laws.{StatesAreReadBack, StateTextsAreBounded, LimitsOfTexts};

/// The encoding of a batch reads back as the batch.
pub fn batches_are_read_back()
    ensures { BatchesAreReadBack }
{}

/// No two batches have one encoding.
pub fn batch_texts_differ()
    ensures { BatchTextsDiffer }
{}

/// Events that may happen to a state one after the other are within the ranges that their encodings have.
pub fn acceptable_events_fit()
    ensures { AcceptableEventsFit }
{}

/// Each encoding of a state reads back as the state.
pub fn states_are_read_back()
    ensures { StatesAreReadBack }
{}

/// No two states have one encoding.
pub fn state_texts_differ()
    ensures { StateTextsDiffer }
{}

/// No encoding of a state is longer than `MAX_STATE_BYTES`.
pub fn state_texts_are_bounded()
    ensures { StateTextsAreBounded }
{}

/// The limits of the encodings as numbers: 4,096 events of a batch; version 2, and version 1 with its 256 cues; and
/// 592,607 bytes of a state.
pub fn limits_of_texts()
    ensures { LimitsOfTexts }
{}
