//! The status: how a state stands.
ghost use Rattle.std.specs.Prelude.{◌≡◌, ◌≤◌, [], IfOk, length, unwrap_or};
ghost use Rattle.cue_osc.specs.Spelling.{IsText};
ghost use Rattle.cue_show.specs.declared.limits.TheConstants.{MAX_CUE_BYTES};
ghost use Rattle.cue_exchange.specs.declared.limits.TheConstants.{MAX_NUMBER, MAX_LIVE};
ghost use Rattle.cue_outbox.specs.Sending.{datagram, ended_number, ended_outcome, status_of};
ghost use Rattle.cue_outbox.specs.Views.{out_view};

use crate::message::{int, write_message};
use crate::out::Out;
use cue_core::{Ended, State};
use cue_osc::Arg;
use cue_show::CueNo;
use std::alloc::{AllocError, Global};

/// The status: the last number that was drawn, the place, how many attempts are live, and which attempt ended last,
/// and how.
pub fn status(alloc: Global, to: u16, state: &State) -> Result<Out, AllocError>
    ensures { IfOk result (λ out. out_view out ≡ datagram (to, status_of state.now)) }
{
    let place = state.show().place();
    let args = [
        int(last_number(state)),
        Arg::Text(text_of(&place)),
        int(live_count(state)),
        int(last_ended(state)),
        int(ended_outcome(state.ended())),
    ];
    write_message(alloc, to, b"/status", &args)
}

#[tactic(auto, using(crate::proofs::FactLemmas::last_fits))]
fn last_number(state: &State) -> u32
    ensures value { result ≡ state.now.last_seq }
    ensures range { result ≤ MAX_NUMBER }
{
    state.last_seq()
}

// The text of the place; empty if there is none.
#[tactic(auto, using(cue_show::proofs::NumberLemmas::number_text, cue_show::proofs::NumberLemmas::number_short))]
fn text_of(place: &Option<CueNo>) -> &[u8]
    ensures value { result.now ≡ unwrap_or place.now [] }
    ensures text { IsText result.now }
    ensures short { length result.now ≤ MAX_CUE_BYTES }
{
    match place {
        Some(cue) => cue.text(),
        None => &[],
    }
}

#[tactic(auto, using(crate::proofs::FactLemmas::live_fits))]
fn live_count(state: &State) -> u32
    ensures value { result ≡ length state.now.live }
    ensures range { result ≤ MAX_LIVE }
{
    state.live().len() as u32
}

#[tactic(auto, using(crate::proofs::FactLemmas::ended_fits))]
fn last_ended(state: &State) -> u32
    ensures value { result ≡ ended_number state.now.ended }
    ensures range { result ≤ MAX_NUMBER }
{
    ended_number(state.ended())
}

fn ended_number(ended: Option<Ended>) -> u32
    ensures { result ≡ ended_number ended }
{
    match ended {
        Some(ended) => ended.seq,
        None => 0,
    }
}

fn ended_outcome(ended: Option<Ended>) -> u32
    ensures value { result ≡ ended_outcome ended }
    ensures range { result ≤ 3 }
{
    match ended {
        Some(ended) => u32::from(ended.outcome.number()),
        None => 0,
    }
}
