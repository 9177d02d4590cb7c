//! The events of one verdict: none, one, or two in order, in place so that they take no memory.
ghost use Rattle.std.specs.Prelude.{◌≡◌, ◌↔◌, ◌≤◌, [], ◌∷◌, ◌++◌, length, slice_get, IsTrue, IfNone};
ghost use Rattle.std.specs.Option.{option_copied, option_to_list};

use crate::event::Event;
use std::marker::Model;
use std::mem;

/// At most two events, in order.
#[derive(Drop)]
pub struct Events {
    held: Held,
}

#[derive(Drop)]
enum Held {
    None,
    One(Event),
    Two(Event, Event),
}

impl Model for Events {
    ghost use Rattle.std.specs.Prelude.{◌≤◌, List, length};
    ghost use Rattle.cue_core.specs.declared.event.Event.{Event};

    ghost Value = { List Event };

    ghost use Rattle.cue_core.specs.EventList.{events_in};

    ghost view = { λ e. events_in e.held };

    ghost invariant = { λ e. length (events_in e.held) ≤ 2 };
}

impl Events {
    /// No event.
    pub fn none() -> Events
        ensures { result ≡ [] }
    {
        Events { held: Held::None }
    }

    /// One event.
    pub fn one(event: Event) -> Events
        ensures { result ≡ event ∷ [] }
    {
        Events {
            held: Held::One(event),
        }
    }

    /// Two events, the first of them first.
    pub fn two(first: Event, second: Event) -> Events
        ensures { result ≡ first ∷ second ∷ [] }
    {
        Events {
            held: Held::Two(first, second),
        }
    }

    /// How many events there are.
    pub fn len(&self) -> usize
        ensures value { result ≡ length self.now }
        ensures few { result ≤ 2 }
    {
        match &self.held {
            Held::None => 0,
            Held::One(_) => 1,
            Held::Two(_, _) => 2,
        }
    }

    /// Whether there is none.
    pub fn is_empty(&self) -> bool
        ensures { IsTrue result ↔ (self.now ≡ []) }
    {
        self.len() == 0
    }

    /// The event at the place, counted from 0.
    pub fn get(&self, index: usize) -> Option<&Event>
        ensures { option_copied result ≡ slice_get self.now index }
    {
        match (&self.held, index) {
            (Held::One(event), 0) => Some(event),
            (Held::Two(first, _), 0) => Some(first),
            (Held::Two(_, second), 1) => Some(second),
            (Held::None | Held::One(_) | Held::Two(_, _), _) => None,
        }
    }

    /// Takes the first event out, if there is one.
    pub fn take_first(&mut self) -> Option<Event>
        ensures taken { self.old ≡ option_to_list result ++ self.new }
        ensures none { IfNone result (self.old ≡ []) }
    {
        match mem::replace(&mut self.held, Held::None) {
            Held::None => None,
            Held::One(event) => Some(event),
            Held::Two(first, second) => {
                self.held = Held::One(second);
                Some(first)
            }
        }
    }
}
