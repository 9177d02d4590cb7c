//! A panel: what it hears and what that presses, and what it says.
ghost use Rattle.std.specs.Prelude.{◌≡◌, [], OnOk, Some};
ghost use Rattle.cue_midi.specs.Stream.{IsAfter};
ghost use Rattle.cue_panel.specs.Dropped as drops;
ghost use Rattle.cue_panel.specs.Lines.{Says};
ghost use Rattle.cue_panel.specs.Looking as looking;
ghost use Rattle.cue_panel.specs.Looking.{SaysEach};
ghost use Rattle.cue_panel.specs.Outcomes as outcomes;
ghost use Rattle.cue_panel.specs.Pending as waiting;
ghost use Rattle.cue_panel.specs.Playing.{Gives, HearsByte, IsOpened, Undoes, begun_at, by_hand, is_settled};
ghost use Rattle.cue_panel.specs.Playing.{undone_player};
ghost use Rattle.cue_panel.specs.Taking.{hand_of, strike_of, taken_of};
ghost use Rattle.cue_panel.specs.Telling.{Tells, TellsPress};
ghost use Rattle.cue_panel.specs.declared.line.Line.TheVariants as line;
ghost use Rattle.cue_presses.specs.Hand as rule;

use crate::dropped::Dropped;
use crate::line::Line;
use crate::lines::{Lines, Looked};
use crate::outcome::{Outcome, hand_after};
use crate::pending::{Pendings, tell};
use crate::player::{Player, Setting};
use crate::taking::{Strike, Taken, strike_of};
use crate::telling::{line_of, line_of_press, what_of};
use cue_midi::Heard;
use cue_show_file::Group;
use cue_view::view::View;
use std::alloc::{AllocError, Global};

/// A panel of buttons.
#[derive(Drop)]
pub struct Panel<'a> {
    pub player: Player,
    pub pendings: Pendings,
    pub dropped: Dropped,
    pub lines: Lines<'a>,
}

impl<'a> Panel<'a> {
    /// A panel that has heard nothing. These cues are stood by together.
    pub fn new(alloc: Global, setting: Setting, together: &'a [Group]) -> Panel<'a>
        ensures unheard { IsAfter [] result.player.parser }
        ensures setting { result.player.setting ≡ setting }
        ensures hand { result.player.hand ≡ rule.idle }
        ensures pendings { result.pendings ≡ waiting.none }
        ensures dropped { result.dropped ≡ drops.none }
        ensures together { result.lines.together.now ≡ together.now }
        ensures port { result.lines.port ≡ setting.port }
    {
        let port = setting.port;
        Panel {
            player: Player::new(setting),
            pendings: Pendings::none(),
            dropped: Dropped::none(),
            lines: Lines::new(alloc, together, port),
        }
    }

    /// A device is opened at this moment: nothing of it was heard.
    pub fn open(&mut self, now: u64)
        ensures player { IsOpened now self.old.player self.new.player }
        ensures pendings { self.new.pendings ≡ self.old.pendings }
        ensures dropped { self.new.dropped ≡ self.old.dropped }
    {
        self.player.open(now);
    }

    /// A round begins at this moment.
    pub fn begin(&mut self, now: u64)
        ensures player { self.new.player ≡ begun_at now self.old.player }
        ensures pendings { self.new.pendings ≡ self.old.pendings }
        ensures dropped { self.new.dropped ≡ self.old.dropped }
    {
        self.player.begin(now);
    }

    /// Whether what is read may press: nothing of it waited in the device.
    pub fn is_settled(&self) -> bool
        ensures { result ≡ is_settled self.now.player }
    {
        self.player.hand.settling.is_over()
    }

    /// A read in this round has found nothing: all that waited in the device is heard.
    pub fn empty(&mut self)
        ensures player { self.new.player ≡ by_hand (rule.emptied self.old.player.hand) self.old.player }
        ensures pendings { self.new.pendings ≡ self.old.pendings }
        ensures dropped { self.new.dropped ≡ self.old.dropped }
    {
        self.player.empty();
    }

    // Whether a message is no key, and the first of its kind.
    fn is_first(&mut self, taken: &Taken) -> Result<bool, AllocError>
        ensures player { self.new.player ≡ self.old.player }
        ensures pendings { self.new.pendings ≡ self.old.pendings }
        ensures dropped { self.new.dropped ≡ self.old.dropped }
        ensures text { self.new.lines.text ≡ self.old.lines.text }
        ensures together { self.new.lines.together.now ≡ self.old.lines.together.now }
        ensures port { self.new.lines.port ≡ self.old.lines.port }
    {
        match taken {
            Taken::Other(passed) => self.lines.count(*passed),
            Taken::Struck(_, _, _) | Taken::Spoken(_) | Taken::Held(_) => Ok(false),
            Taken::Flooded | Taken::Nothing => Ok(false),
        }
    }

    // Says what there is to say of a message.
    #[tactic(auto, using(crate::proofs::PanelLemmas::tells_so))]
    fn say_taken(&mut self, taken: &Taken, view: &View) -> Result<(), AllocError>
        ensures player { self.new.player ≡ self.old.player }
        ensures pendings { self.new.pendings ≡ self.old.pendings }
        ensures dropped { self.new.dropped ≡ self.old.dropped }
        ensures tells { OnOk result (Tells view.now taken.now self.old.lines self.new.lines) }
    {
        let is_first = self.is_first(taken)?;
        self.lines.say(line_of(taken, is_first), view)
    }

    // Takes a message.
    fn take(&mut self, heard: &Heard, view: &View) -> Result<Option<Strike>, AllocError>
        ensures player { self.new.player
            ≡ by_hand (hand_of self.old.player.setting self.old.player.hand heard.now) self.old.player }
        ensures pendings { self.new.pendings ≡ self.old.pendings }
        ensures dropped { self.new.dropped
            ≡ drops.after (taken_of self.old.player.setting self.old.player.hand view.now heard.now) self.old.dropped }
        ensures gives { Gives result
            (strike_of (taken_of self.old.player.setting self.old.player.hand view.now heard.now)) }
        ensures tells { OnOk result (Tells view.now
            (taken_of self.old.player.setting self.old.player.hand view.now heard.now) self.old.lines self.new.lines) }
    {
        let taken = self.player.take(heard, view);
        self.dropped = self.dropped.after(&taken);
        self.say_taken(&taken, view)?;
        Ok(strike_of(&taken))
    }

    /// Hears a byte of the device, while this view is shown. Answers what is to be pressed, of that view and at once.
    /// If memory runs out nothing is.
    #[tactic(auto, using(crate::proofs::PanelLemmas::hears_message, crate::proofs::PanelLemmas::hears_part))]
    pub fn hear(&mut self, byte: u8, view: &View) -> Result<Option<Strike>, AllocError>
        ensures hears { HearsByte byte view.now self.old.player self.new.player result }
        ensures pendings { self.new.pendings ≡ self.old.pendings }
    {
        match self.player.hear(byte) {
            Some(heard) => self.take(&heard, view),
            None => Ok(None),
        }
    }

    /// This came of a press that was given, with the view after it. If memory runs out it is known all the same.
    #[tactic(auto, using(crate::proofs::PanelLemmas::tells_press))]
    pub fn came(&mut self, strike: &Strike, outcome: Outcome, view: &View) -> Result<(), AllocError>
        ensures player { self.new.player
            ≡ by_hand (outcomes.hand_after strike.now.press outcome view.now self.old.player.hand) self.old.player }
        ensures pendings { self.new.pendings
            ≡ waiting.pendings_after strike.now outcome self.old.player.hand self.old.pendings }
        ensures dropped { self.new.dropped ≡ self.old.dropped }
        ensures tells { OnOk result (TellsPress view.now strike.now outcome self.old.lines self.new.lines) }
    {
        let hand = self.player.hand;
        let is_tapped = self.pendings.is_tapped(&what_of(strike), hand.at);
        self.pendings = self.pendings.after(strike, outcome, &hand);
        self.player.hand = hand_after(&strike.press, outcome, view, hand);
        self.lines
            .say(line_of_press(strike, outcome, is_tapped), view)
    }

    // If the newest press was not carried out, what was passed before it counts again.
    #[tactic(auto, using(crate::proofs::PanelLemmas::undoes))]
    fn undo(&mut self, view: &View)
        ensures player { self.new.player
            ≡ undone_player (waiting.undone_by view.now self.old.pendings.newest) self.old.player }
        ensures undoes { Undoes self.old.player self.new.player view.now }
        ensures pendings { self.new.pendings ≡ self.old.pendings }
        ensures dropped { self.new.dropped ≡ self.old.dropped }
        ensures lines { self.new.lines ≡ self.old.lines }
    {
        if let Some(passed) = self.pendings.undone(view) {
            self.player.hand.passed = passed;
        }
    }

    // What there is to say by a view.
    fn looked(&self, view: &View) -> Looked
        ensures { result ≡ looking.looked_of view.now self.now }
    {
        let (at, is_settled) = (self.player.hand.at, self.is_settled());
        Looked {
            before: tell(self.pendings.before, view, at).line,
            newest: tell(self.pendings.newest, view, at).line,
            waited: self.dropped.waited_line(is_settled),
            flooded: self.dropped.waited_told(is_settled).flooded_line(at),
        }
    }

    // What is still to be said of the two presses.
    fn pendings_left(&self, view: &View) -> Pendings
        ensures { result ≡ looking.pendings_left view.now self.now }
    {
        let at = self.player.hand.at;
        Pendings {
            newest: tell(self.pendings.newest, view, at).left,
            before: tell(self.pendings.before, view, at).left,
        }
    }

    // What is still to be said of what was dropped.
    fn dropped_left(&self) -> Dropped
        ensures { result ≡ looking.dropped_left self.now }
    {
        let is_settled = self.is_settled();
        self.dropped
            .waited_told(is_settled)
            .flooded_told(self.player.hand.at)
    }

    /// Looks at a view: says what became of the last two presses, and what was dropped.
    pub fn look(&mut self, view: &View) -> Result<(), AllocError>
        ensures player { self.new.player
            ≡ undone_player (waiting.undone_by view.now self.old.pendings.newest) self.old.player }
        ensures undoes { Undoes self.old.player self.new.player view.now }
        ensures pendings { self.new.pendings ≡ looking.pendings_left view.now self.old }
        ensures dropped { self.new.dropped ≡ looking.dropped_left self.old }
        ensures says { OnOk result (SaysEach view.now (looking.looked_of view.now self.old) self.old.lines
            self.new.lines) }
    {
        let looked = self.looked(view);
        let (pendings, dropped) = (self.pendings_left(view), self.dropped_left());
        self.undo(view);
        self.pendings = pendings;
        self.dropped = dropped;
        self.lines.say_each(&looked, view)
    }

    /// Says which key is which.
    pub fn say_keys(&mut self, view: &View) -> Result<(), AllocError>
        ensures player { self.new.player ≡ self.old.player }
        ensures says { OnOk result (Says view.now (Some (line.Keys self.old.player.setting.keys))
            self.old.lines self.new.lines) }
    {
        let keys = self.player.setting.keys;
        self.lines.say(Some(Line::Keys(keys)), view)
    }
}
