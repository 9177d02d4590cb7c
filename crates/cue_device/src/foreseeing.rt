//! What would come of what may happen next, for a caller that has to find room for it first, as a rehearsal has. Nothing
//! changes, and nothing of it is carried out or sent: that waits until it has happened.
ghost use Rattle.std.specs.Prelude.{◌≡◌};
ghost use Rattle.cue_device.specs.Hearing.{answer_call, answer_told, reported_for, said_by, told_as, what_comes_of};
ghost use Rattle.cue_device.specs.Meanings.{comes_of};

use crate::asked::Command;
use crate::hearing::{Device, Heard, Place, ReportFault, Told};
use crate::over_bytes::Meaning;
use crate::phase::Cell;
use crate::reports::Report;
use crate::table::{again, answer_over, new_number};
use crate::words::Answer;

// What is ordered and answered by a cell of the table.
fn said_by(cell: Cell) -> Heard
    ensures { result ≡ said_by cell }
{
    Heard {
        order: cell.order,
        answer: cell.answer,
    }
}

impl Device {
    /// What `hear_meaning` would give for this now. The caller acts on it only after `hear_meaning` was called: until
    /// then the device has heard nothing.
    pub fn foresee(&self, meaning: &Meaning) -> Heard
        ensures { result ≡ comes_of meaning.now self.now }
    {
        match meaning {
            Meaning::Order(command) => self.foresee_order(command),
            Meaning::Reply | Meaning::Nothing => Heard {
                order: None,
                answer: None,
            },
        }
    }

    /// What the call of this report, `prepared`, `moved`, `gave_up` or `cannot`, would give now. The caller sends the
    /// answer only after that call.
    pub fn foresee_report(&self, report: Report) -> Result<Option<Answer>, ReportFault>
        ensures { result ≡ answer_call (told_as report (reported_for self.now)) self.now }
    {
        let told = report.of_number(self.reported_for());
        if self.is_in_time(told) {
            Ok(self.foresee_told(told))
        } else {
            Err(ReportFault::NotOrdered)
        }
    }

    // What would come of an order of the controller.
    fn foresee_order(&self, command: &Command) -> Heard
        ensures { result ≡ what_comes_of command.now self.now }
    {
        match self.place(command.seq()) {
            Place::Over => Heard {
                order: None,
                answer: Some(answer_over(command)),
            },
            Place::Same(attempt) => said_by(again(command, attempt)),
            Place::New => said_by(new_number(command, self.doing().is_none())),
        }
    }

    // What would be answered to a report in time.
    fn foresee_told(&self, told: Told) -> Option<Answer>
        ensures { result ≡ answer_told told self.now }
    {
        match self.place(told.seq()) {
            Place::Same(attempt) => told.cell(attempt.phase).answer,
            Place::Over | Place::New => None,
        }
    }
}
