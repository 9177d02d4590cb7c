//! What a command line can say.
use super::buttons::Buttons;
use super::editing::Editing;
use super::pressing::Pressed;
use super::rehearsing::Rehearsal;
use super::reporting::Report;
use super::web::Web;
use cue_asker::AskerName;
use cue_desk::orders::DeskCommand;
use cue_loading::Manner;
use cue_show::CueNo;

/// What the environment says, if a command line does not.
#[derive(Clone, Copy)]
pub struct Environment<'a> {
    /// CUEDESK_PORT: the port of the controller.
    pub port: Option<&'a str>,
    /// CUEDESK_STORE: the folder of the store.
    pub store: Option<&'a str>,
    /// CUEDESK_FILE: the show file.
    pub file: Option<&'a str>,
    /// CUEDESK_AS: who asks.
    pub name: Option<&'a str>,
}

/// What a board is made of: the paths of what it reads.
#[derive(Drop)]
pub struct Watched {
    /// The folder of the store.
    pub dir: String,
    /// The show file, for names and notes.
    pub file: Option<String>,
    /// The log of `serve`.
    pub log: Option<String>,
    /// The file of the alarms of a page: beside it stands where devices stand.
    pub alarms: Option<String>,
    /// The file in which a relay reports.
    pub relay: Option<String>,
    /// The port of the controller, if the command line or the environment says it.
    pub port: Option<u16>,
}

/// A command, as the words of a command line give it. A port in it is that of the controller, if the command line or
/// the environment says it.
#[derive(Drop)]
pub enum Line {
    /// Tell every mistake of this show file.
    Check {
        file: String,
    },
    /// Add what this show file has.
    Load {
        file: String,
        /// The folder of the store, if it is given: then what the store has is compared with the file.
        dir: Option<String>,
        port: Option<u16>,
        manner: Manner,
    },
    /// Print the show of this folder as a show file.
    Export {
        dir: String,
    },
    /// Write a show file to begin with.
    New {
        file: String,
    },
    /// Change one thing of this show file, or take that back.
    Edit {
        file: String,
        editing: Editing,
    },
    /// Print the cue sheet of this show file.
    Sheet {
        file: String,
        /// As a page for a browser.
        html: bool,
        /// What the show is called; empty if that is not said.
        title: String,
    },
    /// Show the board.
    Board {
        watched: Watched,
        once: bool,
        /// The rows of the window, if they are given.
        rows: Option<u16>,
    },
    /// Show the board of a folder with buttons in a browser.
    Web(Web),
    /// Hear a real desk.
    Buttons(Buttons),
    /// Press a button at a desk without a browser.
    Press(Pressed),
    /// Play every device of a show file.
    Rehearse(Rehearsal),
    /// Stand between the controller and the devices of this show file that are on the stage's network.
    Relay {
        file: String,
        port: Option<u16>,
        status: Option<String>,
    },
    /// Tell an evening by its log.
    Report(Report),
    /// Mark in this file that the curtain goes up, or down.
    Mark {
        file: String,
        is_up: bool,
    },
    /// Stand a cue by, and with it the others.
    StandBy {
        cue: CueNo,
        others: Vec<CueNo>,
        port: Option<u16>,
        /// Who asks, if the command line or the environment says it.
        name: Option<AskerName>,
    },
    /// Ask one thing.
    Ask {
        order: DeskCommand,
        port: Option<u16>,
        /// Who asks, if the command line or the environment says it.
        name: Option<AskerName>,
    },
}

impl Line {
    /// The port of a command that speaks to the controller.
    pub fn port(&mut self) -> Option<&mut Option<u16>> {
        match self {
            Line::Load { port, .. } | Line::Relay { port, .. } | Line::Ask { port, .. } => {
                Some(port)
            }
            Line::StandBy { port, .. } => Some(port),
            Line::Board { watched, .. } => Some(&mut watched.port),
            Line::Web(web) => Some(&mut web.port),
            Line::Buttons(buttons) => Some(&mut buttons.port),
            Line::Press(pressed) => Some(&mut pressed.port),
            Line::Check { .. }
            | Line::Export { .. }
            | Line::New { .. }
            | Line::Edit { .. }
            | Line::Sheet { .. }
            | Line::Rehearse(_)
            | Line::Mark { .. }
            | Line::Report(_) => None,
        }
    }

    /// Who asks, of a command that asks the controller for something.
    pub fn name(&mut self) -> Option<&mut Option<AskerName>> {
        match self {
            Line::Ask { name, .. } | Line::StandBy { name, .. } => Some(name),
            Line::Web(web) => Some(&mut web.name),
            Line::Buttons(buttons) => Some(&mut buttons.name),
            Line::Press(pressed) => Some(&mut pressed.name),
            Line::Check { .. } | Line::Export { .. } | Line::Load { .. } => None,
            Line::New { .. } | Line::Edit { .. } | Line::Sheet { .. } | Line::Report(_) => None,
            Line::Board { .. } | Line::Rehearse(_) | Line::Relay { .. } | Line::Mark { .. } => None,
        }
    }
}
