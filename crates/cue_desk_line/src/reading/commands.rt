//! The commands, as `clap` knows them.
use super::arguments::{
    ASKER, Argument, Bits, DIR, Declared, FILE, NAMES, PORT, PORT_OR_FILE, RELAY_STATUS,
    command_of, with, with_all,
};
use super::buttons::BUTTONS_COMMAND;
use super::editing::EDIT_COMMAND;
use super::pressing::{GO_COMMAND, STANDBY_COMMAND};
use super::rehearsing::REHEARSE_COMMAND;
use super::reporting::{MARK_COMMAND, REPORT_COMMAND};
use super::sheet::{NEW_COMMAND, SHEET_COMMAND};
use super::web::WEB_COMMAND;
use clap::Command;
use std::alloc::{AllocError, Global};

/// The number of a cue.
const CUE: Argument = Argument::Word("CUE", "The number of the cue, as 12.5");

/// The number of a device.
const DEVICE: Argument = Argument::Word("DEVICE", "The number of the device, 0 to 111");

/// The commands that read or write a show file, and end.
const FILES: [Declared; 8] = [
    NEW_COMMAND,
    Declared {
        name: "check",
        about: "Tell every mistake of a show file:  cuedesk check evening.toml",
        arguments: &[FILE],
    },
    EDIT_COMMAND,
    SHEET_COMMAND,
    Declared {
        name: "load",
        about: "Add the devices and cues of a show file, and compare:  cuedesk load evening.toml show",
        arguments: &[
            FILE,
            Argument::OptionalWord(
                "DIR",
                "The folder that a.area and b.area stand in: what the store has is compared with the file",
            ),
            PORT_OR_FILE,
            Argument::Flag(
                "replace",
                "Replace what differs, and give the stack the order of the file; refused while a cue is live",
            ),
            Argument::Flag("exact", "The same, and remove what the file does not have"),
        ],
    },
    Declared {
        name: "export",
        about: "Print the show of a store as a show file:  cuedesk export show > evening.toml",
        arguments: &[DIR],
    },
    REPORT_COMMAND,
    MARK_COMMAND,
];

/// The commands that go on until Ctrl-C.
const VIEWS: [Declared; 5] = [
    Declared {
        name: "board",
        about: "Show the stack and who has answered, four times a second:  cuedesk board show evening.toml",
        arguments: &[
            DIR,
            NAMES,
            Argument::Option("log", "The log of serve: its last lines are shown"),
            Argument::Option(
                "alarms",
                "The file of the alarms of a page: where devices stand is read beside it",
            ),
            RELAY_STATUS,
            PORT_OR_FILE,
            Argument::Number(
                Bits::Of16,
                "rows",
                "How many rows the window has; 24 where nothing is said",
            ),
            Argument::Flag("once", "Print it once, as text"),
        ],
    },
    WEB_COMMAND,
    BUTTONS_COMMAND,
    REHEARSE_COMMAND,
    Declared {
        name: "relay",
        about: "Stand between the controller and devices on the stage's network:  cuedesk relay evening.toml",
        arguments: &[
            FILE,
            PORT_OR_FILE,
            Argument::Option(
                "status",
                "Write there, ten times a second, when each device was heard, for board and page. In memory, as /run",
            ),
        ],
    },
];

/// The commands of an evening, but for `remove` and `status`.
const ORDERS: [Declared; 5] = [
    STANDBY_COMMAND,
    GO_COMMAND,
    Declared {
        name: "cancel",
        about: "Give the preparation of a cue up:  cuedesk cancel 12.5",
        arguments: &[CUE, PORT, ASKER],
    },
    Declared {
        name: "goto",
        about: "Move the place to a cue:  cuedesk goto 12.5",
        arguments: &[CUE, PORT, ASKER],
    },
    Declared {
        name: "release",
        about: "Wait no longer for a device:  cuedesk release 4",
        arguments: &[DEVICE, PORT, ASKER],
    },
];

/// What `remove` is, without the commands below it.
const REMOVE: Declared = Declared {
    name: "remove",
    about: "Take a cue or a device out of the show:  cuedesk remove cue 12.5",
    arguments: &[],
};

/// What can be removed: each is a command below `remove`.
const REMOVED: [Declared; 2] = [
    Declared {
        name: "cue",
        about: "Take the cue off the stack:  cuedesk remove cue 12.5",
        arguments: &[CUE, PORT, ASKER],
    },
    Declared {
        name: "device",
        about: "Take the device out of the table:  cuedesk remove device 4",
        arguments: &[DEVICE, PORT, ASKER],
    },
];

/// The command `status`.
const STATUS: Declared = Declared {
    name: "status",
    about: "Say how the show stands:  cuedesk status",
    arguments: &[PORT, ASKER],
};

// The commands over files.
fn with_files<'a>(alloc: Global, command: Command<'a>) -> Result<Command<'a>, AllocError> {
    with_all(alloc, command, &FILES)
}

// The commands that go on.
fn with_views<'a>(alloc: Global, command: Command<'a>) -> Result<Command<'a>, AllocError> {
    with_all(alloc, command, &VIEWS)
}

// The commands of an evening.
fn with_orders<'a>(alloc: Global, command: Command<'a>) -> Result<Command<'a>, AllocError> {
    with_all(alloc, command, &ORDERS)
}

// The command `remove`, which is of a cue or of a device.
fn remove_command<'a>(alloc: Global) -> Result<Command<'a>, AllocError> {
    with_all(alloc, command_of(alloc, &REMOVE)?, &REMOVED)
}

// The program, without its commands.
fn program<'a>(alloc: Global) -> Command<'a> {
    let port =
        "CUEDESK_PORT says the controller's port for all commands of a window; --port wins over it.";
    Command::new(alloc, "cuedesk")
        .version("1.0")
        .about("The desk beside cuectl: show files, commands, and the board")
        .after_help(port)
}

/// All commands.
pub(super) fn cuedesk<'a>(alloc: Global) -> Result<Command<'a>, AllocError> {
    let command = with_views(alloc, with_files(alloc, program(alloc))?)?;
    let command = with(with_orders(alloc, command)?, remove_command(alloc))?;
    with(command, command_of(alloc, &STATUS))
}
