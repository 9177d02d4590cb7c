//! The port at which the controller listens, as the desk takes it.
ghost use Rattle.std.specs.Prelude.{◌≡◌};
ghost use Rattle.cue_desk.specs.Ports.{first_of, port_of};

/// The port at which the controller listens, if nobody says another.
pub const PORT: u16 = 9100;

/// The port that the command line says, or else the environment: what was said last of it.
pub fn said_port(line: Option<u16>, environment: Option<u16>) -> Option<u16>
    ensures { result ≡ first_of line environment }
{
    match line {
        Some(port) => Some(port),
        None => environment,
    }
}

/// The port of the controller: the one that was said, or else that of the show file, or else 9100.
pub fn controller_port(said: Option<u16>, file: Option<u16>) -> u16
    ensures { result ≡ port_of said file }
{
    match (said, file) {
        (Some(port), _) => port,
        (None, Some(port)) => port,
        (None, None) => PORT,
    }
}
