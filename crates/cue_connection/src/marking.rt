//! Marks of the curtain: what a press of the page says of it. It is no press of the desk, and nothing is sent.
ghost use Rattle.std.specs.Prelude.{◌≡◌};
ghost use Rattle.cue_connection.specs.Marking as marking;

/// What the curtain does.
#[derive(Clone, Copy, Debug, PartialEq, Eq)]
pub enum CurtainMove {
    Up,
    Down,
}

/// What the body of a command says of the curtain; none if it says nothing of it.
pub fn read_mark(body: &[u8]) -> Option<CurtainMove>
    ensures { result ≡ marking.curtain_of body.now }
{
    if body == b"mark up".as_slice() {
        Some(CurtainMove::Up)
    } else if body == b"mark down".as_slice() {
        Some(CurtainMove::Down)
    } else {
        None
    }
}
