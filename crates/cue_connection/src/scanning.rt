//! Where the head of a request ends, however its bytes are cut into pieces.
ghost use Rattle.std.specs.Prelude.{◌≡◌, ◌+◌, ◌<◌, ◌^◌, length};
ghost use Rattle.cue_connection.specs.Scanning as scanning;

/// The most fields of a head.
pub const MAX_FIELDS: usize = 64;

/// Where the next byte of a head stands.
#[derive(Clone, Copy, Debug, PartialEq, Eq)]
pub enum Place {
    /// Before the head: so far there were ends of lines alone.
    Blank,
    /// In its first word.
    Word,
    /// In a line, after the first word of the head.
    Line,
    /// At the beginning of a line.
    Begin,
    /// After a carriage return at the beginning of a line.
    Return,
}

/// How far the head has come.
#[derive(Clone, Copy, Debug, PartialEq, Eq)]
pub enum Scan {
    /// Its next byte stands here; it may have so many fields more.
    Open(Place, usize),
    /// It has ended, after so many bytes.
    Ended(usize),
    /// No bytes that follow make it a head that is read.
    NoHead,
}

// Whether the byte may stand in the first word.
fn is_of_word(byte: u8) -> bool
    ensures { result ≡ scanning.is_of_word byte }
{
    byte.is_ascii_graphic()
}

// Before the head, and in its first word.
fn in_word(place: Place, left: usize, byte: u8) -> Scan
    ensures { result ≡ scanning.in_word place left byte }
{
    if is_of_word(byte) {
        Scan::Open(Place::Word, left)
    } else {
        match place {
            Place::Blank if byte == b'\r' || byte == b'\n' => Scan::Open(Place::Blank, left),
            Place::Word if byte == b' ' => Scan::Open(Place::Line, left),
            _ => Scan::NoHead,
        }
    }
}

// At the beginning of a line, which may be the empty one that ends the head after this byte.
fn at_begin(left: usize, length: usize, byte: u8) -> Scan
    requires { length < 2 ^ 64 }
    ensures { result ≡ scanning.at_begin left length byte }
{
    if byte == b'\n' {
        Scan::Ended(length)
    } else if byte == b'\r' {
        Scan::Open(Place::Return, left)
    } else if left == 0 {
        Scan::NoHead
    } else {
        Scan::Open(Place::Line, left - 1)
    }
}

// After the byte that makes it so long, which stands at this place.
fn after_byte(place: Place, left: usize, length: usize, byte: u8) -> Scan
    ensures { result ≡ scanning.open_after place left length byte }
{
    match place {
        Place::Blank | Place::Word => in_word(place, left, byte),
        Place::Line if byte == b'\n' => Scan::Open(Place::Begin, left),
        Place::Line => Scan::Open(Place::Line, left),
        Place::Begin => at_begin(left, length, byte),
        Place::Return if byte == b'\n' => Scan::Ended(length),
        Place::Return => Scan::NoHead,
    }
}

impl Scan {
    /// Nothing has come.
    pub fn new() -> Scan
        ensures { result ≡ scanning.unread }
    {
        Scan::Open(Place::Blank, MAX_FIELDS)
    }

    // After one byte more, which makes what has come so long.
    fn after(self, length: usize, byte: u8) -> Scan
        ensures { result ≡ scanning.after_byte self length byte }
    {
        match self {
            Scan::Open(place, left) => after_byte(place, left, length, byte),
            Scan::Ended(_) | Scan::NoHead => self,
        }
    }

    /// After these bytes, which come after so many. Each is looked at once.
    pub fn after_all(self, before: usize, bytes: &[u8]) -> Scan
        requires { before + length bytes.now < 2 ^ 64 }
        ensures { result ≡ scanning.after_all self before bytes.now }
    {
        let mut scan = self;
        for (at, byte) in bytes.iter().enumerate() {
            scan = scan.after(before + at + 1, *byte);
        }
        scan
    }
}
