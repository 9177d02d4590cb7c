//! What marks a cue for people: a colour and a flag. The controller never sees them.
ghost use Rattle.std.specs.Prelude.{◌≡◌, find};
ghost use Rattle.cue_show.specs.Number.{same_text};
ghost use Rattle.cue_show_file.specs.Marks as marks;

/// The colour of a cue in the cue sheet, on the board and on the page.
#[derive(Clone, Copy, Debug, PartialEq, Eq)]
pub enum Color {
    Red,
    Orange,
    Yellow,
    Green,
    Blue,
    Purple,
    White,
}

/// Why a cue is one to take care of.
#[derive(Clone, Copy, Debug, PartialEq, Eq)]
pub enum Flag {
    /// Somebody may be hurt.
    Danger,
    /// Something flies.
    Fly,
    /// A trap opens or closes.
    Trap,
}

/// Each colour, in the order in which a mistake names them.
pub const COLORS: [Color; 7] = [
    Color::Red,
    Color::Orange,
    Color::Yellow,
    Color::Green,
    Color::Blue,
    Color::Purple,
    Color::White,
];

/// Each flag, in the order in which a mistake names them.
pub const FLAGS: [Flag; 3] = [Flag::Danger, Flag::Fly, Flag::Trap];

// The colour among these that has the word.
fn color_in(colors: &[Color], word: &str) -> Option<Color>
    ensures { result ≡ find (λ c. same_text (marks.color_word c) word.now) colors.now }
{
    colors.iter().copied().find(|color| color.word() == word)
}

// The flag among these that has the word.
fn flag_in(flags: &[Flag], word: &str) -> Option<Flag>
    ensures { result ≡ find (λ f. same_text (marks.flag_word f) word.now) flags.now }
{
    flags.iter().copied().find(|flag| flag.word() == word)
}

impl Color {
    /// Its word in a show file.
    pub fn word(self) -> &'static str
        ensures { result.now ≡ marks.color_word self }
    {
        match self {
            Color::Red => "red",
            Color::Orange => "orange",
            Color::Yellow => "yellow",
            Color::Green => "green",
            Color::Blue => "blue",
            Color::Purple => "purple",
            Color::White => "white",
        }
    }

    /// The colour of which this is the word; none if it is the word of none. `laws::marks_have_their_words` says
    /// that this and `word` are inverse.
    pub fn read(word: &str) -> Option<Color>
        ensures { result ≡ marks.color_of word.now }
    {
        color_in(&COLORS, word)
    }
}

impl Flag {
    /// Its word in a show file.
    pub fn word(self) -> &'static str
        ensures { result.now ≡ marks.flag_word self }
    {
        match self {
            Flag::Danger => "danger",
            Flag::Fly => "fly",
            Flag::Trap => "trap",
        }
    }

    /// The flag of which this is the word; none if it is the word of none. `laws::marks_have_their_words` says that
    /// this and `word` are inverse.
    pub fn read(word: &str) -> Option<Flag>
        ensures { result ≡ marks.flag_of word.now }
    {
        flag_in(&FLAGS, word)
    }
}
