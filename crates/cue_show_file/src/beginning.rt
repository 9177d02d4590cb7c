//! A show file to begin with.

/// The text of a show file with two devices and two cues, for people to change. It has no mistake, and no hint.
pub const BEGINNING: &str = r#"# A show file. What stands behind a # is for people alone.

port = 9100                   # where the controller listens

# The devices: a number of 0 to 111, and the port at which each listens.

[[device]]
number = 1
port = 9001
name = "Winch 1, house curtain"

[[device]]
number = 20
port = 9020
name = "Lighting desk"

# The cues, in their order. Each waits for a press: nothing moves by itself.

[[cue]]
number = "1"
name = "House to half"
parts = [
  { device = 20, text = "house=50" },
]

[[cue]]
number = "2"                  # between 2 and 3 there is room: 2.5
name = "Curtain up"
note = "wait for the conductor"
color = "red"                 # red, orange, yellow, green, blue, purple or white
flag = "fly"                  # danger, fly or trap
# with = ["3", "4"]           # cues that are stood by together with it, by one press
parts = [
  { device = 1, hex = "0a01" },                           # which bytes a device takes, its maker says
  { device = 20, text = "state=1", optional = true },     # the cue may go without it
]
"#;
