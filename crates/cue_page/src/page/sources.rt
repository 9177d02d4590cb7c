//! The page's sources, as texts, in the order of the page.
//! Made by `tools/page` of `page/index.html`: change that.
mod alarms;
mod claims;
mod clocks;
mod controls;
mod drawing;
mod elements;
mod finding;
mod keys;
mod layout;
mod lines;
mod live;
mod locking;
mod moving;
mod naming;
mod narrow;
mod pressing;
mod settings;
mod sounding;
mod stack;
mod themes;
mod times;
mod whereabouts;
mod windows;

/// The styles, in order: a later one has the last word.
pub(super) const STYLES: [&str; 4] = [themes::TEXT, layout::TEXT, controls::TEXT, narrow::TEXT];

/// The scripts, in order: what one does at once stands in those before it.
pub(super) const SCRIPTS: [&str; 19] = [
    elements::TEXT,
    naming::TEXT,
    windows::TEXT,
    stack::TEXT,
    finding::TEXT,
    live::TEXT,
    moving::TEXT,
    claims::TEXT,
    whereabouts::TEXT,
    times::TEXT,
    alarms::TEXT,
    keys::TEXT,
    lines::TEXT,
    settings::TEXT,
    clocks::TEXT,
    sounding::TEXT,
    locking::TEXT,
    drawing::TEXT,
    pressing::TEXT,
];

/// What stands before the styles.
pub(super) const HEAD: &str = r#"<!DOCTYPE html>
<html lang="en" data-theme="dark" data-size="normal">
<head>
<meta charset="utf-8">
<meta name="viewport" content="width=device-width, initial-scale=1">
<title>cuedesk</title>
<link rel="icon" href="data:,">
"#;

/// What stands between the styles and the token.
pub(super) const TOKEN: &str = r#"<meta name="cuedesk-token" content=""#;

/// What stands between the token and the scripts.
pub(super) const BODY: &str = r#"">
</head>
<body>
<header>
<h1>CUEDESK</h1>
<div id="rehearsal" role="status" hidden><b>REHEARSAL</b><span>: cuedesk rehearse plays the devices</span></div>
<div id="mode" hidden>READ ONLY</div>
<div id="clocks" role="group" aria-label="Clocks"><span id="wall" role="timer" aria-label="Time"></span>
<span id="last-go" role="timer" aria-label="Last GO" hidden></span>
<span id="act" role="timer" aria-label="Act" hidden></span>
<button id="curtain" class="tool" type="button" hidden>Curtain up</button></div>
<div id="ended">Last: <span id="last">no view yet</span></div>
<div id="tools" role="group" aria-label="The page itself">
<span id="locked" hidden>Locked</span>
<button id="lock-again" class="tool" type="button" hidden>Lock again</button>
<button id="sound" class="tool" type="button">Sound</button>
<button id="theme" class="tool" type="button">Light</button>
<button id="size" class="tool" type="button">Type</button>
</div>
<div id="age" role="timer" aria-label="Age of what is shown">no view yet</div>
</header>
<div id="told" role="status" hidden></div>
<div id="alarms" hidden></div>
<main>
<section id="now" aria-labelledby="next-title">
<div id="next-box"><h2 id="next-title">Next</h2><div id="next" class="next"></div></div>
<h2 id="live-title">Live</h2>
<div id="live" role="group" aria-labelledby="live-title"></div>
<div id="whereabouts" role="group" aria-labelledby="whereabouts-title" hidden>
<h2 id="whereabouts-title">Stands elsewhere</h2><ul id="elsewhere"></ul></div>
</section>
<section id="rest" aria-labelledby="stack-title">
<div id="stack-bar"><h2 id="stack-title">Stack</h2>
<input id="find" type="text" placeholder="Find" autocomplete="off" spellcheck="false"
 aria-label="Find a cue by its number or its name">
<span id="found" role="status"></span>
<button id="back" class="small" type="button" hidden></button>
<button id="to-place" class="small stays" type="button">To the place</button></div>
<fieldset id="moves" disabled aria-label="The cues of the stack">
<div id="list" tabindex="0"><ol id="stack"></ol></div></fieldset>
<div id="network" role="group" aria-labelledby="network-title" hidden>
<h2 id="network-title">Devices on the network</h2><ul id="heard"></ul></div>
<div id="history" role="group" aria-labelledby="past-title" hidden>
<h2 id="past-title">Ended</h2><ol id="past"></ol></div>
</section>
</main>
<form id="lock" role="dialog" aria-labelledby="lock-why" hidden>
<label id="lock-why" for="lock-word">The show is locked.</label>
<input id="lock-word" type="text" autocomplete="off" spellcheck="false">
<button id="lock-open" class="small" type="submit">Unlock</button>
<button id="lock-leave" class="small" type="button">Leave it</button>
</form>
<footer aria-label="Commands">
<div id="words" role="alert">S is STANDBY, space is GO, Esc is CANCEL.</div>
<button id="standby" type="button" disabled aria-keyshortcuts="S">
<b>STANDBY</b> <span id="standby-cue">no cue</span></button>
<button id="anyway" type="button" disabled aria-keyshortcuts="S" hidden>
<b>STANDBY</b> <span id="anyway-why"></span></button>
<button id="cancel" type="button" disabled aria-keyshortcuts="Escape">
<b>CANCEL</b> <span id="cancel-cue"></span></button>
<button id="go" type="button" disabled aria-keyshortcuts="Space">
<b>GO</b> <span id="go-cue">no cue is ready</span></button>
</footer>
<div id="spoken" class="hidden" aria-live="polite"></div>
<div id="elsewhere-said" class="hidden" role="status"></div>
<div id="flash" aria-hidden="true"></div>
"#;

/// What stands after the scripts.
pub(super) const END: &str = r#"</body>
</html>
"#;
