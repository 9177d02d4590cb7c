//! How the page looks: large, each thing in its place. What is next, the live cues and the great buttons have their
//! place in each window; the stack gives way first.
//! Made by `tools/page` of `page/style/layout.css`: change that.

/// The text of this element.
pub(super) const TEXT: &str = r#"
* { box-sizing: border-box; margin: 0; }
[hidden] { display: none !important; }
html, body { height: 100%; }
:root[data-size="large"] { font-size: clamp(109%, 2.5vmin, 125%); }
:root[data-size="largest"] { font-size: clamp(118%, 3vmin, 150%); }
body { display: grid; grid-template-rows: auto auto auto minmax(0, 1fr) auto auto;
  grid-template-columns: minmax(0, 1fr); background: var(--ground); color: var(--text); overflow: hidden;
  font: 1.125rem/1.35 system-ui, "DejaVu Sans", sans-serif; font-variant-numeric: tabular-nums; }
header { grid-row: 1; display: flex; flex-wrap: wrap; gap: .3rem 1.2rem; align-items: baseline; padding: .6rem 1.4rem;
  border-bottom: 1px solid var(--line); }
h1 { font-size: 1rem; letter-spacing: .14em; color: var(--soft); font-weight: 600; }
h2 { font-size: .8rem; letter-spacing: .14em; text-transform: uppercase; color: var(--soft); font-weight: 600; }
#mode, #locked { color: var(--on-amber); background: var(--amber-fill); padding: 0 .6rem; border-radius: .3rem;
  font-weight: 700; white-space: nowrap; }
#rehearsal { flex: 1 0 100%; color: var(--on-amber); background: var(--amber-fill); padding: .1rem .8rem;
  font-weight: 800; border-radius: .3rem; letter-spacing: .04em; }
#clocks { display: flex; flex-wrap: wrap; gap: .2rem .9rem; align-items: baseline; white-space: nowrap; }
#wall { font-weight: 700; }
#ended { min-width: 0; overflow-wrap: anywhere; flex: 1 1 14rem; }
#last.failed { background: var(--red-fill); color: var(--on-red); padding: 0 .6rem; border-radius: .3rem;
  font-weight: 700; }
#tools { display: flex; flex-wrap: wrap; gap: .3rem .5rem; }
#age { color: var(--soft); white-space: nowrap; }
#age.late { color: var(--amber); }
#age.old { color: var(--on-amber); background: var(--amber-fill); padding: 0 .7rem; border-radius: .3rem;
  font-weight: 700; }
#told { grid-row: 2; padding: .25rem 1.4rem; background: var(--chip); border-left: 8px solid var(--amber);
  overflow-wrap: anywhere; }
#alarms { grid-row: 3; max-height: 30vh; overflow: auto; background: var(--wrong); color: var(--wrong-text); }
.alarm { display: flex; gap: 1rem; align-items: baseline; justify-content: space-between; padding: .15rem 1.4rem;
  border-left: 8px solid var(--red); overflow-wrap: anywhere; }
.alarm.loudest { background: var(--red-fill); color: var(--on-red); border-color: var(--on-red); font-size: 1.5rem;
  font-weight: 800; line-height: 1.2; padding: .4rem 1.4rem; }
main { grid-row: 4; display: grid; grid-template-columns: 3fr minmax(18rem, 2fr); gap: 1.2rem; padding: .8rem 1.4rem;
  min-height: 0; }
section { min-height: 0; min-width: 0; overflow: auto; }
#rest { display: flex; flex-direction: column; }
#stack-bar { display: flex; flex-wrap: wrap; gap: .3rem .8rem; align-items: baseline; }
#find { font: inherit; font-size: .9rem; flex: 1; min-width: 5rem; padding: .1rem .5rem; color: var(--text);
  background: var(--panel); border: 1px solid var(--edge); border-radius: .3rem; }
#find::placeholder { color: var(--soft); opacity: 1; }
#found { font-size: .85rem; color: var(--soft); }
#moves { flex: 1 0 70%; min-height: 0; min-width: 0; padding: 0; border: 0; display: flex; margin-top: .4rem; }
#list { flex: 1; min-width: 0; overflow: auto; position: relative; }
#stack, #past { list-style: none; padding: 0; }
#stack li { display: grid; gap: .1rem .4rem;
  grid-template-columns: .5rem 1.2rem minmax(2.8rem, auto) minmax(0, 1fr) auto;
  align-items: baseline; padding: .25rem .5rem .25rem 0; overflow-wrap: anywhere; border: 2px solid transparent;
  content-visibility: auto; contain-intrinsic-size: auto 3.4rem; }
#stack li[aria-current] { background: var(--panel); border-color: var(--amber); font-weight: 700; }
#stack li.found { border-color: var(--blue); }
#stack .note { grid-column: 4 / -1; font-weight: 400; color: var(--soft); font-size: .9rem; }
.mark { color: var(--amber); }
.bar { grid-row: 1 / span 2; align-self: stretch; background: var(--mark, transparent); border-radius: .2rem; }
.bar.white { outline: 1px solid var(--edge); }
.color { border-left: .5rem solid var(--mark); background: var(--chip); color: var(--text); padding: 0 .4rem;
  border-radius: .2rem; font-size: .8rem; font-weight: 400; white-space: nowrap; }
.flag { background: var(--chip); color: var(--text); padding: 0 .4rem; border-radius: .2rem; font-size: .85rem;
  font-weight: 700; white-space: nowrap; }
.flag.danger { background: var(--red-fill); color: var(--on-red); }
#past { font-size: .9rem; color: var(--soft); margin-top: .5rem; }
#past .bad { color: var(--red); font-weight: 700; }
.number { color: var(--amber); }
.whole { white-space: nowrap; }
.next { display: grid; grid-template-columns: auto minmax(0, 1fr); gap: 0 .8rem; background: var(--panel);
  border: 1px solid var(--line); border-radius: .5rem; padding: .6rem 1rem; margin: .4rem 0 .8rem;
  overflow-wrap: anywhere; }
.next > * { grid-column: 2; }
.next .bar { grid-column: 1; grid-row: 1 / span 6; width: .8rem; }
.next .empty { grid-column: 1 / -1; }
.marks { display: flex; flex-wrap: wrap; gap: .3rem .6rem; align-items: center; }
.next .flag { font-size: 1.2rem; padding: 0 .7rem; margin-bottom: .2rem; }
.next .flag.danger { font-size: 2rem; line-height: 1.25; letter-spacing: .08em; }
.next strong { font-size: 1.7rem; line-height: 1.2; display: block; }
.next .together { font-size: 1.2rem; font-weight: 700; }
.next .together:empty { display: none; }
.next .note { color: var(--soft); }
.attempt { background: var(--panel); border: 2px solid var(--line); border-radius: .5rem; padding: .6rem 1rem;
  margin-top: .4rem; }
.attempt.chosen { border-color: var(--text); border-width: 3px; }
.attempt.ready { border-color: var(--green); }
.attempt h3 { font-size: 1.35rem; line-height: 1.2; display: flex; flex-wrap: wrap; gap: .2rem .8rem;
  align-items: baseline; overflow-wrap: anywhere; }
.stage { margin-left: auto; padding: 0 .6rem; border-radius: .3rem; background: var(--chip); color: var(--text);
  font-size: 1rem; }
.ready .stage { background: var(--green-fill); color: var(--on-green); }
.failed .stage { background: var(--red-fill); color: var(--on-red); }
.since b { font-size: 2rem; line-height: 1.15; }
.waits { color: var(--amber); font-weight: 700; overflow-wrap: anywhere; }
.is-chosen { font-weight: 700; }
.left { display: flex; gap: .8rem; align-items: center; margin: .3rem 0; color: var(--soft); }
.left b { font-size: 2rem; line-height: 1.15; font-variant-numeric: tabular-nums; }
.left .soon { color: var(--amber); }
.progress { flex: 1; height: .7rem; background: var(--chip); border-radius: .35rem; overflow: hidden; }
.progress i { display: block; height: 100%; background: var(--amber); }
.ready .progress i { background: var(--green); }
table { width: 100%; border-collapse: collapse; margin-top: .4rem; }
th { padding-right: .5rem; text-align: left; color: var(--soft); font-weight: 400; font-size: .85rem; }
td { border-top: 1px solid var(--line); padding: .28rem .5rem .28rem 0; overflow-wrap: anywhere; }
td.whole { overflow-wrap: normal; }
td:nth-child(2) { min-width: 4rem; }
.beside { display: none; color: var(--soft); }
td.answer { font-weight: 700; white-space: nowrap; }
td.heard, td.silent { font-size: .9rem; }
.waiting { color: var(--amber); } .is-ready, .done { color: var(--green); } .failed-device { color: var(--red); }
.excused { color: var(--violet); } .let-go { color: var(--blue); }
#network, #history { margin-top: 1.1rem; }
#whereabouts { margin-top: .8rem; padding-left: .8rem; border-left: 6px solid var(--amber); }
#elsewhere { list-style: none; padding: 0; margin-top: .2rem; }
#elsewhere li { display: grid; grid-template-columns: 2.4rem minmax(0, 1fr); gap: .4rem; overflow-wrap: anywhere; }
#elsewhere .asks { font-weight: 700; }
#elsewhere .unheard { display: block; color: var(--soft); }
#heard { list-style: none; padding: 0; margin-top: .4rem; font-size: .9rem; display: grid; gap: .1rem 1.2rem;
  grid-template-columns: repeat(auto-fill, minmax(min(17rem, 100%), 1fr)); }
#heard li { display: grid; grid-template-columns: 2.4rem 1fr auto; gap: .4rem; border-top: 1px solid var(--line); }
.heard { color: var(--soft); } .silent { color: var(--red); font-weight: 700; }
.says { color: var(--soft); overflow-wrap: anywhere; }
#heard .says { grid-column: 2 / -1; padding-bottom: .2rem; }
.says .progress { height: .45rem; margin-top: .15rem; }
.says .progress i { background: var(--blue); }
.empty { color: var(--soft); margin: .4rem 0; }
.hidden { position: absolute; width: 1px; height: 1px; overflow: hidden; clip-path: inset(50%); }
"#;
