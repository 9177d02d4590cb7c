//! How the page looks if there is little room: in small windows, by a browser's zoom, and with large type. What is
//! next, who is waited for and the great buttons stay in sight.
//! Made by `tools/page` of `page/style/narrow.css`: change that.

/// The text of this element.
pub(super) const TEXT: &str = r#"
.low { font-size: .94rem; line-height: 1.25; }
.low h1, .low #live-title { display: none; }
.low header { flex-wrap: nowrap; padding: .15rem .8rem; gap: .1rem .6rem; font-size: .9rem; }
.low #ended, .low #told { white-space: nowrap; overflow: hidden; text-overflow: ellipsis; }
.low #rehearsal { flex: 0 0 auto; padding: 0 .6rem; }
.low #rehearsal span { display: none; }
.low #tools { flex-wrap: nowrap; }
.low #clocks { min-width: 0; overflow: hidden; flex-wrap: nowrap; }
.slim #last-go, .low.slim #rehearsal:not([hidden]) ~ #clocks #wall, .narrow #wall { display: none; }
.narrow #clocks { white-space: normal; min-width: 0; }
.low .tool { font-size: .75rem; padding: 0 .4rem; }
.low #told { padding: 0 .8rem; }
.low #alarms { max-height: 24vh; }
.low .alarm { padding: 0 .8rem; }
.low .alarm.loudest { font-size: 1.1rem; padding: .1rem .8rem; }
.low main { padding: .3rem .8rem; gap: .8rem; grid-template-columns: 3fr minmax(11rem, 2fr); }
.low #next-box { display: flex; gap: .6rem; align-items: baseline; position: sticky; top: 0; z-index: 1;
  background: var(--ground); }
.low .next { flex: 1; display: flex; flex-wrap: wrap; gap: 0 .6rem; align-items: baseline; padding: .1rem .6rem;
  margin: 0 0 .2rem; min-width: 0; }
.low .next strong { font-size: 1.15rem; }
.low .next .bar { width: .5rem; align-self: stretch; }
.low .next .flag, .low .next .flag.danger { font-size: 1.1rem; margin: 0; }
.low #stack li { padding: .05rem .3rem .05rem 0;
  grid-template-columns: .4rem .9rem minmax(1.5rem, auto) minmax(0, 1fr); }
.low #stack li .small { grid-column: 4; justify-self: start; }
.low .attempt { padding: .2rem .6rem; margin-top: .2rem; }
.low .attempt h3 { font-size: 1.1rem; }
.low #whereabouts { margin-top: .2rem; }
.low .since b, .low .left b { font-size: 1.4rem; }
.low .since span { font-size: .8rem; }
.low .left { margin: .1rem 0; }
.slim th { font-size: 0; padding: 0; }
.slim .needed { display: none; }
.slim .beside { display: inline; }
.low td { padding: .1rem .4rem .1rem 0; }
.slim td:nth-child(2) { min-width: 3.5rem; }
.low .small { padding: 0 .4rem; }
.low #find { min-width: 3rem; padding: 0 .3rem; }
.low #lock { padding: .2rem .8rem; }
.low footer { padding: .3rem .8rem .4rem; gap: .3rem .8rem; }
.low #words { min-height: 1.5rem; padding: .05rem .6rem; font-size: .95rem; }
.low footer button { min-height: 3rem; }
.low footer button b { font-size: 1.3rem; display: inline; margin-right: .4rem; }
.low #cancel b { font-size: 1rem; }
.narrow h1 { display: none; }
.narrow header { flex-wrap: wrap; padding: .3rem .8rem; }
.narrow #alarms { max-height: 22vh; }
.narrow .alarm { padding: .1rem .8rem; }
.narrow .alarm.loudest { font-size: 1.2rem; padding: .3rem .8rem; }
.narrow main { display: block; overflow: auto; padding: .4rem .8rem; }
.narrow section { overflow: visible; }
.narrow #rest { margin-top: 1rem; display: block; }
.narrow #list { max-height: 60vh; }
.narrow .next strong { font-size: 1.3rem; }
.narrow .next .flag.danger { font-size: 1.5rem; }
.narrow footer { grid-template-columns: 1fr 1fr; gap: .5rem .8rem; padding: .4rem .8rem .6rem; }
.narrow footer button { min-height: 3.6rem; }
.narrow footer button b { font-size: 1.4rem; }
.narrow #cancel b { font-size: 1.1rem; }
.narrow #go { grid-column: 1 / -1; min-height: 5rem; }
.narrow #go b { font-size: 2rem; }
.narrow.low footer button, .narrow.low #go { min-height: 2.6rem; }
.narrow.low #go b { font-size: 1.4rem; }
"#;
