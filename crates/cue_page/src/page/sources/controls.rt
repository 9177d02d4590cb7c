//! How the controls of the page look: the buttons small and great, the form of the show lock, and the flash.
//! Made by `tools/page` of `page/style/controls.css`: change that.

/// The text of this element.
pub(super) const TEXT: &str = r#"
.small, .tool { font: inherit; font-size: .85rem; color: var(--text); background: var(--chip); cursor: pointer;
  border: 1px solid var(--edge); border-radius: .3rem; padding: .2rem .7rem; white-space: nowrap; }
.tool { font-size: .8rem; padding: .1rem .5rem; }
.tool.asks { color: var(--on-amber); background: var(--amber-fill); font-weight: 700; }
.small:disabled, .readonly .small:not(.stays) { visibility: hidden; }
.small.sure { background: var(--amber-fill); color: var(--on-amber); font-weight: 700; }
#lock { grid-row: 5; display: flex; flex-wrap: wrap; gap: .4rem .8rem; align-items: baseline; padding: .5rem 1.4rem;
  background: var(--chip); border-top: 3px solid var(--amber); }
#lock label { overflow-wrap: anywhere; }
#lock-word { font: inherit; min-width: 6rem; flex: 1; max-width: 20rem; color: var(--text); background: var(--panel);
  border: 1px solid var(--edge); border-radius: .3rem; padding: .1rem .5rem; -webkit-text-security: disc; }
footer { grid-row: 6; display: grid; grid-template-columns: 3fr 2fr 4fr; gap: .7rem 2.5rem; padding: .7rem 1.4rem 1rem;
  border-top: 1px solid var(--line); }
.readonly footer { display: none; }
#words { grid-column: 1 / -1; min-height: 2.2rem; padding: .3rem .9rem; border-left: 6px solid var(--line);
  font-size: 1.2rem; overflow-wrap: anywhere; }
#words.refused { border-color: var(--red); background: var(--wrong); color: var(--wrong-text); font-weight: 700; }
#words.open { border-color: var(--amber); }
#words.made { border-color: var(--green); }
footer button { font: inherit; font-weight: 800; line-height: 1.2; min-height: 6rem; min-width: 0; cursor: pointer;
  border-radius: .6rem; border: 3px solid transparent; overflow-wrap: anywhere; }
footer button b { display: block; font-size: 2.1rem; letter-spacing: .06em; }
footer button span { font-size: 1rem; font-weight: 600; }
#standby:enabled { background: var(--amber-fill); color: var(--on-amber); }
#anyway:enabled { background: var(--chip); color: var(--text); border: 5px dashed var(--amber); }
#go:enabled { background: var(--green-fill); color: var(--on-green); box-shadow: 0 0 34px var(--glow); }
#cancel:enabled { background: var(--chip); color: var(--text); border-color: var(--edge); }
#cancel b { font-size: 1.2rem; }
.rehearsed footer { border-top: 8px solid var(--amber-fill); }
.rehearsed #go b::after { content: " rehearsal"; font-size: 1.2rem; letter-spacing: 0; }
footer button:disabled { background: var(--off); color: var(--soft); border-color: var(--line); cursor: default; }
button:focus-visible, input:focus-visible, #list:focus-visible { outline: 4px solid var(--focus); outline-offset: 2px; }
#list:focus-visible { outline-offset: -4px; }
#flash { position: fixed; inset: 0; border: 16px solid var(--red-fill); pointer-events: none; opacity: 0; z-index: 9; }
#flash.is-new { animation: flash .8s ease-in-out 3; }
@keyframes flash { 0%, 100% { opacity: 0; } 40%, 60% { opacity: 1; } }
@media (prefers-reduced-motion: reduce) {
  #flash.is-new { animation: none; }
  #flash.stands { opacity: 1; border-width: 8px; }
}
"#;
