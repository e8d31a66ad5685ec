// The style of a page: CSS, as it stands.
/// Colours, sizes and places, in wide and in narrow windows, in light and dark.
pub const STYLE: &[u8] = br##":root {
  color-scheme: light dark;
  --ground: #ffffff;
  --raised: #f3f4f6;
  --ink: #16181d;
  --quiet: #565c68;
  --rule: #c9cdd5;
  --window: #dde2ea;
  --chosen: #fff1c2;
  --accent: #9a3d00;
  --read: #1c5fa8;
  --write: #a2262c;
  --pins: #1d6b33;
  --wait: #7a4a00;
  --other: #5b3aa6;
}
@media (prefers-color-scheme: dark) {
  :root {
    --ground: #14161a;
    --raised: #1f2229;
    --ink: #eceef2;
    --quiet: #aab1be;
    --rule: #444a56;
    --window: #2c313b;
    --chosen: #4a3d12;
    --accent: #ffb066;
    --read: #7db8f2;
    --write: #ff8f8f;
    --pins: #7fd394;
    --wait: #f0bd6c;
    --other: #bfa6ff;
  }
}

* { box-sizing: border-box; }
body { margin: 0; padding: 12px; background: var(--ground); color: var(--ink); font: 15px/1.45 system-ui, sans-serif; }
h1 { margin: 0 0 8px; font-size: 1.15rem; overflow-wrap: anywhere; }
h2 { margin: 0 0 4px; font-size: 0.95rem; overflow-wrap: anywhere; }
section { min-width: 0; margin-bottom: 12px; }
nav { display: flex; flex-wrap: wrap; gap: 6px; margin-bottom: 8px; }
button, select { padding: 4px 9px; border: 1px solid var(--rule); border-radius: 5px; background: var(--raised); color: inherit; font: inherit; }
:focus-visible { outline: 2px solid var(--accent); outline-offset: -1px; }
#here { min-height: 1.45em; margin: 6px 0; font-family: ui-monospace, monospace; overflow-wrap: anywhere; }
#ends { margin: 0; padding-left: 18px; columns: 2 32em; column-gap: 24px; overflow-wrap: anywhere; }

/* The lanes of the cogs and the waves of the pins, over clocks. */
#chart { display: block; width: 100%; border: 1px solid var(--rule); border-radius: 5px; touch-action: pan-y; user-select: none; }
#chart text { fill: var(--ink); font-size: 12px; }
#axis text { fill: var(--quiet); }
#labels text { cursor: pointer; }
#labels .idle { fill: var(--quiet); }
#labels .chosen { fill: var(--accent); font-weight: bold; }
.lane.idle { opacity: 0.4; }
.lane.chosen .base { stroke: var(--accent); }
.tick, .base { fill: none; stroke: var(--rule); }
.windows { fill: var(--window); }
.waiting, .loading { stroke: var(--wait); stroke-width: 5px; opacity: 0.45; }
.loading { stroke: var(--quiet); }
.mark { fill: none; stroke-width: var(--mark, 2px); }
.mark.read { stroke: var(--read); }
.mark.write { stroke: var(--write); }
.mark.pins { stroke: var(--pins); }
.mark.wait { stroke: var(--wait); }
.mark.other { stroke: var(--other); }
.wave { fill: none; stroke: var(--pins); stroke-width: 1.5px; }
.wave.chosen { stroke: var(--accent); stroke-width: 3px; }
#cursor { stroke: var(--accent); stroke-width: 1.5px; }

/* The list of turns, the source, and the hub. */
#panes { display: grid; grid-template-columns: minmax(0, 3.6fr) minmax(0, 3fr) minmax(220px, 1.4fr); gap: 12px; }
#list, #source, #held { position: relative; height: 380px; overflow: auto; border: 1px solid var(--rule); border-radius: 5px; }
#list, #source, #held { font: 13px/1.5 ui-monospace, monospace; }
#held { height: 210px; }
.row { position: absolute; display: flex; gap: 8px; width: 100%; height: 22px; padding: 0 6px; text-align: left; white-space: nowrap; cursor: pointer; }
.row { border: 0; border-left: 4px solid transparent; border-radius: 0; background: none; }
.row[aria-current] { border-left-color: var(--accent); background: var(--chosen); }
.row .number { min-width: var(--turn); text-align: right; }
.row .clock { min-width: var(--clock); text-align: right; }
.row .does { flex: 1; overflow: hidden; text-overflow: ellipsis; }
.row.read .does { color: var(--read); }
.row.write .does { color: var(--write); }
.row.pins .does { color: var(--pins); }
.row.wait .does { color: var(--wait); }
.row.other .does { color: var(--other); }
.number, .row .clock, .row .place { color: var(--quiet); }
.line { display: flex; gap: 10px; width: max-content; min-width: 100%; padding-left: 6px; }
.line .number { min-width: 4ch; text-align: right; user-select: none; }
.line code { font: inherit; white-space: pre; }
.line.here { background: var(--chosen); font-weight: bold; }
#held table { width: 100%; border-collapse: collapse; }
#held th, #held td { padding: 1px 6px; font-weight: normal; text-align: left; }
#held th { overflow-wrap: anywhere; }
#held td { width: 1%; white-space: nowrap; }
#held .touched { background: var(--chosen); }
#hub { display: block; width: 120px; height: 120px; }
#hub-words { margin: 4px 0; }
.seat { fill: var(--raised); stroke: var(--rule); }
.seat.served { stroke: var(--accent); stroke-width: 2px; }
.seat.asks { fill: var(--chosen); }
.seat-name { fill: var(--ink); font-size: 12px; text-anchor: middle; }
.hand { stroke: var(--accent); stroke-width: 2.5px; }

@media (max-width: 900px) {
  #panes { grid-template-columns: minmax(0, 1fr); }
  #list, #source { height: 260px; }
  .row .place { display: none; }
}
"##;
