// The script of a page: JavaScript, as it stands.
/// Reads the blocks of a page, draws them, and moves among them.
pub const SCRIPT: &[u8] =
    br##"// The page of a run. What it shows stands in blocks of the document: the lines of the view, the map,
// the levels of the pins, the windows of the hub, and the sources. Nothing else is read, and nothing is fetched.
"use strict";

const COGS = 8;
const PINS = 32;
const ROTATION = 16; // clocks in which the hub serves each cog once
const WINDOW = 2; // clocks for which it serves one
const LANE_HEIGHT = 26;
const PIN_HEIGHT = 22;
const AXIS_HEIGHT = 22;
const LABEL_WIDTH = 52;
const ROW_HEIGHT = 22;
const LINES_AROUND = 300;
const LEAST_CLOCKS = 32;
const SVG = "http://www.w3.org/2000/svg";
const KINDS = ["read", "write", "pins", "wait", "other"];

const by = (id) => document.getElementById(id);

function made(node, attributes, children) {
  for (const [key, value] of Object.entries(attributes)) node.setAttribute(key, value);
  node.append(...children);
  return node;
}
const element = (name, attributes, ...children) => made(document.createElement(name), attributes, children);
const shape = (name, attributes, ...children) => made(document.createElementNS(SVG, name), attributes, children);

/** How many items of a sorted list have a key of at most `limit`. */
function countUpTo(items, key, limit) {
  let low = 0;
  let high = items.length;
  while (low < high) {
    const middle = (low + high) >> 1;
    if (key(items[middle]) <= limit) low = middle + 1;
    else high = middle;
  }
  return low;
}

/** Scrolls a box, and it alone, to what stands in it. */
function keepInSight(box, node) {
  const isInSight = node.offsetTop >= box.scrollTop && node.offsetTop + node.offsetHeight <= box.scrollTop + box.clientHeight;
  if (!isInSight) box.scrollTop = node.offsetTop - box.clientHeight / 2;
}

// ---- What the blocks say

/** The bytes of a block: `%` and two digits stand for a byte, each other character for itself. */
function bytesOf(node) {
  const text = node.textContent;
  const bytes = new Uint8Array(text.length);
  let length = 0;
  for (let at = 0; at < text.length; at += 1) {
    const isEscaped = text[at] === "%";
    bytes[length] = isEscaped ? parseInt(text.slice(at + 1, at + 3), 16) : text.charCodeAt(at);
    length += 1;
    if (isEscaped) at += 2;
  }
  return bytes.subarray(0, length);
}

/** Bytes as a text: UTF-16 behind its mark, else UTF-8, and where that doesn't fit a character each. */
function textOf(bytes) {
  if (bytes[0] === 0xff && bytes[1] === 0xfe) return new TextDecoder("utf-16le").decode(bytes);
  try {
    return new TextDecoder("utf-8", { fatal: true }).decode(bytes);
  } catch {
    return new TextDecoder("latin1").decode(bytes);
  }
}

const textsOf = (kind) => [...document.querySelectorAll(`script.${kind}`)].map((node) => textOf(bytesOf(node)));
const linesOf = (kind) => (textsOf(kind)[0] || "").split("\n").filter((line) => line !== "");
const numbersOf = (kind) => linesOf(kind).map(Number);

/** What a turn does, and the place behind that, ` FILE:LINE METHOD`, of one of these files. */
function placeOf(what, files) {
  for (const file of files) {
    const at = what.lastIndexOf(` ${file}:`);
    const found = at < 0 ? null : /^(\d+)(?: (\S+))?$/.exec(what.slice(at + file.length + 2));
    if (found) return { does: what.slice(0, at), place: { file, line: Number(found[1]), method: found[2] || "" } };
  }
  return { does: what, place: null };
}

function kindOf(does) {
  const word = does.split(" ", 1)[0];
  if (word === "read" || word === "write") return word;
  if (word === "outa" || word === "dira" || word === "ina") return "pins";
  return word.startsWith("wait") ? "wait" : "other";
}

/** A turn of a line `CLOCK [TIME us] cog N DOES[ FILE:LINE METHOD]`. */
function turnOf(line, files) {
  const found = /^(\d+)(?: ([\d.]+) us)? cog (\d) (.*)$/s.exec(line);
  if (!found) return null;
  const { does, place } = placeOf(found[4], files);
  return { clock: Number(found[1]), time: found[2] || "", cog: Number(found[3]), does, place, kind: kindOf(does), line };
}

/** What a turn reads or writes in the hub: a name with an offset, or an address, and a value in hexadecimal digits. A name `METHOD.NAME` of the method
 * that asks is a local, and each cog has its own. */
function valueOf(turn, known) {
  const found = /^(?:read|write) (?:byte|word|long) (\S+?)(?:\+(\d+))? = ([0-9A-F]+)/.exec(turn.does);
  if (!found) return null;
  const [, name, offset, digits] = found;
  if (!known.has(name) && /^[0-9A-F]{4}$/.test(name)) return { name, base: "", offset: parseInt(name, 16), digits };
  const isLocal = !known.has(name) && turn.place && name.startsWith(`${turn.place.method}.`);
  const base = isLocal ? `cog ${turn.cog} ${name}` : name;
  return { name: offset ? `${base}+${offset}` : base, base, offset: Number(offset || 0), digits };
}

/** The bytes of the hub that turns read and write: of each the turns that tell it, and the names by which they are shown. */
function readHub(turns) {
  const variables = linesOf("map").flatMap((line) => /^[0-9A-F]{4} variable (\S+) (\S+)/.exec(line)?.slice(1, 3).join(" ") ?? []);
  const sizes = { byte: 1, word: 2, long: 4 };
  const known = new Set();
  const cells = new Map();
  const rows = new Map();
  for (const [name, size] of variables.map((it) => it.split(" "))) {
    known.add(name);
    rows.set(name, { base: name, offset: 0, size: sizes[size] });
  }
  const shown = turns.map((turn) => valueOf(turn, known));
  shown.forEach((it, index) => {
    if (!it) return;
    const size = it.digits.length / 2;
    rows.set(it.name, { base: it.base, offset: it.offset, size: Math.max(size, rows.get(it.name)?.size ?? 0) });
    for (let k = 0; k < size; k += 1) {
      const key = `${it.base}+${it.offset + k}`;
      if (!cells.has(key)) cells.set(key, []);
      cells.get(key).push({ index, byte: it.digits.slice(2 * (size - 1 - k), 2 * (size - k)) });
    }
  });
  return { rows: inOrder(rows), cells, shown };
}

/** Rows of variables, each name's by their places in it, and behind them those of addresses. */
function inOrder(rows) {
  const names = new Set([...rows.values()].map((row) => row.base).filter((base) => base !== ""));
  const places = new Map([...names, ""].map((base, place) => [base, place]));
  return [...rows].sort(([, one], [, other]) => places.get(one.base) - places.get(other.base) || one.offset - other.offset);
}

/** What a row holds at a turn, in digits; `--` for a byte that no turn has told so far. */
function heldAt(hub, { base, offset, size }, index) {
  let digits = "";
  for (let k = 0; k < size; k += 1) {
    const past = hub.cells.get(`${base}+${offset + k}`) || [];
    const count = countUpTo(past, (it) => it.index, index);
    digits = (count ? past[count - 1].byte : "--") + digits;
  }
  return digits;
}

/** The waits of each cog, from its turn before, and the loads of PASM, a long in each rotation. */
function readBars(turns, ends, span) {
  const bars = [...Array(COGS)].map(() => ({ waiting: [], loading: [] }));
  const last = new Array(COGS).fill(span.from);
  for (const turn of turns) {
    const load = /^load of .*, (\d+) longs$/s.exec(turn.does);
    const end = turn.clock + (load ? ROTATION * Number(load[1]) : 0);
    if (turn.kind === "wait") bars[turn.cog].waiting.push({ from: last[turn.cog], to: turn.clock });
    if (load) bars[turn.cog].loading.push({ from: turn.clock, to: end });
    last[turn.cog] = end;
  }
  for (const line of ends) {
    const found = /^cog (\d) .*, waits since clock (\d+) /s.exec(line);
    if (found) bars[Number(found[1])].waiting.push({ from: Number(found[2]), to: span.to });
  }
  return bars;
}

/** The clocks that are shown: those asked for, but of a run that has ended only some behind its last turn and change. */
function spanOf(turns, ends, levels) {
  const [from, to] = numbersOf("range");
  const made = ends.map((line) => /turns? (?:is|are) made, the last at clock (\d+)$/.exec(line)).find(Boolean);
  const last = made ? Number(made[1]) : from;
  const isCut = ends.some((line) => line.startsWith("no more are asked for"));
  const goesOn = ends.some((line) => /^cog \d (?:runs|is started) /.test(line));
  const end = isCut ? last : Math.max(last, levels.length ? levels[levels.length - 1].clock : 0);
  const shown = goesOn && !isCut ? to : Math.min(to, end + Math.ceil((end - from) / 40) + ROTATION);
  return { from, to: Math.max(shown, from + LEAST_CLOCKS) };
}

/** The 32 pins from a clock on, of a line `CLOCK PINS`. */
function levelOf(line) {
  const [clock, pins] = line.split(" ");
  return { clock: Number(clock), pins: parseInt(pins, 16) };
}

/** All that is shown of the run. */
function readRun() {
  const names = textsOf("name");
  const sources = new Map(textsOf("source").map((text, index) => [names[index], text.split(/\r\n|\r|\n/)]));
  const files = [...sources.keys()].sort((one, other) => other.length - one.length);
  const turns = [];
  const ends = [];
  for (const line of linesOf("view")) {
    const turn = turnOf(line, files);
    if (turn) turns.push(turn);
    else ends.push(line);
  }
  const changes = linesOf("pins").map(levelOf);
  const levels = changes[0]?.clock === 0 ? changes : [{ clock: 0, pins: 0 }, ...changes];
  const span = spanOf(turns, ends, levels);
  const idle = new Set(ends.flatMap((line) => /^cog (\d) is idle$/.exec(line)?.[1] ?? []).map(Number));
  return { sources, turns, ends, levels, span, idle, windows: numbersOf("windows"), hub: readHub(turns), bars: readBars(turns, ends, span) };
}

const run = readRun();
const { turns, span } = run;
const indexes = turns.map((_, index) => index);
const changing = run.levels.reduce((mask, level) => mask | (level.pins ^ run.levels[0].pins), 0);
const pins = [...Array(PINS).keys()].filter((pin) => (changing >>> pin) & 1);
const changesOf = (pin) => run.levels.filter((level, k) => k === 0 || ((level.pins ^ run.levels[k - 1].pins) >>> pin) & 1);
const waves = pins.map((pin) => ({ pin, changes: changesOf(pin), path: shape("path", { class: "wave", "data-pin": pin }) }));
const chosen = { turn: -1, cog: null, pin: null };
const seen = { from: span.from, to: span.to };

// ---- The lanes

const laneTop = (cog) => AXIS_HEIGHT + cog * LANE_HEIGHT;
const pinTop = (index) => laneTop(COGS) + 10 + index * PIN_HEIGHT;
const chartWidth = () => Math.max(100, by("chart").clientWidth - LABEL_WIDTH);
const chartHeight = pinTop(pins.length) + 4;
const scale = () => chartWidth() / (seen.to - seen.from);
const xOf = (clock) => Math.round((Math.min(Math.max(clock, seen.from - 9), seen.to + 9) - seen.from) * scale() * 10) / 10;

function laneOf(cog) {
  const paths = {};
  for (const name of ["windows", "loading", "waiting", ...KINDS]) paths[name] = shape("path", { class: KINDS.includes(name) ? `mark ${name}` : name });
  const marks = KINDS.map((kind) => ({ kind, turns: turns.filter((turn) => turn.cog === cog && turn.kind === kind) }));
  const base = shape("path", { class: "base", d: `M0 ${laneTop(cog) + LANE_HEIGHT}H9999` });
  return { cog, paths, marks, group: shape("g", { class: run.idle.has(cog) ? "lane idle" : "lane", "data-cog": cog }, base, ...Object.values(paths)) };
}

const lanes = [...Array(COGS).keys()].map(laneOf);

/** The hub's windows for a cog among the clocks that are seen, where they are wide enough to be seen. */
function windowsOf(cog) {
  if (WINDOW * scale() < 1.5) return "";
  const first = run.windows[cog] + ROTATION * Math.floor((seen.from - run.windows[cog]) / ROTATION);
  let path = "";
  for (let clock = first; clock < seen.to; clock += ROTATION) path += `M${xOf(clock)} ${laneTop(cog)}H${xOf(clock + WINDOW)}v${LANE_HEIGHT}H${xOf(clock)}z`;
  return path;
}

function drawLane({ cog, paths, marks }) {
  paths.windows.setAttribute("d", windowsOf(cog));
  for (const name of ["waiting", "loading"]) {
    const inSight = run.bars[cog][name].filter((bar) => bar.to >= seen.from && bar.from <= seen.to);
    paths[name].setAttribute("d", inSight.map((bar) => `M${xOf(bar.from)} ${laneTop(cog) + LANE_HEIGHT / 2}H${xOf(bar.to)}`).join(""));
  }
  for (const { kind, turns: own } of marks) {
    const first = countUpTo(own, (turn) => turn.clock, seen.from - WINDOW);
    const inSight = own.slice(first, countUpTo(own, (turn) => turn.clock, seen.to));
    paths[kind].setAttribute("d", inSight.map((turn) => `M${xOf(turn.clock + WINDOW / 2)} ${laneTop(cog) + 4}v${LANE_HEIGHT - 8}`).join(""));
  }
}

function drawWave({ pin, changes, path }, index) {
  const low = pinTop(index) + PIN_HEIGHT - 4;
  const yOf = (level) => ((level.pins >>> pin) & 1 ? low - PIN_HEIGHT + 8 : low);
  const first = Math.max(countUpTo(changes, (level) => level.clock, seen.from), 1);
  const steps = changes.slice(first, countUpTo(changes, (level) => level.clock, seen.to));
  path.setAttribute("d", `M0 ${yOf(changes[first - 1])}${steps.map((level) => `H${xOf(level.clock)}V${yOf(level)}`).join("")}H${xOf(seen.to)}`);
}

/** A step of the axis in clocks: 1, 2 or 5 with zeros, at least so many points wide. */
function stepOf(points) {
  const least = Math.max(points / scale(), 1);
  const ten = 10 ** Math.floor(Math.log10(least));
  return [1, 2, 5, 10].map((times) => times * ten).find((step) => step >= least);
}

function drawAxis() {
  const step = stepOf(90);
  const ticks = [];
  for (let clock = Math.ceil(seen.from / step) * step; clock <= seen.to; clock += step) {
    ticks.push(shape("text", { x: xOf(clock) + 3, y: 14 }, String(clock)), shape("path", { class: "tick", d: `M${xOf(clock)} 4V${AXIS_HEIGHT}` }));
  }
  by("axis").replaceChildren(...ticks);
}

function drawCursor() {
  const turn = turns[chosen.turn];
  const isSeen = turn && turn.clock >= seen.from && turn.clock <= seen.to;
  by("cursor").setAttribute("d", isSeen ? `M${xOf(turn.clock + WINDOW / 2)} ${AXIS_HEIGHT}V${chartHeight}` : "");
}

/** Shows the clocks that are seen. */
function drawSeen() {
  by("clip").setAttribute("width", chartWidth());
  by("chart").style.setProperty("--mark", `${Math.max(1.5, WINDOW * scale())}px`);
  lanes.forEach(drawLane);
  waves.forEach(drawWave);
  drawAxis();
  drawCursor();
}

function labelOf(text, top, choose, attributes) {
  const label = shape("text", { x: 4, y: top, tabindex: 0, role: "button", "aria-pressed": "false", ...attributes }, text);
  label.addEventListener("click", choose);
  label.addEventListener("keydown", (event) => {
    if (event.key === "Enter" || event.key === " ") choose(event.preventDefault());
  });
  return label;
}

function makeChart() {
  const own = lanes.map(({ cog }) => {
    const state = run.idle.has(cog) ? { class: "idle" } : {};
    return labelOf(`cog ${cog}`, laneTop(cog) + 17, () => chooseCog(chosen.cog === cog ? null : cog), { "data-cog": cog, ...state });
  });
  const ofPins = waves.map(({ pin }, index) => labelOf(`P${pin}`, pinTop(index) + 16, () => choosePin(pin), { "data-pin": pin }));
  const parts = [...lanes.map((lane) => lane.group), ...waves.map((wave) => wave.path), shape("path", { id: "cursor" }), shape("g", { id: "axis" })];
  by("chart").setAttribute("height", chartHeight);
  by("chart").append(shape("svg", { id: "clip", x: LABEL_WIDTH, height: chartHeight }, ...parts), shape("g", { id: "labels" }, ...own, ...ofPins));
}

/** Shows the clocks from here on, this many, as far as they are clocks of the run. */
function look(from, width) {
  const wide = Math.min(Math.max(width, LEAST_CLOCKS), span.to - span.from);
  seen.from = Math.min(Math.max(from, span.from), span.to - wide);
  seen.to = seen.from + wide;
  drawSeen();
}

/** Shows so many times fewer clocks; a clock stays where it is, or that of the chosen turn. */
function zoom(times, around) {
  const own = turns[chosen.turn]?.clock ?? -1;
  const at = around ?? (own >= seen.from && own <= seen.to ? own : (seen.from + seen.to) / 2);
  const width = Math.max((seen.to - seen.from) / times, LEAST_CLOCKS);
  look(at - ((at - seen.from) / (seen.to - seen.from)) * width, width);
}

// ---- The hub

function drawHub(turn) {
  const served = run.windows.findIndex((first) => (((turn.clock - first) % ROTATION) + ROTATION) % ROTATION < WINDOW);
  const angleOf = (cog) => (cog / COGS) * 2 * Math.PI - Math.PI / 2;
  const at = (cog, radius) => [60 + radius * Math.cos(angleOf(cog)), 60 + radius * Math.sin(angleOf(cog))];
  const seats = lanes.flatMap(({ cog }) => {
    const [x, y] = at(cog, 42);
    const state = `seat${cog === served ? " served" : ""}${cog === turn.cog ? " asks" : ""}`;
    return [shape("circle", { class: state, cx: x, cy: y, r: 13 }), shape("text", { class: "seat-name", x, y: y + 4 }, String(cog))];
  });
  by("hub").replaceChildren(shape("path", { class: "hand", d: `M60 60L${at(served, 27).join(" ")}` }), ...seats);
  by("hub-words").textContent = `Clock ${turn.clock}${turn.time ? `, ${turn.time}\u00a0us` : ""}: the hub serves cog ${served}.`;
}

const heldRows = run.hub.rows.map(([name, row]) => ({ name, row, cell: element("td", {}) }));
const heldNodes = new Map(heldRows.map(({ name, cell }) => [name, element("tr", {}, element("th", { scope: "row" }, name), cell)]));

function drawHeld(index) {
  for (const { row, cell } of heldRows) {
    const held = heldAt(run.hub, row, index);
    if (cell.textContent !== held) cell.textContent = held;
  }
  by("values").querySelector(".touched")?.classList.remove("touched");
  const touched = heldNodes.get(run.hub.shown[index]?.name);
  if (!touched) return;
  touched.classList.add("touched");
  keepInSight(by("held"), touched);
}

// ---- The list of turns, of which only the rows in sight are made

let rows = indexes;

function rowOf(index, position) {
  const turn = turns[index];
  const place = turn.place ? `${turn.place.file.split("/").pop()}:${turn.place.line}` : "";
  const words = { number: index + 1, clock: turn.clock, cog: `cog ${turn.cog}`, does: turn.does, place };
  const parts = Object.entries(words).map(([name, word]) => element("span", { class: name }, String(word)));
  const row = element("button", { class: `row ${turn.kind}`, type: "button", tabindex: -1, "data-turn": index + 1 }, ...parts);
  row.style.top = `${position * ROW_HEIGHT}px`;
  if (index === chosen.turn) row.setAttribute("aria-current", "true");
  row.addEventListener("click", () => chooseTurn(index));
  return row;
}

function drawList() {
  const list = by("list");
  const first = Math.max(0, Math.floor(list.scrollTop / ROW_HEIGHT) - 5);
  const last = Math.min(rows.length, first + Math.ceil(list.clientHeight / ROW_HEIGHT) + 10);
  by("rows").style.height = `${rows.length * ROW_HEIGHT}px`;
  by("rows").replaceChildren(...rows.slice(first, last).map((index, k) => rowOf(index, first + k)));
}

function scrollToTurn(index) {
  const list = by("list");
  const top = (countUpTo(rows, (it) => it, index) - 1) * ROW_HEIGHT;
  if (top < list.scrollTop || top + ROW_HEIGHT > list.scrollTop + list.clientHeight) list.scrollTop = Math.max(0, top - list.clientHeight / 2);
}

// ---- The source

const drawn = { file: null, first: 0, last: 0 };

/** Shows the lines of a file about a line. */
function drawLines(file, line) {
  if (drawn.file === file && line > drawn.first && line <= drawn.last) return;
  const lines = run.sources.get(file);
  drawn.file = file;
  drawn.first = Math.max(0, line - LINES_AROUND);
  drawn.last = Math.min(lines.length, line + LINES_AROUND);
  const shown = lines.slice(drawn.first, drawn.last).map((text, k) => {
    const number = drawn.first + k + 1;
    return element("div", { class: "line", "data-line": number }, element("span", { class: "number" }, String(number)), element("code", {}, text));
  });
  by("source").replaceChildren(...shown);
}

function drawSource(place) {
  by("source").querySelector(".here")?.classList.remove("here");
  if (!place) {
    by("source-name").textContent = "No line of a source is told for this turn.";
    return;
  }
  by("source-name").textContent = `${place.file}, line ${place.line}${place.method ? `, in ${place.method}` : ""}`;
  drawLines(place.file, place.line);
  const source = by("source");
  const here = source.querySelector(`[data-line="${place.line}"]`);
  if (!here) return;
  here.classList.add("here");
  keepInSight(source, here);
}

// ---- Choosing

let linking = 0;

/** Writes the link to the chosen turn once stepping has paused: a browser takes only some a second. */
function linkLater() {
  clearTimeout(linking);
  linking = setTimeout(() => history.replaceState(null, "", `#turn=${chosen.turn + 1}`), 200);
}

function chooseTurn(index) {
  if (index < 0 || index >= turns.length) return;
  const turn = turns[index];
  const width = seen.to - seen.from;
  chosen.turn = index;
  if (turn.clock < seen.from || turn.clock > seen.to) look(turn.clock - width / 2, width);
  else drawCursor();
  by("here").textContent = `Turn ${index + 1} of ${turns.length}: ${turn.line}`;
  drawHub(turn);
  drawSource(turn.place);
  drawHeld(index);
  scrollToTurn(index);
  drawList();
  linkLater();
}

function markChosen(key, value) {
  for (const node of by("chart").querySelectorAll(`[data-${key}]`)) {
    const isChosen = value !== null && Number(node.dataset[key]) === value;
    node.classList.toggle("chosen", isChosen);
    if (node.hasAttribute("aria-pressed")) node.setAttribute("aria-pressed", String(isChosen));
  }
}

/** Chooses a cog, whose turns the list then shows alone, or none. */
function chooseCog(cog) {
  chosen.cog = cog;
  by("one-cog").value = cog === null ? "" : String(cog);
  markChosen("cog", cog);
  rows = cog === null ? indexes : indexes.filter((index) => turns[index].cog === cog);
  if (chosen.turn >= 0) scrollToTurn(chosen.turn);
  drawList();
}

/** Chooses a pin, or none where it was chosen. */
function choosePin(pin) {
  chosen.pin = chosen.pin === pin ? null : pin;
  markChosen("pin", chosen.pin);
}

/** The next turn, or the one before: of all, or of one cog alone. */
function step(way, cog) {
  let index = chosen.turn + way;
  while (index >= 0 && index < turns.length && cog !== null && turns[index].cog !== cog) index += way;
  chooseTurn(index);
}

const ownCog = () => chosen.cog ?? turns[chosen.turn]?.cog ?? null;

const KEYS = {
  ArrowRight: () => step(1, null),
  ArrowLeft: () => step(-1, null),
  ArrowDown: () => step(1, ownCog()),
  ArrowUp: () => step(-1, ownCog()),
  Home: () => chooseTurn(0),
  End: () => chooseTurn(turns.length - 1),
  "+": () => zoom(2),
  "-": () => zoom(0.5),
  0: () => look(span.from, span.to - span.from),
};

function onKey(event) {
  const act = KEYS[event.key];
  if (!act || event.ctrlKey || event.altKey || event.metaKey || event.target.closest("select")) return;
  event.preventDefault();
  act();
}

/** The turn at a point of the chart: the nearest one of the cog whose lane is there, or of all beside the lanes. */
function turnAt(x, y) {
  const cog = Math.floor((y - AXIS_HEIGHT) / LANE_HEIGHT);
  const clock = seen.from + (x - LABEL_WIDTH) / scale();
  const own = cog >= 0 && cog < COGS ? indexes.filter((index) => turns[index].cog === cog) : indexes;
  const count = countUpTo(own, (index) => turns[index].clock, clock);
  const [left, right] = [own[count - 1] ?? own[count] ?? -1, own[count] ?? own[count - 1] ?? -1];
  return left >= 0 && clock - turns[left].clock <= turns[right].clock - clock ? left : right;
}

function listenToChart() {
  const chart = by("chart");
  const xAt = (event) => event.clientX - chart.getBoundingClientRect().left;
  let drag = null;
  const onWheel = (event) => {
    event.preventDefault();
    const along = event.shiftKey ? event.deltaY || event.deltaX : event.deltaX;
    if (event.shiftKey || Math.abs(event.deltaX) > Math.abs(event.deltaY)) look(seen.from + along / scale(), seen.to - seen.from);
    else zoom(event.deltaY < 0 ? 1.25 : 0.8, seen.from + (xAt(event) - LABEL_WIDTH) / scale());
  };
  chart.addEventListener("wheel", onWheel, { passive: false });
  chart.addEventListener("pointerdown", (event) => {
    drag = { x: event.clientX, from: seen.from, moved: false };
  });
  chart.addEventListener("pointermove", (event) => {
    if (!drag || event.buttons === 0) return;
    const far = event.clientX - drag.x;
    if (!drag.moved && Math.abs(far) > 4) chart.setPointerCapture(event.pointerId);
    drag.moved = drag.moved || Math.abs(far) > 4;
    if (drag.moved) look(drag.from - far / scale(), seen.to - seen.from);
  });
  chart.addEventListener("click", (event) => {
    const isDragged = drag && drag.moved;
    drag = null;
    if (!isDragged && xAt(event) > LABEL_WIDTH) chooseTurn(turnAt(xAt(event), event.clientY - chart.getBoundingClientRect().top));
  });
}

function listen() {
  const buttons = { back: "ArrowLeft", next: "ArrowRight", "cog-back": "ArrowUp", "cog-next": "ArrowDown", nearer: "+", farther: "-", whole: "0" };
  for (const [id, key] of Object.entries(buttons)) by(id).addEventListener("click", KEYS[key]);
  by("one-cog").addEventListener("change", (event) => chooseCog(event.target.value === "" ? null : Number(event.target.value)));
  by("list").addEventListener("scroll", drawList);
  document.addEventListener("keydown", onKey);
  window.addEventListener("hashchange", openLink);
  window.addEventListener("resize", () => {
    drawSeen();
    if (chosen.turn >= 0) scrollToTurn(chosen.turn);
    drawList();
  });
  listenToChart();
}

/** Opens the turn that the address names, else the first one. */
function openLink() {
  const found = /^#turn=(\d+)$/.exec(location.hash);
  const wanted = found ? Math.min(Math.max(Number(found[1]), 1), turns.length) - 1 : 0;
  if (wanted !== chosen.turn) chooseTurn(wanted);
}

document.title = by("file").textContent = textsOf("file")[0];
by("values").replaceChildren(...heldNodes.values());
by("ends").replaceChildren(...run.ends.map((line) => element("li", {}, line)));
makeChart();
by("list").style.setProperty("--turn", `${String(turns.length).length}ch`);
by("list").style.setProperty("--clock", `${String(span.to).length}ch`);
if (run.sources.size) drawLines([...run.sources.keys()][0], 1);
drawSeen();
listen();
drawList();
openLink();
"##;
