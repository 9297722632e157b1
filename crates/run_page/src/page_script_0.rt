//! The page behind its data, part 0. Written by tools/gate/page_constants.

/// The page behind its data, part 0.
pub const TEXT: &str = r#"</script>
<script>
'use strict';
const run = JSON.parse(document.getElementById('run').textContent);
const TICKS = 65536; // a time is in parts of a second
const FIRST = (run.window?.records ?? 0) + 1; // the page's first record
const END = { record: FIRST + run.figures.records, time: run.end };
const RESULTS = [[32, 'fail'], [16, 'error'], [8, 'stale'], [4, 'pass'], [2, 'none'], [1, 'absent']];
const STATES = [[1, 'active'], [2, 'passive'], [4, 'disabled'], [8, 'off']];
const RESULT_WORDS = { none: 'no result yet', absent: 'no such rule in force' };
const LEVELS = ['critical', 'error', 'info', 'debug'];
const SHAPES = { request: '▼', critical: '▲', error: '■', info: '●', debug: '○', command: '◆' };
const wordsOf = (bits, table) => table.filter(([bit]) => bits & bit).map(([, word]) => word);
const ruleIn = (text, number) => (text === null || text === undefined ? undefined : run.texts[text]?.rules[number]);
const rulesOf = number => run.texts.map(text => text.rules[number]).filter(rule => rule);
const placeOf = ([record, time]) => ({ record, time });
function nameOf(number) {
const names = [...new Set(rulesOf(number).map(rule => rule.name))];
return names.length ? names.join(' / ') : `rule ${number}`;
}
function whoOf({ rule, one_of, text }) {
if (rule !== null) return nameIn(text, rule);
if (!one_of.length) return 'unknown rule';
return `one of ${one_of.map(each => (each === null ? 'others' : nameIn(text, each))).join(', ')}`;
}
const nameIn = (text, number) => ruleIn(text, number)?.name ?? (text === null ? `rule ${number} of tables of no text` : nameOf(number));
const textName = text => {
const file = run.files.filter(each => each.role === 'rules')[text];
return file ? `text ${text} (${file.name.split('/').at(-1)})` : `text ${text}`;
};
function withEnds(list, end = END) {
return list.map((entry, index) => ({
entry, from: placeOf(entry), to: index + 1 < list.length ? placeOf(list[index + 1]) : end,
}));
}
const disabledParts = withEnds(run.mode).filter(({ entry }) => entry[2] === 'disabled');
const gapsOf = rule => run.sampling[rule].gaps.map(([record, time, last, end, count]) => (
{ from: { record, time }, to: last >= END.record ? END : { record: last, time: end }, count }));
const isBefore = (one, other) => one.record < other.record || (one.record === other.record && one.time < other.time);
const isWithin = ({ from, to }, part) => !isBefore(from, part.from) && !isBefore(part.to, to);
function cut(span, parts) {
const cuts = parts.flatMap(({ from, to }) => [from, to]).filter(place => span.changes === 1 && isBefore(span.from, place) && isBefore(place, span.to))
.sort((one, other) => (isBefore(one, other) ? -1 : 1));
return [span.from, ...cuts].map((from, index) => ({ ...span, from, to: cuts[index] ?? span.to }));
}
function pauseOf(span, gaps) {
const { results, states } = span;
if (results === 1) return '';
if (states && !(states & 3)) return states === 4 ? 'disabled' : states === 8 ? 'off for good' : 'not sampled';
if (disabledParts.some(part => isWithin(span, part))) return 'LC disabled';
const gap = gaps.find(part => isWithin(span, part));
return gap ? gap.count > 1 ? 'hardly sampled' : 'no sample' : '';
}
function spansOf(rule) {
const gaps = gapsOf(rule);
return withEnds(run.lanes[rule]).map(({ entry, from, to }) => ({
from, to, results: entry[2], states: entry[3], changes: entry.length > 4 ? entry[4] : 1,
})).flatMap(span => cut(span, [...disabledParts, ...gaps])).map(span => ({ ...span, pause: pauseOf(span, gaps) }));
}
const entryAt = (list, record) => list[list.findLastIndex(entry => entry[0] <= record)];
function textAt(record) {
const entry = entryAt(run.tables, record);
return entry?.[3] === 'untold' ? undefined : entry?.[2] ?? null;
}
function numberOf(text) {
return text.startsWith('-') ? -Number(text.slice(1)) : Number(text);
}
const hexFields = new Set(run.texts.flatMap(text => text.rules).flatMap(rule => rule.comparisons)
.filter(([, , number]) => /0x/.test(number)).map(([field]) => field));
function valueText(field, value) {
if (value === null) return 'packet too short';
if (!hexFields.has(field)) return String(value);
return (value < 0 ? '-' : '') + '0x' + Math.abs(value).toString(16).toUpperCase();
}
const sent = run.requests.map(request => ({ kind: 'request', request, packet: request.packet, rule: request.rule, at: request }))
.concat(run.events.map(([packet, record, time, rule, sender, id, level, says]) => (
{ kind: level, packet, rule, sender, id, says, at: { record, time } })))
.sort((one, other) => one.packet - other.packet);
const commands = run.commands.map(([record, time, says]) => ({ kind: 'command', rule: null, says, at: { record, time } }));
const whatOf = item => (item.request
? `sequence ${item.request.sequence}, count ${item.request.count}` : `${item.sender} ${item.id}: ${item.says}`);
function decimal(time) {
const size = Math.abs(time);
const part = String(Math.floor(size % TICKS * 100000 / TICKS)).padStart(5, '0').replace(/0+$/, '');
return (time < 0 ? '-' : '') + Math.floor(size / TICKS) + (part ? '.' + part : '');
}
const secondOf = time => decimal(run.start + time);
const sinceStart = time => (time < 0 ? '' : '+') + decimal(time);
const counted = (count, word) => `${count.toLocaleString('en')} ${word}${count === 1 ? '' : 's'}`;
const listed = words => words.join(', ').replace(/, ([^,]*)$/, ' and $1');
function ordinal(number) {
const ending = Math.floor(number / 10) % 10 === 1 ? 'th' : ['th', 'st', 'nd', 'rd'][number % 10] ?? 'th';
return number + ending;
}
function instantOf(time) {
if (run.epoch === null) return '';
const ticks = run.start + time;
const whole = new Date(Date.parse(run.epoch) + Math.floor(ticks / TICKS) * 1000);
if (Number.isNaN(whole.getTime())) return '';
const [, part] = decimal(ticks).split('.');
return whole.toISOString().slice(0, 19) + (part ? '.' + part : '') + 'Z';
}
function when(place) {
const instant = instantOf(place.time);
return `${sinceStart(place.time)} s (second ${secondOf(place.time)}${instant && ', ' + instant})`;
}
const near = place => `${sinceStart(place.time)} s, record ${place.record}`;
const at = place => when(place).replace(/\)$/, `, record ${place.record})`);
function during({ from, to }, words = at) {
if (to === END) return `from ${words(from)} to the end`;
if (to.record === from.record) return `within record ${from.record}, ${words(from)}`;
return `from ${words(from)} to ${words(to)}`;
}
function resultWords(bits) {
return wordsOf(bits, RESULTS).map(word => RESULT_WORDS[word] ?? word);
}
const stateWords = bits => wordsOf(bits, STATES).map(word => (word === 'off' ? 'off for good' : word)).join(' and ');
function spanName(rule, span, words = at) {
const [worst, ...others] = resultWords(span.results);
const states = stateWords(span.states);
const also = others.length ? `, also ${others.join(', ')}` : '';
const changes = span.changes > 1 ? `, ${span.changes} changes` : '';
const pause = span.pause === 'no sample' ? 'no sample came though it was due, last result ' : span.pause === 'hardly sampled' ? 'several times no sample came though it was due, last result ' : span.pause === 'LC disabled' ? 'not sampled while the Limit Checker is disabled, last result ' : span.pause ? 'not sampled, last result ' : '';
return `${nameOf(rule)}: ${pause}${span.changes > 1 ? 'worst ' : ''}${worst}${also}${states && ', ' + states}${changes}, ${during(span, words)}`;
}
function itemName(item, words = at) {
if (item.kind === 'command') return `command ${item.says}, ${words(item.at)}`;
const what = item.request ? `request of sequence ${item.request.sequence}` : `${item.kind} event ${whatOf(item)}`;
const rule = item.request ? ` of ${whoOf(item.request)}` : item.rule === null ? '' : ` of ${nameIn(textAt(item.at.record), item.rule)}`;
return `${what}${rule}, ${words(item.at)}, packet ${item.packet}`;
}
function knownPlaces() {
const lists = [...run.lanes, ...run.fields.map(field => field.values), run.tables, run.mode, run.commands, run.events.map(event => event.slice(1)),
run.requests.map(({ record, time }) => [record, time])];
return lists.flat().map(placeOf).concat(END).sort((one, other) => one.record - other.record);
}
function leftOut() {
const lists = ['requests', 'events', 'commands'].filter(kind => run[`${kind}_left_out`]);
const known = lists.length ? knownPlaces() : [];
return lists.map(kind => {
const [count, first, last] = run[`${kind}_left_out`];
return { kind, count, first, last, from: known.findLast(place => place.record <= first), to: known.find(place => place.record >= last) };
});
}
const stretches = leftOut();
const leftOutWords = ({ kind, count, first, last }) => `${count.toLocaleString('en')} ${kind} of records ${first} to ${last} are not on this page`;
const quoted = name => (/^[\w./:@%+,-]+$/.test(name) ? name : `'${name.replaceAll("'", "'\\''")}'`);
function commandFor(from, to) {
const names = role => run.files.filter(file => file.role === role).map(file => quoted(file.name));
const [low, high] = [Math.floor((run.start + from.time) / TICKS), Math.floor((run.start + to.time) / TICKS) + 1];
return ['flight_tools report', ...(run.epoch === null ? [] : ['--epoch', run.epoch]), '--from', low, '--until', high,
'--schedule', ...names('schedule'), '--stream', ...names('stream'), '--out', 'PART.html', ...names('rules')].join(' ');
}
function moreAbout(from, to) {
if (!run.ordered) return [make('p', 'soft', 'Times go back in this stream, so no page of a part can be made.')];
const line = make('p', '', 'This makes a page of this part: ');
line.append(make('code', 'command_line', commandFor(from, to)));
return [line];
}
function showStretch(stretch, row) {
const [low, high] = ['low', 'high'].map(end => view[end] * TICKS);
const inside = view.unit !== 'record' && stretch.from.time < high && stretch.to.time > low;
const part = inside ? [{ time: Math.max(low, stretch.from.time) }, { time: Math.min(high, stretch.to.time) }] : [stretch.from, stretch.to];
showAfter(row, `${stretch.kind} left out`, makeBroken('p', '', `${leftOutWords(stretch)}, between ${when(stretch.from)} and ${when(stretch.to)}. `
+ 'A page has the first and the last 300 requests, 300 commands and 500 events of its part: zoom in for a shorter one.'), ...moreAbout(...part));
}
function hatches(kinds, width) {
const parts = [];
for (const { kind, from, to } of stretches) {
const last = parts.at(-1);
if (!kinds.includes(kind)) continue;
if (last && from.record <= last.to.record && last.from.record <= to.record) {
Object.assign(last, { from: from.record < last.from.record ? from : last.from, to: to.record > last.to.record ? to : last.to });
} else parts.push({ from, to });
}
return parts.filter(({ from, to }) => shareOf(to) >= 0 && shareOf(from) <= 1).map(({ from, to }) => {
const [left, right] = [from, to].map(place => Math.max(0, Math.min(1, shareOf(place))));
const hatch = make('span', 'hatch', undefined, { 'aria-hidden': 'true' });
hatch.style.left = left * 100 + '%';
hatch.style.width = Math.max(2, (right - left) * width) / width * 100 + '%';
return hatch;
});
}
const byId = id => document.getElementById(id);
function make(tag, className, text, attributes = {}) {
const element = document.createElement(tag);
if (className) element.className = className;
if (text !== undefined) element.textContent = text;
for (const name of Object.keys(attributes)) element.setAttribute(name, attributes[name]);
return element;
}
function makeBroken(tag, className, text, attributes) {
const element = make(tag, className, undefined, attributes);
text.split(/(\d{4}-\d\d-\d\dT[\d:.]+Z)/).forEach((part, index) => {
const pieces = part.split(/(?<=[_/])(?=\w)|(?<=\.)(?=[A-Za-z])/).flatMap(piece => piece.split(/([A-Za-z0-9]{16})(?=[A-Za-z0-9])/)).filter(piece => piece);
element.append(...(index % 2 ? [make('span', 'whole', part)] : pieces.flatMap(piece => [make('wbr'), piece]).slice(1)));
});
return element;
}
function makeButton(className, text, name, click) {
const button = make('button', className, text, { type: 'button', 'aria-label': name, title: name, tabindex: -1 });
button.addEventListener('click', click);
return button;
}
const pen = document.createElement('canvas').getContext('2d');
const family = getComputedStyle(document.body).fontFamily;
function widthOf(text, size, weight = 400) {
pen.font = `${weight} ${size}px ${family}`;
return pen.measureText(text).width;
}
const fitting = (texts, room, size, weight) => texts.find(text => widthOf(text, size, weight) <= room) ?? '';
function walkable(track) {
track.addEventListener('keydown', event => {
const step = { ArrowLeft: -1, ArrowRight: 1, Home: -Infinity, End: Infinity }[event.key];
const buttons = stopsOf(track);
const now = buttons.indexOf(document.activeElement);
if (step === undefined || now < 0) return;
event.preventDefault();
event.stopPropagation();
if (!buttons[now + step] && Number.isFinite(step)) pan(step / 2);
const next = buttons[Math.max(0, Math.min(buttons.length - 1, now + step))];
setStop(track, next);
next.focus({ preventScroll: true });
});
}
const TARGET = 24; // px
function tappable(track, open) {
track.addEventListener('click', event => {
if (!event.detail || event.target.closest('.mark') || !track.drawn) return;
const box = track.getBoundingClientRect();
const [x, y] = [event.clientX - box.left, event.clientY - box.top];
const near = track.drawn.filter(({ left, right, top }) => {
const room = right - left < TARGET ? TARGET / 2 : 0;
return left - room <= x && x <= right + room && (top === undefined || Math.abs(top - y) <= TARGET / 2);
});
if (near.length) open(near);
});
}
const stopsOf = track => [...track.querySelectorAll('button')].sort((one, other) => one.place - other.place);
function setStop(track, button) {
for (const other of track.querySelectorAll('button[tabindex="0"]')) other.tabIndex = -1;
if (button) button.tabIndex = 0;
}
function redraw(track, elements) {
const held = track.contains(document.activeElement) ? document.activeElement.place : undefined;
track.replaceChildren(...elements);
const buttons = stopsOf(track);
const stop = buttons.filter(button => held !== undefined && button.place <= held).at(-1) ?? buttons[0];
setStop(track, stop);
if (held !== undefined && stop) stop.focus({ preventScroll: true });
}
const UNITS = { start: 's after the start', second: 'second', utc: 'UTC', record: 'record' };
const view = { unit: run.ordered ? 'start' : 'record', low: 0, high: 1 };
const drawings = []; // what is drawn anew where the window moves
let frame = 0;
function positionOf(place) {
if (place === END) return wholeRun()[1];
return view.unit === 'record' ? place.record : place.time / TICKS;
}
const shareOf = place => (positionOf(place) - view.low) / (view.high - view.low);
function wholeRun() {
if (view.unit === 'record') return [FIRST, Math.max(FIRST + 1, END.record)];
const end = END.time / TICKS;
return [0, end > 0 ? end * 1.02 : 1];
}
function draw() {
for (const drawing of drawings) drawing();
}
function drawSoon() {
cancelAnimationFrame(frame);
frame = requestAnimationFrame(draw);
}
function moveTo(low, high) {
const [first, last] = wholeRun();
const least = Math.min(last - first, view.unit === 'record' ? 4 : 16 / TICKS);
const size = Math.min(last - first, Math.max(least, high - low));
const isWhole = size > (last - first) * 0.999999; // sums of fractions are a little off
view.low = isWhole ? first : Math.max(first, Math.min(last - size, low));
view.high = isWhole ? last : view.low + size;
drawSoon();
}
const showAll = () => moveTo(...wholeRun());
function zoom(factor, centre = (view.low + view.high) / 2) {
moveTo(centre - (centre - view.low) * factor, centre + (view.high - centre) * factor);
}
function pan(share) {
const step = (view.high - view.low) * share;
moveTo(view.low + step, view.high + step);
}
function bring(place) {
const share = shareOf(place);
if (share >= 0 && share <= 0.98) return;
const half = (view.high - view.low) / 2;
moveTo(positionOf(place) - half, positionOf(place) + half);
}
function zoomTo(from, to) {
const [low, high] = [positionOf(from), positionOf(to)];
const room = (high - low) * 0.15 || (view.unit === 'record' ? 2 : 8 / TICKS);
moveTo(low - room, high + room);
}
function changeUnit(unit) {
const same = (unit === 'record') === (view.unit === 'record');
view.unit = unit;
if (!same) [view.low, view.high] = wholeRun();
drawSoon();
}
function moveByKey(event) {
if (/^(INPUT|SELECT|TEXTAREA)$/.test(event.target.tagName) || event.ctrlKey || event.metaKey || event.altKey) return;
const move = {
'+': () => zoom(0.6), '=': () => zoom(0.6), '-': () => zoom(1 / 0.6), 0: showAll,
ArrowLeft: () => pan(-0.25), ArrowRight: () => pan(0.25), Escape: closePanel,
}[event.key];
if (!move) return;
move();
event.preventDefault();
}
function zoomByWheel(event) {
const track = event.target.closest('.track');
if (!track || !(event.ctrlKey || event.shiftKey || track.closest('#axis'))) return;
event.preventDefault();
const box = track.getBoundingClientRect();
const centre = view.low + (event.clientX - box.left) / box.width * (view.high - view.low);
zoom((event.deltaY || event.deltaX) > 0 ? 1.25 : 0.8, centre);
}
const pointers = new Map(); // where each pointer is
let grip = null; // how the window was when the pointers came down
let dragged = false; // a drag's end is no click
function takeGrip(track) {
const box = track.getBoundingClientRect();
grip = { track, left: box.left, width: box.width, low: view.low, high: view.high, at: [...pointers.values()] };
}
const gripped = x => grip.low + (x - grip.left) / grip.width * (grip.high - grip.low);
function pointerDown(event) {
const track = event.target.closest('.track');
if (!track || event.button > 0) return;
pointers.set(event.pointerId, event.clientX);
dragged = false;
takeGrip(track);
}
function pointerMove(event) {
if (!grip || !pointers.has(event.pointerId)) return;
pointers.set(event.pointerId, event.clientX);
const now = [...pointers.values()];
if (now.length === 1 && Math.abs(now[0] - grip.at[0]) <= 4 && !dragged) return;
dragged = true;
if (now.length === 1) {
const step = gripped(grip.at[0]) - gripped(now[0]);
moveTo(grip.low + step, grip.high + step);
} else {
pinch(now);
}
}
function pinch(now) {
const [one, other] = grip.at.map(gripped);
const apart = now[1] - now[0];
if (Math.abs(apart) < 8) return;
const scale = (other - one) / apart;
if (!(scale > 0)) return;
const low = one - (now[0] - grip.left) * scale;
moveTo(low, low + grip.width * scale);
}
function pointerUp(event) {
if (!pointers.delete(event.pointerId)) return;
if (pointers.size && grip) takeGrip(grip.track);
else grip = null;
}
function listenToPointers(lanes) {
lanes.addEventListener('pointerdown', pointerDown);
addEventListener('pointermove', pointerMove);
addEventListener('pointerup', pointerUp);
addEventListener('pointercancel', pointerUp);
lanes.addEventListener('click', event => {
if (dragged && event.detail > 0) event.stopPropagation();
dragged = false;
}, true);
lanes.addEventListener('wheel', zoomByWheel, { passive: false });
}
const MINUTE = 60, HOUR = 3600, DAY = 86400;
const CLOCK_STEPS = [1, 2, 5, 10, 15, 30, MINUTE, 2 * MINUTE, 5 * MINUTE, 10 * MINUTE, 15 * MINUTE, 30 * MINUTE,
HOUR, 2 * HOUR, 3 * HOUR, 6 * HOUR, 12 * HOUR, DAY];
"#;
