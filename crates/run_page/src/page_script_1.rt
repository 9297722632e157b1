//! The page behind its data, part 1. Written by tools/gate/page_constants.

/// The page behind its data, part 1.
pub const TEXT: &str = r#"function stepFrom(least) {
if (view.unit === 'record') least = Math.max(1, least);
if (view.unit === 'utc' && least > DAY) return DAY * Math.ceil(least / DAY);
if (view.unit === 'utc' && least > 0.5) return CLOCK_STEPS.find(step => step >= least);
const power = 10 ** Math.floor(Math.log10(least));
return [1, 2, 5, 10].map(times => times * power).find(step => step >= least * 0.999);
}
function originOf() {
if (view.unit === 'second') return run.start / TICKS;
if (view.unit === 'utc') return run.start / TICKS + Date.parse(run.epoch) / 1000;
return 0;
}
function numberText(number, step) {
const digits = Math.max(0, Math.min(5, -Math.floor(Math.log10(step) + 1e-9)));
if (view.unit === 'utc') return clockText(number, step, digits);
return (view.unit === 'start' ? '+' : '') + number.toFixed(view.unit === 'record' ? 0 : digits);
}
function clockText(number, step, digits) {
const whole = Math.floor(number + 1e-6);
const instant = new Date(whole * 1000);
if (Number.isNaN(instant.getTime())) return '';
const [day, clock] = instant.toISOString().slice(0, 19).split('T');
if (step >= DAY) return day;
if (number % DAY === 0) return day.slice(5) + ' 00:00';
if (step >= MINUTE) return clock.slice(0, 5);
return clock + (digits ? (number - whole).toFixed(digits).slice(1) : '');
}
function numbersBy(step) {
const origin = originOf();
const [low, high] = [view.low + origin, view.high + origin];
const numbers = [];
for (let count = Math.ceil(low / step - 1e-9); count * step <= high; count += 1) {
numbers.push({ share: (count * step - low) / (high - low), text: numberText(count * step, step) });
}
return numbers;
}
function numbersFor(width) {
const size = view.high - view.low;
let step = stepFrom(size / Math.max(1, width / 40));
for (let tries = 0; tries < 20; tries += 1) {
const numbers = numbersBy(step);
if (numbers.every(({ text }) => widthOf(text, 11.5) + 16 <= step / size * width)) return numbers;
step = stepFrom(step * 1.01);
}
return [];
}
function axisName() {
if (view.unit === 'start') return `s after ${secondOf(0)}`;
if (view.unit === 'utc') return `UTC, ${instantOf(Math.round(view.low * TICKS)).slice(0, 10)}`;
return UNITS[view.unit];
}
function drawAxis(axis) {
const width = axis.track.clientWidth;
axis.track.replaceChildren(...numbersFor(width).map(({ share, text }) => {
const fits = (1 - share) * width > widthOf(text, 11.5) + 5;
const tick = make('div', 'tick', fits ? text : '');
tick.style.left = share * 100 + '%';
return tick;
}));
axis.name.textContent = axisName();
axis.track.setAttribute('aria-valuenow', view.low);
const ends = [view.low, view.high].map(end => (view.unit === 'record' ? Math.floor(end) : decimal(Math.round(end * TICKS))));
axis.track.setAttribute('aria-valuetext', `from ${ends[0]} to ${ends[1]}${view.unit === 'record' ? '' : ' s after the start'}`);
}
function makeAxis() {
const axis = makeRow('', false);
axis.row.id = 'axis';
axis.track.tabIndex = 0;
axis.track.setAttribute('role', 'slider');
axis.track.setAttribute('aria-label', 'Axis: arrows move, plus and minus zoom, 0 is the whole run');
drawings.push(() => drawAxis(axis));
}
function labelsOf(items) {
return Object.keys(SHAPES).map(kind => [kind, items.filter(item => item.kind === kind)]).filter(([, own]) => own.length).map(([kind, own]) => {
const [item] = own;
const what = own.length > 1 ? `${own.length}×` : item.request?.sequence ?? item.id ?? item.says.split(' ')[0];
return { kind, text: `${SHAPES[kind]} ${what}` };
});
}
function grouped(items, first, last, width) {
const labels = labelsOf(items);
const room = Math.max(TARGET, Math.ceil(widthOf(labels.map(({ text }) => text).join(' '), 12, 700)) + 8);
const left = Math.max(0, Math.min(first - 6, width - room));
return { items, first, last, labels, left, right: left + room };
}
function groupsOf(items, width) {
const groups = [];
for (const item of items) {
const share = shareOf(item.at);
if (share < 0 || share > 1) continue;
let group = grouped([item], share * width, share * width, width);
while (groups.length && groups.at(-1).right + 4 > group.left) {
const before = groups.pop();
group = grouped(before.items.concat(group.items), before.first, group.last, width);
}
groups.push(group);
}
return groups;
}
function longTexts(items) {
if (items[0].kind === 'request') return [items.map(({ request }) => `sequence ${request.sequence}`).join('; ')];
if (items[0].kind !== 'command') return [items.map(({ id, says }) => `${id} ${says}`).join('; ')];
const words = [...new Set(items.map(({ says }) => says.split(' ')[0]))].join(', ');
return [items.map(({ says }) => says).join('; '), items.length === 1 ? words : `${items.length}× ${words}`];
}
function lengthen(groups, width, kinds) {
const hatched = stretches.filter(({ kind }) => kinds.includes(kind)).map(({ from }) => shareOf(from) * width);
groups.forEach((group, index) => {
if (group.labels.length > 1) return;
const [{ kind }] = group.labels;
const end = Math.min(groups[index + 1]?.left ?? width, ...hatched.filter(left => left >= group.last));
const text = fitting(longTexts(group.items).map(words => `${SHAPES[kind]} ${words}`), end - group.left - 12, 12, 700);
if (text) group.labels = [{ kind, text }];
});
return groups;
}
function drawGroup(group, width) {
const count = group.items.length;
const name = count === 1 ? itemName(group.items[0])
: `${count} marks: ${group.labels.map(({ text }) => text).join(' ')}, from ${at(group.items[0].at)} to ${at(group.items.at(-1).at)}`;
const mark = makeButton(`mark ${group.labels[0].kind}`, '', name, () => showItems(group.items));
group.labels.forEach(({ kind, text }, index) => mark.append(index ? ' ' : '', make('span', `ink_${kind}`, text)));
mark.style.left = group.left / width * 100 + '%';
mark.place = group.items[0].at.record + 0.5;
const reach = make('span', `reach ink_${group.labels[0].kind}`, undefined, { 'aria-hidden': 'true' });
reach.style.left = Math.min(group.first, width - 2) / width * 100 + '%';
reach.style.width = (group.last - group.first) / width * 100 + '%';
return [mark, reach];
}
const marksOf = (groups, width) => groups.flatMap(group => drawGroup(group, width));
const LEAST = 4; // px: what is narrower is drawn together with its neighbours
const CELL_WORDS = { fail: 'FAIL', error: 'error', stale: 'stale', pass: 'pass', none: 'none', absent: '' };
const LETTERS = { fail: ['F'], error: ['E'], stale: ['S'] };
const lanes = [];
const markRows = {};
function makeRow(label, isButton) {
const row = make('div', 'row');
const name = makeBroken(isButton ? 'button' : 'div', 'name', label, isButton ? { type: 'button', 'aria-expanded': 'false' } : {});
const track = make('div', 'track');
row.append(name, track);
byId('lanes').append(row);
walkable(track);
return { row, name, track };
}
function joined(one, other) {
return {
from: one.from, to: other.to, left: one.left, right: other.right, results: one.results | other.results, states: one.states | other.states,
pause: one.pause === other.pause ? one.pause : '', changes: one.changes + other.changes, parts: one.parts.concat(other.parts),
};
}
function cellsOf(spans, width) {
const cells = [];
for (const span of spans) {
const [from, to] = [shareOf(span.from), shareOf(span.to)];
if (to < 0 || from > 1) continue;
const cell = { ...span, left: Math.max(0, from) * width, right: Math.min(1, to) * width, parts: [span] };
const last = cells.at(-1);
const narrow = each => each.right - each.left < LEAST;
if (last && narrow(last) && narrow(cell)) cells[cells.length - 1] = joined(last, cell);
else cells.push(cell);
}
return cells;
}
function place(element, cell, width) {
const least = cell.results & 32 || cell.changes > 1 ? LEAST : 1;
const left = Math.min(cell.left, width - least);
element.style.left = left / width * 100 + '%';
element.style.width = Math.max(least, cell.right - left) / width * 100 + '%';
element.classList.toggle('slim', cell.right - left < TARGET);
element.place = cell.from.record;
}
function cellTexts(cell, worst, state) {
const word = CELL_WORDS[worst];
if (cell.pause) return [`${cell.pause}, was ${word}`, cell.pause, { 'LC disabled': 'LC off', 'off for good': 'off', disabled: 'D' }[cell.pause] ?? '–'];
return [...(state === 'passive' && word ? [`${word}, passive`, `${word} P`] : []), word, ...(LETTERS[worst] ?? [])];
}
function openCell(lane, cell) {
if (cell.parts.length > 1 || cell.changes > 1) zoomTo(cell.from, cell.to);
showSpan(lane, cell);
}
function drawCell(lane, cell, width) {
const [worst] = wordsOf(cell.results, RESULTS);
const states = wordsOf(cell.states, STATES);
const state = states.length > 1 ? 'mixed' : states[0] ?? '';
const text = fitting(cellTexts(cell, worst, state), cell.right - cell.left - 6, 11, 700);
const classes = `cell ${worst} ${state}${cell.changes > 1 ? ' many' : ''}${cell.results & 4 && worst !== 'pass' ? ' passes' : ''}${cell.pause ? ' paused' : ''}`;
const element = makeButton(classes, text, spanName(lane.rule, cell), event => { if (!event.detail) openCell(lane, cell); });
place(element, cell, width);
return element;
}
function drawLane(lane) {
const width = lane.track.clientWidth || 1;
lane.track.drawn = cellsOf(lane.spans, width);
const cells = lane.track.drawn.map(cell => drawCell(lane, cell, width));
redraw(lane.track, [...hatches(['requests', 'events'], width), ...cells, ...marksOf(groupsOf(lane.marks, width), width)]);
if (lane.plots) lane.plots.forEach(drawPlot);
}
let others = [];
let timer = 0;
const onScreen = new IntersectionObserver(entries => {
for (const { target, isIntersecting } of entries) {
target.lane.seen = isIntersecting;
if (isIntersecting) drawLane(target.lane);
}
}, { rootMargin: '400px' });
function drawLanes() {
const all = document.body.classList.contains('printing');
const shown = lanes.filter(lane => !lane.row.hidden);
shown.filter(lane => lane.seen || all).forEach(drawLane);
others = all ? [] : shown.filter(lane => !lane.seen);
clearTimeout(timer);
timer = setTimeout(drawOthers, 200);
}
function drawOthers() {
others.splice(0, 8).forEach(drawLane);
if (others.length) timer = setTimeout(drawOthers, 20);
}
function makeLane(rule, items) {
const lane = { ...makeRow(nameOf(rule), true), rule, spans: spansOf(rule), items };
const own = new Set(items.filter(item => item.request).map(item => item.request.event));
lane.marks = items.filter(item => !own.has(item.packet));
lane.failed = lane.spans.some(span => span.results & 32);
lane.words = [nameOf(rule), ...rulesOf(rule).map(each => each.condition)].join(' ').toLowerCase();
lane.track.classList.toggle('marked', lane.marks.length > 0 || stretches.some(({ kind }) => kind !== 'commands'));
lane.row.lane = lane;
lane.row.setAttribute('role', 'group');
lane.row.setAttribute('aria-label', nameOf(rule));
lane.name.addEventListener('click', () => openLane(lane, !lane.plots));
tappable(lane.track, cells => openCell(lane, cells.reduce(joined)));
onScreen.observe(lane.row);
lanes.push(lane);
}
function makeBand(label, parts, open) {
const band = makeRow(label, false);
const show = cells => (open ? open(cells[0], band.row) : showAfter(band.row, label, ...cells.map(cell => makeBroken('p', '', cell.name))));
tappable(band.track, show);
drawings.push(() => {
const width = band.track.clientWidth || 1;
band.track.drawn = parts.filter(({ from, to }) => shareOf(to) >= 0 && shareOf(from) <= 1).map(part => {
const [left, right] = [part.from, part.to].map(end => Math.max(0, Math.min(1, shareOf(end))) * width);
return { ...part, left, right, name: `${label}: ${part.says}${open ? '' : ', ' + during(part)}` };
});
redraw(band.track, band.track.drawn.map(cell => {
const text = fitting(cell.texts, cell.right - cell.left - 16, 11, 600);
const element = makeButton(`cell band ${cell.look}`, '', cell.name, event => { if (!event.detail) show([cell]); });
element.append(make('span', '', text));
place(element, cell, width);
return element;
}));
});
}
const MODES = {
active: ['active', 'A'], passive: ['passive', 'P'], disabled: ['disabled', 'D'], absent: ['no Limit Checker', 'no LC', '–'], untold: ['not recorded any more', '?'],
};
function makeBands() {
const how = { none: 'no tables', started: 'since the start', adopted: 'adopted in flight', untold: 'not recorded any more' };
makeBand('tables in force', withEnds(run.tables).map(({ entry: [, , text, way], from, to }) => {
const texts = way in { none: 0, untold: 0 } ? [how[way]] : text === null ? ['tables of no text', 'no text'] : [textName(text), `text ${text}`, `${text}`];
const came = run.window?.records && from.record === FIRST ? 'in force where this part begins' : how[way];
return { from, to, texts, says: came === texts[0] ? texts[0] : `${texts[0]}, ${came}`, look: 'tables' };
}));
makeBand('mode of the checker', withEnds(run.mode).map(({ entry: [, , mode], from, to }) => (
{ from, to, texts: MODES[mode], says: MODES[mode][0], look: `mode_${mode}` })));
for (const stretch of stretches) {
const count = `${stretch.count.toLocaleString('en')} ${stretch.kind}`;
const texts = [`${count} left out`, count, `${stretch.count}`];
makeBand('not on this page', [{ ...stretch, texts, says: leftOutWords(stretch), look: 'hatch' }], showStretch);
}
}
function makeMarks(key, label, items, kinds) {
if (!items.length) return;
const { row, track } = markRows[key] = makeRow(label, false);
track.classList.add('marks_alone');
drawings.push(() => {
const width = track.clientWidth || 1;
redraw(track, [...hatches(kinds, width), ...marksOf(lengthen(groupsOf(items, width), width, kinds), width)]);
});
}
function makeLanes() {
const byRule = new Map();
for (const item of sent) {
if (!byRule.has(item.rule)) byRule.set(item.rule, []);
byRule.get(item.rule).push(item);
}
makeAxis();
makeBands();
makeMarks('commands', 'commands', commands, ['commands']);
makeMarks('others', 'other events', byRule.get(null) ?? [], ['events']);
run.lanes.forEach((list, rule) => makeLane(rule, byRule.get(rule) ?? []));
byId('lanes').append(...[...lanes].sort((one, other) => other.failed - one.failed).map(lane => lane.row));
drawings.push(drawLanes);
}
const COMPARE = {
'<': (value, limit) => value < limit, '<=': (value, limit) => value <= limit, '!=': (value, limit) => value !== limit,
'==': (value, limit) => value === limit, '>=': (value, limit) => value >= limit, '>': (value, limit) => value > limit,
};
function treeOf(rule) {
let next = 0;
const read = () => {
const item = rule.tree[next];
next += 1;
if (typeof item === 'number') return { comparison: rule.comparisons[item] };
return { word: item, parts: item === 'not' ? [read()] : [read(), read()] };
};
return read();
}
function partAbout(tree, field) {
if (tree.comparison) return tree.comparison[0] === field ? tree : null;
const parts = tree.parts.map(part => partAbout(part, field)).filter(part => part);
if (parts.length === 0) return null;
return parts.length === 1 && tree.word !== 'not' ? parts[0] : { word: tree.word, parts };
}
function holds(tree, value) {
if (tree.comparison) return COMPARE[tree.comparison[1]](value, numberOf(tree.comparison[2]));
const truths = tree.parts.map(part => holds(part, value));
switch (tree.word) {
case 'not': return !truths[0];
case 'and': return truths[0] && truths[1];
case 'or': return truths[0] || truths[1];
default: return truths[0] !== truths[1];
}
}
function failingRanges(rule, field) {
const part = partAbout(treeOf(rule), field);
const limits = limitsOf(rule, field).map(([, number]) => numberOf(number));
const cuts = [...new Set(limits.flatMap(limit => [limit, limit + 1]))].sort((one, other) => one - other);
const ranges = [];
[-Infinity, ...cuts].forEach((low, index) => {
const high = index < cuts.length ? cuts[index] - 1 : Infinity;
if (!holds(part, high === Infinity ? low : high)) return;
const last = ranges.at(-1);
if (last && last[1] === low - 1) last[1] = high;
else ranges.push([low, high]);
});
return ranges;
}
function limitsOf(rule, field) {
const own = rule.comparisons.filter(([compared]) => compared === field).map(([, operator, number]) => `${operator} ${number}`);
return [...new Set(own)].map(text => text.split(' '));
}
const fieldsOf = rule => [...new Set(rule.comparisons.map(([field]) => field))];
const isAlone = rule => fieldsOf(rule).length === 1;
const HEIGHT = 92, EDGE = 8; // px
function limitPartsOf(rule, field) {
const parts = [];
for (const { entry, from, to } of withEnds(run.tables)) {
const inForce = ruleIn(entry[2], rule);
if (!inForce || !fieldsOf(inForce).includes(field)) continue;
const last = parts.at(-1);
if (last && last.to === from && last.rule.condition === inForce.condition) last.to = to;
else parts.push({ from, to, rule: inForce, limits: limitsOf(inForce, field), ranges: failingRanges(inForce, field) });
}
return parts;
}
function stepsOf(field) {
const { values, last } = run.fields[field];
const end = last ? { record: last[0], time: last[1] } : END;
return withEnds(values, end).map(({ entry, from, to }) => ({
from, to, low: entry[2], high: entry.length > 3 ? entry[3] : entry[2], changes: entry.length > 3 ? entry[4] : 1,
}));
}
function boundsOf(plot) {
const seen = each => shareOf(each.to) >= 0 && shareOf(each.from) <= 1;
const values = plot.steps.filter(seen).flatMap(step => [step.low, step.high]).filter(value => value !== null);
const limits = plot.parts.filter(seen).flatMap(part => part.limits.map(([, number]) => numberOf(number)));
let low = values.reduce((one, other) => Math.min(one, other), values[0] ?? limits[0] ?? 0);
let high = values.reduce((one, other) => Math.max(one, other), low);
plot.values = values.length ? [low, high].map(value => valueText(plot.field, value)).join(' to ') : 'no value';
const away = limit => Math.max(low - limit, limit - high, 0);
const most = Math.max(1, high - low, Math.min(...limits.map(away))) * 8;
for (const limit of limits) {
if (Math.max(high, limit) - Math.min(low, limit) > most) continue;
[low, high] = [Math.min(low, limit), Math.max(high, limit)];
}
const room = (high - low) * 0.08 || 1;
return [low - room, high + room];
}
function makePlot(lane, field) {
const { name, values, packets } = run.fields[field];
const plot = { row: make('div', 'row plot'), track: make('div', 'track'), field, lane, parts: limitPartsOf(lane.rule, field) };
"#;
