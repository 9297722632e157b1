//! The page behind its data, part 2. Written by tools/gate/page_constants.

/// The page behind its data, part 2.
pub const TEXT: &str = r#"plot.steps = stepsOf(field);
plot.told = make('div');
const label = makeBroken('div', 'name', name);
label.append(plot.told, make('div', '', `${packets} packets`));
if (plot.parts.some(part => !isAlone(part.rule))) label.append(make('div', '', 'shade: this field’s part only'));
plot.row.append(label, plot.track);
plot.track.tabIndex = 0;
plot.track.setAttribute('role', 'slider');
plot.track.setAttribute('aria-label', `${name}: ${values.length} values; arrows go from one to the next`);
listenToPlot(plot);
tappable(plot.track, near => showItems([...new Set(near.map(({ item }) => item))]));
return plot;
}
const sharePixels = (place, width) => Math.max(-10, Math.min(width + 10, shareOf(place) * width));
const heightOf = (plot, value) => EDGE + (plot.high - value) / (plot.high - plot.low) * (HEIGHT - 2 * EDGE);
function limitShapes(plot, width) {
return plot.parts.map(part => {
const [left, right] = [part.from, part.to].map(place => sharePixels(place, width));
const wide = Math.max(0, right - left);
const shades = part.ranges.map(([low, high]) => {
const top = Math.max(0, heightOf(plot, high + 0.5));
const bottom = Math.min(HEIGHT, heightOf(plot, low - 0.5));
if (bottom < 0 || top > HEIGHT) return '';
return `<rect class="shade" x="${left}" y="${top}" width="${wide}" height="${Math.max(1, bottom - top)}"/>`;
});
const lines = part.limits.map(([, number]) => `<path class="limit" d="M${left} ${heightOf(plot, numberOf(number))}h${wide}"/>`);
return shades.concat(lines).join('');
}).join('');
}
function valueShapes(plot, width) {
let line = '', boxes = '', dots = '', before = null;
for (const step of plot.steps) {
const [left, right] = [step.from, step.to].map(place => sharePixels(place, width));
if (right < 0 || left > width) continue;
if (step.low === null) { before = null; continue; }
const [top, bottom] = [heightOf(plot, step.high), heightOf(plot, step.low)];
line += before === null ? `M${left} ${bottom}` : `H${left}V${bottom}`;
if (step.changes > 1) boxes += `<rect class="between" x="${left}" y="${top}" width="${Math.max(1, right - left)}" height="${Math.max(1, bottom - top)}"/>`;
else dots += `M${left} ${bottom}h0`;
line += step.changes > 1 ? `M${right} ${bottom}` : `H${right}`;
before = step;
}
const few = dots.length < 6000;
return `${boxes}<path class="line" d="${line}"/>${few ? `<path class="dots" d="${dots}"/>` : ''}`;
}
function limitLabels(plot, width, marks) {
const labels = [];
for (const part of plot.parts) {
const [left, right] = [part.from, part.to].map(end => Math.max(0, Math.min(width, shareOf(end) * width)));
if (shareOf(part.to) < 0 || shareOf(part.from) > 1) continue;
for (const [operator, number] of part.limits) {
const line = heightOf(plot, numberOf(number));
const beyond = line < 0 ? '↑ ' : line > HEIGHT ? '↓ ' : '';
addLabel(labels, { texts: [`${beyond}${operator} ${number}`], line, start: left, end: right }, width, marks);
}
}
return labels.map(label => {
const element = make('div', 'limit_text', label.texts.join(', '));
element.style.top = label.top + 'px';
element.style.left = label.left / width * 100 + '%';
return element;
});
}
function freePlace(label, wide, width, marks) {
const meets = (left, top) => marks.some(mark => mark.x > left - 10 && mark.x < left + wide + 8 && Math.abs(mark.y - top - 7) < 16);
const tops = [label.line - 15, label.line + 2].map(top => Math.max(0, Math.min(HEIGHT - 14, top)));
const first = Math.max(0, Math.min(label.start + 3, width - wide));
for (const top of tops) {
for (let left = first; left === first || left + wide <= label.end; left += 4) {
if (!meets(left, top)) return { left, top };
}
}
return null;
}
function addLabel(labels, label, width, marks) {
const wide = widthOf(label.texts.join(', '), 11) + 10;
const free = freePlace(label, wide, width, marks);
if (!free) return;
Object.assign(label, free);
label.right = label.left + wide;
const met = labels.findIndex(other => Math.abs(other.top - label.top) < 15 && other.left < label.right && label.left < other.right);
if (met < 0) { labels.push(label); return; }
const [other] = labels.splice(met, 1);
const texts = [...new Set(other.texts.concat(label.texts))];
addLabel(labels, { texts, line: other.line, start: Math.min(other.start, label.start), end: Math.max(other.end, label.end) }, width, marks);
}
function sampleMarks(plot, width) {
return plot.lane.items.filter(item => item.request).flatMap(({ request }) => {
const rule = ruleIn(request.text, request.rule);
const part = rule ? rule.comparisons.findIndex(([field]) => field === plot.field) : -1;
if (part < 0) return [];
return request.samples.map(([record, time, parts]) => ({ request, record, time, value: parts[part][0] }));
}).filter(sample => sample.value !== null && sample.record >= FIRST && shareOf(sample) >= 0 && shareOf(sample) <= 1).map(sample => {
const value = valueText(plot.field, sample.value);
const name = `failed sample before the request of sequence ${sample.request.sequence}: ${run.fields[plot.field].name} ${value}, ${at(sample)}`;
const item = plot.lane.items.find(each => each.request === sample.request);
const mark = makeButton('diamond', '', name, () => showItem(item));
Object.assign(mark, { place: sample.record, item, x: shareOf(sample) * width, y: heightOf(plot, sample.value) });
mark.style.left = shareOf(sample) * 100 + '%';
mark.style.top = mark.y + 'px';
return mark;
});
}
function aroundShapes(plot, width) {
return plot.lane.items.filter(item => item.request).map(({ request }) => {
const [, values] = request.around.find(([field]) => field === plot.field) ?? [0, []];
const known = values.filter(([record, , value]) => value !== null && record >= FIRST);
if (!known.length) return '';
const points = known.map(([record, time, value]) => [sharePixels({ record, time }, width), heightOf(plot, value)]);
const steps = points.map(([x, y], index) => (index ? `H${x}V${y}` : `M${x} ${y}`)).join('');
const dots = points.map(([x, y]) => `M${x} ${y}h0`).join('');
return `<path class="line" d="${steps}H${sharePixels(request, width)}"/><path class="dots" d="${dots}"/>`;
}).join('');
}
function drawPlot(plot) {
const width = plot.track.clientWidth || 1;
[plot.low, plot.high] = boundsOf(plot);
plot.told.textContent = plot.values;
const drawing = make('div', 'drawing', undefined, { 'aria-hidden': 'true' });
drawing.innerHTML = `<svg viewBox="0 0 ${width} ${HEIGHT}" preserveAspectRatio="none">${limitShapes(plot, width)}${valueShapes(plot, width)}${aroundShapes(plot, width)}</svg>`;
const marks = sampleMarks(plot, width);
plot.track.drawn = marks.map(({ x, y, item }) => ({ left: x, right: x, top: y, item }));
redraw(plot.track, [drawing, ...limitLabels(plot, width, marks), ...marks, ...readingOf(plot, width)]);
}
function openLane(lane, open) {
lane.name.setAttribute('aria-expanded', open);
if (!open && lane.plots) {
lane.plots.forEach(plot => plot.row.remove());
lane.plots = null;
}
if (!open || lane.plots) return;
const fields = [...new Set(rulesOf(lane.rule).flatMap(fieldsOf))];
lane.plots = fields.map(field => makePlot(lane, field));
(lane.row.nextElementSibling === byId('panel') ? byId('panel') : lane.row).after(...lane.plots.map(plot => plot.row));
lane.plots.forEach(drawPlot);
}
function readingText(plot, step) {
const [low, high] = [step.low, step.high].map(value => valueText(plot.field, value));
return step.changes > 1 ? `${low} to ${high}, ${step.changes} changes` : low;
}
function readingOf(plot, width) {
const step = plot.steps[plot.read];
if (!step || shareOf(step.to) < 0 || shareOf(step.from) > 1) return [];
const text = `${readingText(plot, step)} from ${sinceStart(step.from.time)} s`;
const left = Math.max(0, shareOf(step.from)) * width;
const cursor = make('div', 'cursor');
cursor.style.left = left / width * 100 + '%';
const reading = make('div', 'reading', text);
const room = widthOf(text, 11) + 10;
reading.style.left = (left + 4 + room > width ? Math.max(0, left - room - 4) : left + 4) / width * 100 + '%';
return [cursor, reading];
}
function read(plot, index) {
if (index === plot.read || !plot.steps[index]) return;
plot.read = index;
const step = plot.steps[index];
plot.track.setAttribute('aria-valuenow', index + 1);
plot.track.setAttribute('aria-valuemin', 1);
plot.track.setAttribute('aria-valuemax', plot.steps.length);
plot.track.setAttribute('aria-valuetext', `${readingText(plot, step)}, ${during(step)}`);
drawPlot(plot);
}
function readAtPointer(plot, event) {
if (pointers.size) return;
const box = plot.track.getBoundingClientRect();
const position = view.low + (event.clientX - box.left) / box.width * (view.high - view.low);
read(plot, plot.steps.findLastIndex(step => positionOf(step.from) <= position));
}
function readByKey(plot, event) {
const step = { ArrowLeft: -1, ArrowRight: 1 }[event.key];
if (!step || event.target !== plot.track) return;
event.preventDefault();
event.stopPropagation();
const first = plot.steps.findIndex(each => shareOf(each.from) >= 0);
const next = plot.read === undefined ? first : plot.read + step;
if (!plot.steps[next]) return;
bring(plot.steps[next].from);
read(plot, next);
}
function listenToPlot(plot) {
plot.track.addEventListener('pointermove', event => readAtPointer(plot, event));
plot.track.addEventListener('keydown', event => readByKey(plot, event));
}
function sampleOf(request, number) {
const { samples } = request;
const index = number <= Math.min(3, samples.length) ? number - 1 : samples.length - 1 - (request.counted - number);
return index >= Math.max(0, samples.length - 3) || index < Math.min(3, samples.length) ? samples[index] : undefined;
}
function stateAt(rule, record) {
const span = entryAt(run.lanes[rule], record);
const exact = span && (span.length === 4 || !(span[3] & (span[3] - 1)));
return exact && span[3] ? wordsOf(span[3], STATES)[0] : undefined;
}
function modeAt(record) {
const mode = entryAt(run.mode, record)?.[2];
return mode === 'untold' ? undefined : mode;
}
function releaseAfter(rule, record, until) {
const changes = [...run.lanes[rule], ...run.mode].map(placeOf).filter(place => place.record > record && place.record <= until);
return changes.sort((one, other) => one.record - other.record)
.find(place => stateAt(rule, place.record) === 'active' && modeAt(place.record) === 'active');
}
function releaseWords(request, name, record) {
const place = releaseAfter(request.rule, record, request.record - 1);
const command = place && run.commands.find(([other]) => other === place.record);
if (command) return ` The command “${command[2]}” ended that, ${near(place)}.`;
const last = run.commands.findLast(([other, , says]) => other > record && other < request.record && [`state ${name} active`, 'mode active'].includes(says));
if (last) return ` The last command “${last[2]}” before this request came ${near(placeOf(last))}.`;
return place ? ` That ended ${near(place)}.` : ' What ended that is not on this page.';
}
function delayOf(request, rule) {
const number = rule.fails;
if (!(request.counted > number)) return '';
const nth = `${ordinal(number)} failed sample in a row`;
const unknown = `Why it did not request at the ${nth} is not on this page.`;
const first = request.samples[0];
const before = run.requests.findLast(other => other.packet < request.packet && other.rule === request.rule && other.text === request.text
&& first && other.record >= first[0]);
if (before) {
return `It had requested sequence ${before.sequence} in this row of failures already, ${near(before)}, and was passive after that.`
+ releaseWords(request, rule.name, before.record);
}
const sample = sampleOf(request, number);
if (!sample || sample[0] <= FIRST) return unknown;
const last = sample[0] - 1;
const passive = modeAt(last) === 'passive' ? 'the mode' : stateAt(request.rule, last) === 'passive' ? 'the rule' : '';
if (!passive) return unknown;
return `It did not request at the ${nth}, ${near(placeOf(sample))}, because ${passive} was passive then.`
+ releaseWords(request, rule.name, last);
}
let chosen = null; // the packet that is marked in the table
let closed = null; // what has the keys again after the panel is closed
function showAfter(row, title, ...elements) {
const panel = byId('panel');
if (!panel.contains(document.activeElement)) closed = document.activeElement;
const close = makeButton('close', '✕', 'close this', closePanel);
close.tabIndex = 0;
const head = make('div', 'opened');
head.append(makeBroken('h3', '', title), close);
panel.replaceChildren(head, ...elements);
panel.hidden = false;
row.after(panel);
if (panel.getBoundingClientRect().bottom > innerHeight) row.scrollIntoView({ block: 'start' });
}
function closePanel() {
const back = byId('panel').contains(document.activeElement);
byId('panel').hidden = true;
if (back && closed?.isConnected) closed.focus({ preventScroll: true });
}
const rowOf = item => (lanes[item.rule] ?? markRows[item.kind === 'command' ? 'commands' : 'others'])?.row ?? byId('axis');
function conditionOf(rule) {
const line = make('p', '', 'fails when ');
line.append(make('code', '', rule.condition));
return line;
}
function partsTable(rule, [, time, parts], before) {
const table = make('table');
const head = make('tr');
head.append(make('th', '', 'comparison'), make('th', 'number', 'value'), make('th', '', 'age'), make('th', '', 'holds'));
table.append(head);
parts.forEach(([value, record, since, verdict], index) => {
const [field, operator, number] = rule.comparisons[index];
const same = record !== null && before?.[2][index]?.[1] === record ? ', as before' : '';
const age = record === null ? 'no packet taken' : `${decimal(time - since)} s, record\u00a0${record}${same}`;
const holds = { true: '✔ true', false: '✘ false' }[verdict] ?? verdict;
const row = make('tr', verdict === 'true' ? 'holding' : '');
row.append(makeBroken('td', '', `${run.fields[field].name} ${operator}\u00a0${number}`),
make('td', 'number', record === null ? '–' : valueText(field, value)), make('td', age.length < 18 ? 'whole' : '', age), make('td', 'holds', holds));
table.append(row);
});
return table;
}
function sampleHeading(request, index) {
const shown = request.samples.length;
const number = index < shown - Math.min(3, shown) ? index + 1 : request.counted - (shown - 1 - index);
const which = request.counted === null ? '' : ` ${number} of ${request.counted}`;
return `Failed sample${which}: ${near(placeOf(request.samples[index]))}${isOverSame(request, index) ? ', over the same packets as the one before it' : ''}`;
}
function isOverSame({ samples }, index) {
const records = sample => sample[2].map(part => part[1]).join();
return index > 0 && records(samples[index]) === records(samples[index - 1]);
}
function eventWords(request, level) {
if (request.event !== null) return `, packet ${request.event}.`;
return { type: ` was not sent: events of ${level} are off.`, filter: ' was not sent: held back by a filter.' }[request.held] ?? ' was not sent.';
}
function failedIn({ counted: count }) {
return count === null ? 'failed in several samples of this record, of which the number is not known' : count === 1 ? 'failed in 1 sample' : `failed in ${count} samples in a row`;
}
function whyOf(request) {
const rule = ruleIn(request.text, request.rule);
const article = make('article');
const place = `Sequence ${request.sequence} was requested ${at(request)}, packet ${request.packet}, count ${request.count}.`;
if (!rule) {
const none = request.one_of.length ? `${whoOf(request).replace('one of', 'One of')} requested it: which one is not known.` : 'Which rule requested it is not known.';
const who = request.rule === null ? none : `Rule ${request.rule} ${failedIn(request)}.`;
const why = request.text === null ? 'The tables in force were of none of the texts, so its condition is not known.' : '';
const event = request.rule === null ? '' : ` Its event${eventWords(request, 'its type')}`;
article.append(makeBroken('p', '', place), make('p', '', `${who} ${why}${event}`));
return article;
}
const needs = request.counted === rule.fails ? ', as many as it needs' : `; it needs ${rule.fails}`;
article.append(makeBroken('p', '', place), makeBroken('p', '', `${rule.name} (rule ${request.rule}) ${failedIn(request)}${needs}. ${delayOf(request, rule)}`),
conditionOf(rule), makeBroken('p', 'soft', `In ${textName(request.text)}. Its event, ${rule.level} ${rule.event} “${rule.says}”${eventWords(request, `type ${rule.level}`)}`));
const samples = make('div', 'samples');
samples.append(...request.samples.map((sample, index) => {
const part = make('section');
part.append(make('h4', '', sampleHeading(request, index)), partsTable(rule, sample, request.samples[index - 1]));
return part;
}));
article.append(samples);
if (!request.samples.length) {
article.append(make('p', 'soft', 'The values of its samples are not on this page, which has those of many other requests.'), ...moreAbout(request, request));
}
return article;
}
function choose(packet) {
chosen = packet;
for (const row of byId('rows').querySelectorAll('.chosen')) row.classList.remove('chosen');
byId('rows').querySelector(`[data-packet="${packet}"]`)?.classList.add('chosen');
}
function linkTo(text, click) {
const link = makeButton('', text, text, click);
link.tabIndex = 0;
return link;
}
const rowLink = item => linkTo(`packet ${item.packet} in the table`, () => showRow(item));
function showItem(item) {
if (item.packet) choose(item.packet);
if (item.request) {
const level = ruleIn(item.request.text, item.request.rule)?.level;
showAfter(rowOf(item), `Why sequence ${item.request.sequence}?${level ? ` (${SHAPES[level]} ${level})` : ''}`, whyOf(item.request), rowLink(item));
return;
}
const [title, links] = item.kind === 'command' ? ['command', []] : [`${item.kind} event`, [rowLink(item)]];
showAfter(rowOf(item), title, makeBroken('p', '', itemName(item)), ...links);
}
function showItems(items) {
if (items.length === 1) { showItem(items[0]); return; }
const links = items.slice(0, 200).map(item => linkTo(`${SHAPES[item.kind]} ${itemName(item, near)}`, () => showItem(item)));
const rest = items.length > links.length ? [make('p', 'soft', `and ${items.length - links.length} more: zoom to see them`)] : [];
showAfter(rowOf(items[0]), `${items.length} ${items[0].kind === 'command' ? 'commands' : 'requests and events'}`,
linkTo('zoom to these', () => zoomTo(items[0].at, items.at(-1).at)), ...links, ...rest);
}
function showSpan(lane, cell) {
const text = textAt(cell.from.record);
const inForce = ruleIn(text, lane.rule);
const parts = cell.parts.slice(0, 200).map(part => makeBroken('p', '', spanName(lane.rule, part, near)));
const rest = cell.parts.length > 200 ? [make('p', 'soft', `and ${cell.parts.length - 200} more: zoom to see them`)] : [];
const reduced = cell.parts.some(part => part.changes > 1)
? [make('p', 'soft', 'A number of changes stands for changes that are not on this page one by one.'), ...moreAbout(cell.from, cell.to)] : [];
const [nearer] = cell.parts.length > 1 ? [linkTo('zoom to these', () => zoomTo(cell.from, cell.to))] : [''];
showAfter(lane.row, `${nameIn(text, lane.rule)}: ${cell.pause || resultWords(cell.results)[0]}`,
...(inForce ? [conditionOf(inForce)] : []), nearer, ...parts, ...rest, ...reduced);
}
const MORE = 100; // rows that are drawn at once
let found = []; // the rows that the filter lets through
let drawn = 0;
function matches(item, wanted) {
if (wanted.kind && item.kind !== wanted.kind) return false;
if (wanted.rule !== '' && item.rule !== Number(wanted.rule) && !item.request?.one_of.includes(Number(wanted.rule))) return false;
const lane = item.rule === null ? undefined : lanes[item.rule];
if (wanted.failed && lane && !lane.failed) return false;
return !wanted.words || `${whatOf(item)} ${lane?.words ?? ''}`.toLowerCase().includes(wanted.words);
}
function laneMatches(lane, wanted, hit) {
if (wanted.rule !== '' && lane.rule !== Number(wanted.rule)) return false;
if (wanted.failed && !lane.failed) return false;
if (wanted.kind && !hit.has(lane.rule)) return false;
return !wanted.words || lane.words.includes(wanted.words) || hit.has(lane.rule);
}
function find() {
const wanted = {
words: byId('words').value.trim().toLowerCase(), rule: byId('rule').value, kind: byId('kind').value, failed: byId('failed').checked,
};
found = sent.filter(item => matches(item, wanted));
const hit = new Set(found.map(item => item.rule));
for (const lane of lanes) {
lane.row.hidden = !laneMatches(lane, wanted, hit);
if (lane.row.hidden) openLane(lane, false);
"#;
