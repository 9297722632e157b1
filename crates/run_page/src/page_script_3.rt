//! The page behind its data, part 3. Written by tools/gate/page_constants.

/// The page behind its data, part 3.
pub const TEXT: &str = r#"}
if (byId('panel').previousElementSibling?.hidden) closePanel();
const shown = lanes.filter(lane => !lane.row.hidden).length;
byId('shown').textContent = `${shown} of ${lanes.length} rules shown.`;
byId('rows_shown').textContent = [`${found.length} of ${sent.length} requests and events`, ...stretches.map(leftOutWords)].join('; ');
drawn = 0;
byId('rows').replaceChildren();
drawRows(MORE);
drawSoon();
}
function makeTableRow(item) {
const row = make('tr', item.packet === chosen ? 'chosen' : '', undefined, { role: 'row', 'data-packet': item.packet });
const label = item.request ? whoOf(item.request) : item.rule === null ? 'show' : nameIn(textAt(item.at.record), item.rule);
const link = makeBroken('button', item.rule === null && !item.request ? 'unprinted' : '', label, { type: 'button', 'aria-label': `${label}: packet ${item.packet} in the lanes` });
link.addEventListener('click', () => showInLanes(item));
const rule = make('td', 'rule');
rule.append(link);
row.append(make('td', 'number', item.packet), make('td', 'number', secondOf(item.at.time)), make('td', 'instant', instantOf(item.at.time)),
make('td', 'number narrow', item.at.record), make('td', `whole kind ink_${item.kind}`, `${SHAPES[item.kind]} ${item.kind}`), rule, makeBroken('td', 'what', whatOf(item)));
for (const cell of row.children) cell.setAttribute('role', 'cell');
return row;
}
function drawRows(count) {
const next = found.slice(drawn, drawn + count);
byId('rows').append(...next.map(makeTableRow));
drawn += next.length;
byId('more').hidden = drawn >= found.length;
byId('more').textContent = `${found.length - drawn} more`;
}
const atTheEnd = new IntersectionObserver(entries => {
if (!entries.at(-1).isIntersecting || drawn >= found.length) return;
drawRows(MORE);
atTheEnd.unobserve(byId('more'));
atTheEnd.observe(byId('more'));
}, { rootMargin: '600px' });
function showInLanes(item) {
bring(item.at);
const lane = lanes[item.rule];
if (lane) {
lane.row.hidden = false;
openLane(lane, true);
}
showItem(item);
const row = rowOf(item);
row.scrollIntoView({ block: 'start' });
(lane?.name ?? row.querySelector('[tabindex="0"]'))?.focus({ preventScroll: true });
}
function showRow(item) {
const index = found.indexOf(item);
if (index < 0) return;
if (index >= drawn) drawRows(index + MORE - drawn);
choose(item.packet);
const row = byId('rows').querySelector(`[data-packet="${item.packet}"]`);
row.scrollIntoView({ block: 'center' });
row.querySelector('button').focus({ preventScroll: true });
}
function fillFilters() {
byId('rule').append(make('option', '', 'all rules', { value: '' }));
for (const lane of lanes) byId('rule').append(make('option', '', nameOf(lane.rule), { value: lane.rule }));
byId('kind').append(make('option', '', 'all kinds', { value: '' }));
for (const kind of ['request', ...LEVELS]) byId('kind').append(make('option', '', `${SHAPES[kind]} ${kind}`, { value: kind }));
for (const id of ['words', 'rule', 'kind', 'failed']) byId(id).addEventListener('input', find);
atTheEnd.observe(byId('more'));
}
const COLUMNS = ['packet', 'second', 'utc', 'record', 'kind', 'rule', 'sender', 'id', 'sequence', 'count', 'text'];
function csvCells(item) {
const rule = item.request ? whoOf(item.request) : item.rule === null ? '' : nameIn(textAt(item.at.record), item.rule);
return [item.packet, secondOf(item.at.time), instantOf(item.at.time), item.at.record, item.kind, rule, item.sender ?? '',
item.id ?? '', item.request?.sequence ?? '', item.request?.count ?? '', item.says ?? ''];
}
function csvText(items) {
const quoted = cell => (/[",\r\n]/.test(cell) ? `"${String(cell).replaceAll('"', '""')}"` : String(cell));
return [COLUMNS, ...items.map(csvCells)].map(cells => cells.map(quoted).join(',') + '\n').join('');
}
function saveCsv() {
const link = make('a', '', '', { download: 'run.csv', href: URL.createObjectURL(new Blob([csvText(found)], { type: 'text/csv' })) });
link.click();
setTimeout(() => URL.revokeObjectURL(link.href), 1000);
}
const SHOWN = 3; // rules that are shown at once
const ENDING = run.window ? 'the end of this part' : 'the end';
function requestsByRule() {
const groups = new Map();
for (const request of run.requests) {
const name = whoOf(request);
if (!groups.has(name)) groups.set(name, { name, rule: request.rule, requests: [] });
groups.get(name).requests.push(request);
}
return [...groups.values()];
}
function sinceWhen(spans, bits, request) {
const first = spans.findLastIndex(span => span.results !== bits || span.changes > 1) + 1;
if (!spans[first]) return '';
const again = bits === 32 && isBefore(request, spans[first].from) ? ' again' : '';
return first === 0 ? ' all the time' : `${again} since ${sinceStart(spans[first].from.time)} s`;
}
const isAgain = (spans, request) => sinceWhen(spans, 32, request).startsWith(' again');
function lastResult(spans, { name, rule }) {
const last = spans.findLast(({ results }) => results !== 1);
return last?.changes === 1 && nameIn(textAt(last.from.record), rule) === name ? `, last result ${resultWords(last.results)[0]}` : '';
}
function standing(group) {
const { name, rule } = group;
if (rule === null) return ['unknown', '? not known', group.requests[0].one_of.length ? 'not known, since which of them requested it is not' : 'not known, since its rule is not known'];
const spans = lanes[rule]?.spans ?? [];
const span = spans.at(-1);
const text = textAt(END.record);
if (!span || span.results === 1 || nameIn(text, rule) !== name) {
return text === undefined ? ['unknown', '? not known', 'not known, since the tables in force are not'] : ['unknown', '? not in force', `not in force at ${ENDING}${lastResult(spans, group)}`];
}
const [result] = wordsOf(span.results, RESULTS);
const again = span.states === 2 ? '; passive: no more requests until it is set active' : '';
if (span.pause) return ['unknown', '? not sampled', `not sampled at ${ENDING} (${span.pause}), last result ${result}`];
if (result === 'fail') return ['still', '✖ still fails', `${isAgain(spans, group.requests[0]) ? 'failed' : 'fails'}${sinceWhen(spans, 32, group.requests[0])}${again}`];
if (result === 'pass') return ['over', '✔ over', `passes${sinceWhen(spans, 4, group.requests[0])}${again}`];
return ['unknown', `? ${result}`, `${resultWords(span.results)[0]} at ${ENDING}${again}`];
}
function valuesOf(request, rule) {
const sample = request.samples.at(-1);
if (!sample) return [];
const texts = sample[2].map(([value, record, , verdict], index) => {
const [field, operator, number] = rule.comparisons[index];
const true_one = verdict === 'true' && sample[2].length > 1 ? ` (✔ ${operator} ${number})` : '';
return `${run.fields[field].name} = ${record === null ? 'no packet' : valueText(field, value)}${true_one}`;
});
return [...new Set(texts)];
}
const short = (text, most) => (text.length > most ? text.slice(0, most - 1) + '…' : text);
function term(name, ...content) {
const box = make('div');
const says = make('dd');
says.append(...content);
box.append(make('dt', '', name), says);
return box;
}
function answerOf(group) {
const { requests, name, ending: [kind, sign, sentence] } = group;
const [first] = requests;
const rule = ruleIn(first.text, first.rule);
const item = make('li', kind);
const sequences = [...new Set(requests.map(request => request.sequence))];
const title = make('p', 'asked');
const open = makeBroken('button', '', name, { type: 'button', 'aria-label': `${name}: show why in the lanes` });
open.addEventListener('click', () => showInLanes(sent.find(each => each.request === first)));
const led = `▼ sequence ${sequences.slice(0, 4).join(', ')}${sequences.length > 4 ? ', ..' : ''}`;
title.append(open, ' ', make('b', 'ink_request', led), makeBroken('span', '', rule ? ` “${rule.says}” ` : ' '),
...(rule ? [make('b', `ink_${rule.level}`, `${SHAPES[rule.level]} ${rule.level}`), ' '] : []), make('b', 'ending', sign));
const times = requests.length === 1 ? '' : `; ${counted(requests.length, 'time')}${run.requests_left_out ? ' at least' : ''}, last ${sinceStart(requests.at(-1).time)} s`;
const list = make('dl');
const why = rule ? valuesOf(first, rule).slice(0, 4).join(', ') : '';
list.append(term('when', makeBroken('span', '', `${when(first)}${times}`)));
if (rule) list.append(term('why', makeBroken('span', '', `${why}${why && '; '}fails when `), make('code', '', short(rule.condition, 110))));
list.append(term('is it over', sentence));
item.append(title, list);
return item;
}
function quietFailures(groups) {
const names = new Set(groups.map(group => group.name));
const may = new Set(run.requests.flatMap(request => [request.rule, ...request.one_of]));
const quiet = lanes.filter(lane => lane.spans.some(span => span.results & 32 && !span.pause) && !may.has(lane.rule)
&& !names.has(nameIn(textAt(END.record), lane.rule)) && !names.has(nameOf(lane.rule)));
if (!quiet.length) return;
const isOpen = run.requests.some(request => request.rule === null && (!request.one_of.length || request.one_of.includes(null)));
const line = make('p', '', `${groups.length ? 'Also failed' : 'Failed'}${isOpen ? '' : ', without a request on this page'}: `);
for (const lane of quiet.slice(0, 4)) {
const open = makeBroken('button', '', nameOf(lane.rule), { type: 'button' });
open.addEventListener('click', () => {
openLane(lane, true);
lane.row.scrollIntoView({ block: 'start' });
});
line.append(open, ' ');
}
if (quiet.length > 4) line.append(`and ${counted(quiet.length - 4, 'other rule')}.`);
byId('answers').append(line);
}
function whyNoSample() {
if (run.mode.every(([, , mode]) => mode === 'absent')) return 'no Limit Checker ran';
if (run.mode.every(([, , mode]) => mode === 'absent' || mode === 'disabled')) return 'the Limit Checker was disabled';
if (run.tables.every(([, , , how]) => how === 'none')) return 'no tables were in force';
if (!run.figures.ticks) return 'no tick came, and no request for a sample';
if (!run.sampling.some(({ due }) => due)) return 'the schedule samples none of these rules';
return 'no scheduler ran, or no rule was active or passive';
}
const namesOf = names => (names.length > 4 ? `${names.slice(0, 4).join(', ')} and ${names.length - 4} more` : listed(names));
function lookedAt() {
if (!run.samples) return `Nothing was sampled: ${whyNoSample()}.`;
const forced = new Set(run.tables.map(([, , text]) => text));
const never = run.window ? lanes.filter(({ rule }) => !run.sampling[rule].sampled).map(({ rule }) => nameOf(rule))
: run.account.rules.filter(({ text, sampled }) => forced.has(text) && !sampled).map(({ text, rule }) => nameIn(text, rule));
const stale = lanes.filter(({ spans }) => spans.at(-1)?.results === 8).map(({ rule }) => nameIn(textAt(END.record), rule));
const late = lanes.filter(({ spans }) => spans.at(-1)?.pause === 'no sample').map(({ rule }) => nameIn(textAt(END.record), rule));
const parts = [[stale, `stale at ${ENDING}`], [late, `not sampled at ${ENDING}, though due`], [[...new Set(never)], 'never sampled']]
.filter(([names]) => names.length).map(([names, what]) => ` ${names.length === lanes.length && names.length > 1 ? 'All rules are' : `${counted(names.length, 'rule')} ${names.length === 1 ? 'is' : 'are'}`} ${what}: ${namesOf(names)}.`);
return `${counted(run.samples, 'sample')} of ${counted(lanes.length, 'rule')}.${parts.join('')}`;
}
function headline(groups) {
if (!run.figures.records) return run.window ? 'This part has no record.' : 'There is no record.';
if (!run.figures.requests) return run.samples ? `No sequence was requested. ${lookedAt()}` : lookedAt();
const named = groups.filter(({ rule }) => rule !== null).length;
const isLess = run.requests_left_out && named < lanes.length || named < groups.length;
const who = named ? `${isLess ? 'at least ' : ''}${counted(named, 'rule')}` : 'rules that are not known';
const still = groups.filter(({ ending }) => ending[0] === 'still').length;
const open = groups.filter(({ ending }) => ending[0] === 'unknown').length;
const over = groups.length - still - open;
const parts = [[still, 'still fails', 'still fail'], [over, 'passes', 'pass'], [open, 'cannot be judged', 'cannot be judged']]
.filter(([count]) => count).map(([count, one, more]) => `${count} ${count === 1 ? one : more}`);
const which = groups.length === 1 ? `It ${parts[0].slice(2)} at ${ENDING}` : `At ${ENDING} ${listed(parts)}`;
return `${counted(run.figures.requests, 'request')} by ${who}. ${which}.`;
}
let showRest = () => {};
function tellAnswers() {
const groups = requestsByRule();
for (const group of groups) group.ending = standing(group);
const order = ['still', 'unknown', 'over'];
groups.sort((one, other) => order.indexOf(one.ending[0]) - order.indexOf(other.ending[0])); // in each the first one first
byId('headline').textContent = headline(groups);
if (run.figures.requests) byId('answers').append(make('p', run.samples ? 'soft' : 'cut', lookedAt()));
const mode = run.mode.at(-1)?.[2];
if (mode && mode !== 'active' && mode !== 'untold') {
byId('answers').append(make('p', 'cut', mode === 'absent' ? `At ${ENDING} no Limit Checker runs.` : `At ${ENDING} the mode is ${mode}, so no rule requests.`));
}
const list = make('ol');
list.append(...groups.slice(0, SHOWN).map(answerOf));
byId('answers').append(list);
if (groups.length > SHOWN) {
const more = make('details');
more.append(make('summary', '', `${counted(groups.length - SHOWN, 'more rule')} that requested`), make('ol'));
showRest = () => {
if (!more.lastChild.children.length) more.lastChild.append(...groups.slice(SHOWN).map(answerOf));
};
more.addEventListener('toggle', showRest);
byId('answers').append(more);
}
quietFailures(groups);
}
function figure(name, value, more) {
const box = make('div', '', name);
box.append(make('b', '', value.toLocaleString('en')), make('small', '', more));
return box;
}
function tellPart() {
if (!run.window) return;
const { from, until, records, packets } = run.window;
const bounds = [from === null ? 'from the start' : `from second ${decimal(from)}`, until === null ? 'to the end' : `until second ${decimal(until)}`];
const which = run.figures.records ? `records ${FIRST} to ${END.record - 1}` : 'no record';
byId('part').textContent = `This page is a part of the run, ${bounds.join(' ')}: ${which}. `
+ `${counted(records, 'record')} and ${counted(packets, 'packet')} before it are not on this page.`;
byId('part').hidden = false;
}
function tellFigures() {
const all = run.figures;
const ended = run.ended.whole ? 'The stream ended after a whole record' : 'The stream is cut short';
const seconds = all.records ? ` Seconds ${secondOf(0)} to ${secondOf(run.end)}${run.epoch ? `, ${instantOf(0)} to ${instantOf(run.end)}` : ''}.` : '';
const text = `Ended with status ${run.ended.status}: ${run.ended.says}. ${ended}.${seconds}`
+ (run.ordered ? '' : ' Times go back in this stream, so the axis has its records.');
byId('ended').append(...makeBroken('span', '', text).childNodes);
byId('ended').classList.toggle('cut', run.ended.status !== 0);
const events = LEVELS.reduce((sum, level) => sum + all[level], 0);
byId('figures').append(
figure('records', all.records, `${all.telemetry} telemetry, ${all.ticks} ticks, ${all.commands} commands, ${all.files} files`),
figure('packets written', all.packets, `${all.housekeeping} housekeeping${all.other ? `, ${all.other} others` : ''}`),
figure('requests', all.requests, `of ${run.requests_left_out || run.requests.some(request => request.rule === null) ? 'at least ' : ''}${counted(new Set(run.requests.map(request => request.rule).filter(rule => rule !== null)).size, 'rule')}`),
figure('samples', run.samples, `of ${counted(run.lanes.length, 'rule')}${run.account.steps_back ? `; ${counted(run.account.steps_back, 'step')} back in time` : ''}`),
figure('events', events, LEVELS.map(level => `${all[level]} ${level}`).join(', ')));
}
function tellFiles() {
byId('program').textContent = `Made by ${run.program}.`;
document.title = `${run.files.at(-1).name.split('/').at(-1)}: run of the Limit Checker`;
for (const file of run.files) {
const row = make('tr');
const sum = make('td');
sum.append(makeBroken('code', '', file.sha256));
row.append(make('td', '', file.role), makeBroken('td', '', file.name), make('td', 'number', file.bytes), sum);
byId('file_rows').append(row);
}
}
function fillUnits() {
const units = !run.ordered ? ['record'] : ['start', 'second', ...(run.epoch === null ? [] : ['utc']), 'record'];
const words = { start: 'seconds from the start', second: 'seconds', utc: 'UTC', record: 'records' };
for (const unit of units) byId('unit').append(make('option', '', words[unit], { value: unit }));
byId('unit').addEventListener('input', () => changeUnit(byId('unit').value));
}
function listenToControls() {
const moves = { in: () => zoom(0.6), out: () => zoom(1 / 0.6), earlier: () => pan(-0.25), later: () => pan(0.25), all: showAll };
for (const id of Object.keys(moves)) byId(id).addEventListener('click', moves[id]);
byId('controls').addEventListener('submit', event => event.preventDefault());
byId('csv').addEventListener('click', saveCsv);
addEventListener('keydown', moveByKey);
addEventListener('resize', drawSoon);
listenToPointers(byId('lanes'));
}
function beforePrint() {
showRest();
for (const more of document.querySelectorAll('#answers details')) more.open = true;
document.body.classList.add('printing');
if (drawn < found.length) drawRows(found.length);
byId('reasons').replaceChildren(...run.requests.map(request => {
const article = whyOf(request);
article.prepend(make('h3', '', `Why sequence ${request.sequence}?`));
return article;
}));
draw();
}
function afterPrint() {
document.body.classList.remove('printing');
byId('reasons').replaceChildren();
draw();
}
function start() {
document.body.classList.toggle('no_epoch', run.epoch === null);
tellPart();
tellFigures();
tellFiles();
fillUnits();
makeLanes();
tellAnswers();
fillFilters();
[view.low, view.high] = wholeRun();
find();
draw();
listenToControls();
addEventListener('beforeprint', beforePrint);
addEventListener('afterprint', afterPrint);
}
start();
</script>
</body>
</html>
"#;
