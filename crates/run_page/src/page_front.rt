//! The page in front of its data. Written by tools/gate/page_constants.

/// The page in front of its data.
pub const TEXT: &str = r#"<!DOCTYPE html>
<html lang="en">
<head>
<meta charset="utf-8">
<meta name="viewport" content="width=device-width, initial-scale=1">
<title>Run of the Limit Checker</title>
<style>
:root{
color-scheme:light dark;
--ink:#1b2330;--soft:#525e70;--line:#d3dae3;--paper:#fff;--box:#f3f5f8;--link:#1a56a8;--edge:#7b8798;
--pass:#cfe8d5;--pass-ink:#14532d;--pass-edge:#2f8550;--fail:#b91c1c;--fail-ink:#fff;
--stale:#f3d583;--stale-ink:#4a3500;--stale-edge:#946c00;--error:#6d4bb5;--error-ink:#fff;
--request:#0a6b4c;--event:#8a4a00;--limit:#a11616;--shade:#f7d3d0;--between:#73859e;--held:#a05a00;
--names:216px;}
@media (prefers-color-scheme:dark){
:root{
--ink:#e6eaf0;--soft:#a3afbf;--line:#39434f;--paper:#12161c;--box:#1d242d;--link:#8ab8f5;--edge:#76859a;
--pass:#1f4a30;--pass-ink:#c9efd5;--pass-edge:#45a06c;--fail:#ef5350;--fail-ink:#1a0505;
--stale:#8a6a12;--stale-ink:#fff;--stale-edge:#d0a63a;--error:#a78bfa;--error-ink:#140a2e;
--request:#5fd3a7;--event:#f0b070;--limit:#ff8a80;--shade:#4d1f22;--between:#7187a3;--held:#e0a04a;}}
*{box-sizing:border-box;}
html{scroll-padding-top:34px;}
body{
margin:0 auto;padding:12px 16px;max-width:1500px;color:var(--ink);background:var(--paper);
font:14px/1.4 system-ui,"Segoe UI",Roboto,sans-serif;font-variant-numeric:tabular-nums;}
h1{font-size:17px;margin:0 0 2px;}
h2{font-size:16px;margin:20px 0 6px;}
h3{font-size:15px;margin:0 0 4px;}
h4{font-size:13px;margin:6px 0 2px;}
p{margin:4px 0;}
.soft,dt{color:var(--soft);}
code{font:12px ui-monospace,Menlo,Consolas,monospace;overflow-wrap:break-word;}
.command_line{user-select:all;overflow-wrap:anywhere;}
[hidden]{display:none !important;}
:focus-visible{outline:3px solid var(--link);outline-offset:1px;z-index:9;}
button,select,input{
font:inherit;color:inherit;background:var(--box);border:1px solid var(--edge);
border-radius:5px;padding:3px 9px;max-width:100%;min-height:28px;min-width:28px;}
button,summary{cursor:pointer;}
summary{min-height:28px;line-height:28px;color:var(--link);}
input[type=checkbox]{width:24px;height:24px;min-height:0;margin:0;vertical-align:middle;}
.cut{border-left:4px solid var(--fail);padding-left:8px;}
#ended{color:var(--soft);font-size:13px;}
#figures{display:flex;flex-wrap:wrap;gap:6px 8px;}
#figures div{flex:1 1 130px;border:1px solid var(--line);border-radius:6px;padding:5px 10px;}
#figures b{display:block;font-size:17px;}
#figures small{color:var(--soft);}
#controls{display:flex;flex-wrap:wrap;gap:4px 12px;align-items:center;margin:12px 0 4px;}
#controls details[open]{flex:1 0 100%;}
#controls input[type=search]{flex:1 1 180px;min-width:0;}
#rule{max-width:260px;}
.together{display:inline-flex;flex-wrap:wrap;gap:6px;}
#headline{margin:8px 0 6px;font-size:19px;line-height:1.25;}
#answers ol{list-style:none;margin:0;padding:0;}
#answers li{border-left:6px solid var(--edge);margin:0 0 6px;padding:2px 0 2px 10px;}
#answers li.still{border-left-color:var(--fail);}
#answers li.over{border-left:6px double var(--pass-edge);}
.asked{margin:0 0 2px;}
.asked button{font-weight:700;text-align:left;}
.ending{white-space:nowrap;}
.still .ending{color:var(--limit);}
.over .ending{color:var(--pass-ink);}
dl{display:grid;grid-template-columns:3fr 5fr 3fr;gap:2px 16px;margin:0;font-size:13px;}
dd{margin:0;}
#answers dt{font-size:11.5px;line-height:1.2;}
#panel{
border:1px solid var(--edge);border-left:6px solid var(--link);border-radius:4px;padding:8px 12px;margin:2px 0 8px;
background:var(--box);}
.opened{display:flex;gap:8px;justify-content:space-between;align-items:start;}
#panel button{margin:2px 4px 2px 0;text-align:left;background:var(--paper);}
.samples{display:grid;grid-template-columns:repeat(auto-fit,minmax(min(100%,330px),1fr));gap:4px 20px;}
#legend{font-size:12.5px;}
.signs{display:flex;flex-wrap:wrap;gap:6px 16px;margin:4px 0;}
.signs span{display:inline-flex;gap:5px;align-items:center;}
.signs .cell{position:static;display:inline-block;min-width:28px;padding:0 5px;margin:0;font-style:normal;flex:none;}
.signs .diamond{position:static;margin:0 3px;flex:none;}
.box{display:inline-block;width:24px;height:14px;border:1px solid var(--edge);flex:none;}
.box.shade{background:var(--shade);}
.box.between{background:var(--between);}
.box.limit{height:0;border:0;border-top:2px dashed var(--limit);}
.signs .box.hatch{position:static;}
.row{display:grid;grid-template-columns:var(--names) minmax(0,1fr);border-top:1px solid var(--line);}
.name{padding:3px 8px 3px 0;font-size:12.5px;line-height:1.2;align-self:center;}
button.name{
background:none;border:0;border-radius:0;text-align:left;font-weight:600;
position:relative;padding-left:16px;}
button.name::before{content:"▸";position:absolute;left:1px;color:var(--soft);}
button.name[aria-expanded=true]::before{content:"▾";}
.track{position:relative;height:36px;overflow:hidden;touch-action:pan-y;cursor:grab;}
.track.marked{height:66px;}
.track.marks_alone{height:32px;}
#axis{position:sticky;top:0;z-index:8;background:var(--paper);}
#axis .track{height:30px;}
.tick{
position:absolute;top:0;bottom:0;border-left:1px solid var(--line);padding:6px 0 0 3px;
font-size:11.5px;color:var(--soft);white-space:nowrap;}
.cell,.mark{min-width:0;min-height:0;max-width:none;white-space:nowrap;}
.cell{
position:absolute;bottom:3px;height:26px;padding:0;border:1px solid transparent;border-bottom:5px solid transparent;border-radius:2px;
font-size:11px;line-height:20px;text-align:center;overflow:hidden;background-clip:padding-box;cursor:pointer;}
.slim,.track .diamond{pointer-events:none;}
.many{z-index:1;}
.cell.none{background-color:var(--box);color:var(--ink);border-color:var(--edge);}
.cell.absent{background:none;border-bottom:1px dashed var(--edge);}
.cell.pass{background-color:var(--pass);color:var(--pass-ink);border-color:var(--pass-edge);}
.cell.stale{
background:linear-gradient(var(--stale),var(--stale)) 0 0/100% 75% no-repeat,
repeating-linear-gradient(45deg,var(--stale) 0 4px,transparent 4px 7px);
color:var(--stale-ink);border-color:var(--stale-edge);z-index:1;}
.cell.error{
background:linear-gradient(var(--error),var(--error)) 0 0/100% 75% no-repeat,
repeating-linear-gradient(90deg,var(--error) 0 4px,transparent 4px 7px);
color:var(--error-ink);border-color:var(--error);z-index:2;}
.cell.fail{background-color:var(--fail);color:var(--fail-ink);border-color:var(--fail);font-weight:700;height:30px;line-height:24px;z-index:3;}
.cell.many{border-top:3px dotted var(--ink);line-height:18px;}
.cell.fail.passes{background-image:linear-gradient(transparent calc(100% - 5px),var(--pass) 0);}
.cell.active{border-bottom:4px solid var(--ink);}
.cell.passive{border-bottom:4px dashed var(--held);}
.cell.mixed{border-bottom:5px double var(--ink);}
tr.holding td{font-weight:600;}
.cell.paused,.cell.mode_disabled{
background:repeating-linear-gradient(135deg,var(--box) 0 6px,var(--line) 6px 8px);color:var(--ink);font-weight:400;
border:1px dotted var(--edge);height:26px;line-height:23px;z-index:0;}
.cell.band{border:1px solid var(--edge);background-color:var(--box);color:var(--ink);padding-left:4px;text-align:left;height:26px;line-height:22px;font-weight:600;}
.cell.mode_active{background-color:var(--pass);color:var(--pass-ink);border:1px solid var(--pass-edge);border-bottom:4px solid var(--ink);}
.cell.mode_passive{
background:linear-gradient(var(--paper),var(--paper)) 0 0/100% 75% no-repeat,repeating-linear-gradient(45deg,var(--held) 0 3px,transparent 3px 7px);
border:1px solid var(--held);border-bottom:4px dashed var(--held);}
.cell.mode_absent{background:none;border-style:dashed;}
.hatch{position:absolute;top:1px;height:27px;background:repeating-linear-gradient(60deg,transparent 0 5px,var(--edge) 5px 6px);}
.cell.hatch > *,.cell.mode_passive > *{background:var(--paper);padding:0 3px;}
.cell.hatch{top:auto;height:26px;border:1px dashed var(--edge);}
.mark{
position:absolute;top:1px;height:25px;border:0;background:var(--paper);padding:0 4px;font-size:12px;
font-weight:700;line-height:25px;z-index:4;min-width:24px;text-align:left;}
.reach{position:absolute;top:26px;height:4px;min-width:2px;background:currentColor;z-index:4;pointer-events:none;}
.ink_request,td.request{color:var(--request);}
.ink_critical,.ink_error{color:var(--limit);}
.ink_info{color:var(--event);}
.ink_debug{color:var(--soft);}
.ink_command{color:var(--link);}
.chosen{outline:3px solid var(--link);outline-offset:-3px;}
.plot .name{color:var(--soft);padding-left:16px;}
.plot .track{height:92px;margin:4px 0;background:var(--box);cursor:crosshair;}
.plot svg{position:absolute;inset:0;width:100%;height:100%;}
.plot .shade{fill:var(--shade);}
.plot .between{fill:var(--between);}
.plot .line{fill:none;stroke:var(--ink);stroke-width:1.5;}
.plot .dots{stroke:var(--ink);stroke-width:4.5;stroke-linecap:round;}
.plot .limit{stroke:var(--limit);stroke-width:1.5;stroke-dasharray:6 4;}
.limit_text,.reading{
position:absolute;font-size:11px;line-height:14px;padding:0 3px;background:var(--paper);
white-space:nowrap;pointer-events:none;}
.limit_text{color:var(--limit);}
.reading{top:0;z-index:6;border:1px solid var(--edge);border-radius:3px;}
.cursor{position:absolute;top:0;bottom:0;border-left:1px solid var(--link);z-index:5;pointer-events:none;}
.diamond{
position:absolute;width:11px;height:11px;min-width:0;min-height:0;margin:-6px;padding:0;border:2px solid var(--fail);
border-radius:0;transform:rotate(45deg);background:var(--paper);z-index:3;}
table{border-collapse:collapse;width:100%;font-size:13px;}
th,td{text-align:left;padding:3px 8px 3px 0;border-top:1px solid var(--line);vertical-align:top;}
.number{text-align:right;padding-right:14px;white-space:nowrap;}
.instant,.holds,.whole{white-space:nowrap;}
td button{padding:0 6px;color:var(--link);text-align:left;}
.wide{overflow-x:auto;}
#reasons{display:none;}
@media (max-width:1000px){
dl{grid-template-columns:1fr;}
dl div{display:flex;gap:8px;}
dt{flex:0 0 58px;}}
@media (max-width:700px){
html{scroll-padding-top:54px;}
body{padding:8px;}
.row{grid-template-columns:minmax(0,1fr);}
.name{padding:2px 0 0;}
div.name{font-weight:600;color:var(--soft);}
.plot .name{display:flex;gap:10px;padding-left:0;}
.narrow,.instant{display:none;}
#sent tr{display:flex;flex-wrap:wrap;border-top:1px solid var(--line);}
#sent th,#sent td{border:0;}
#sent .number{flex:0 0 62px;}
#sent .kind{flex:0 0 76px;}
#sent .what{flex:1 0 100%;padding-left:12px;}
#headline{font-size:17px;}}
@media (prefers-reduced-motion:reduce){*{animation:none !important;transition:none !important;scroll-behavior:auto !important;}}
@media (forced-colors:active){.cell,.mark,.hatch,.diamond{forced-color-adjust:none;}}
body.printing{width:1040px;max-width:none;padding:0;margin:0;}
@media print{
:root{
color-scheme:light;
--ink:#000;--soft:#333;--line:#aaa;--paper:#fff;--box:#f4f4f4;--link:#000;--edge:#666;
--pass:#dcefe0;--pass-ink:#000;--pass-edge:#2f8550;--fail:#b00;--fail-ink:#fff;--stale:#f3d583;--stale-ink:#000;--stale-edge:#946c00;
--error:#6d4bb5;--error-ink:#fff;--request:#064;--event:#630;--limit:#900;--shade:#f3caca;--between:#73859e;--held:#a05a00;}
@page{size:A4 landscape;margin:10mm;}
*{print-color-adjust:exact;-webkit-print-color-adjust:exact;}
#controls,#panel,.unprinted{display:none !important;}
#axis{position:static;}
#reasons{display:block;}
.row,tr,li,#reasons section{break-inside:avoid;}
h2,h3,h4,#reasons p{break-after:avoid;break-inside:avoid;}
article{padding-top:10px;}
thead{display:table-header-group;}
.narrow,.instant{display:table-cell;}}
.no_epoch .instant{display:none !important;}
</style>
</head>
<body>
<header>
<h1>Run of the Limit Checker</h1>
<p id="part" class="cut" hidden></p>
<p id="ended"></p>
<noscript><p>A script of its own draws this page, and this browser does not run it.</p></noscript>
</header>
<main>
<section id="answers" aria-labelledby="headline"><h2 id="headline"></h2></section>
<section aria-label="Time line">
<form id="controls" aria-label="What is shown">
<span class="together">
<button type="button" id="out" aria-label="Zoom out">−</button>
<button type="button" id="in" aria-label="Zoom in">+</button>
<button type="button" id="earlier" aria-label="Earlier">←</button>
<button type="button" id="later" aria-label="Later">→</button>
<button type="button" id="all">show all</button>
</span>
<label>axis <select id="unit"></select></label>
<details id="finder">
<summary>find and filter</summary>
<div class="together">
<input type="search" id="words" placeholder="rule, condition, text" aria-label="Find a rule, a condition or a text">
<select id="rule" aria-label="Rule"></select>
<select id="kind" aria-label="Kind"></select>
<label><input type="checkbox" id="failed"> only rules that failed</label>
</div>
</details>
<details id="legend">
<summary>what the signs mean</summary>
<div class="signs">
<span><i class="cell pass active">pass</i></span>
<span><i class="cell fail active">FAIL</i> taller</span>
<span><i class="cell stale active">stale</i> slanted stripes</span>
<span><i class="cell error active">error</i> upright stripes</span>
<span><i class="cell none active">none</i> no result yet</span>
<span><i class="cell absent"></i> no such rule in force</span>
<span><i class="cell pass paused">off</i> grey: not sampled (rule disabled or off for good, LC disabled, or no sample came though it was due)</span>
<span><i class="cell fail active many passes">FAIL</i> dots above: several changes, the worst is shown; a strip below it: it passed, too</span>
<span><i class="cell pass active"></i> rule active</span>
<span><i class="cell pass passive">P</i> passive</span>
<span><i class="cell pass mixed"></i> several states</span>
<span><i class="cell band mode_active">A</i> <i class="cell band mode_passive"><b>P</b></i> <i class="cell band mode_disabled">D</i> mode active, passive, disabled</span>
<span><b class="ink_request">▼ 7</b> request of sequence 7</span>
<span><b class="ink_critical">▲</b> <b class="ink_error">■</b> <b class="ink_info">●</b> <b class="ink_debug">○</b> event: critical, error, info, debug, with its number</span>
<span><b class="ink_command">◆ load</b> a ground command, or an uplinked file or half</span>
<span><b>▼ 3× ● 2×</b> three requests and two info events</span>
<span><i class="box hatch"></i> requests, events or commands that are not on this page</span>
<span><i class="diamond"></i> a sample before a request</span>
<span><i class="box shade"></i> values with which the condition can be true</span>
<span><i class="box between"></i> from the least to the greatest of many values</span>
<span><i class="box limit"></i> a limit (↑ ↓: it lies beyond the plot)</span>
</div>
<p class="soft">Drag to move. Zoom with the wheel on the axis (anywhere with Ctrl or Shift) or with two fingers. Keys: + and − zoom, 0 is the whole run, ← and → move; in a lane they go from span to span, and Enter opens. In a plot they go from value to value. Escape closes what was opened.</p>
</details>
</form>
<div id="lanes"><section id="panel" aria-live="polite" aria-label="Why" hidden></section></div>
<p id="shown" class="soft" role="status"></p>
</section>
<section id="reasons" aria-label="Why"></section>
<section id="sent" aria-labelledby="sent_title">
<h2 id="sent_title">Requests and events</h2>
<p class="unprinted"><button type="button" id="csv">save as CSV</button> <span id="rows_shown" class="soft"></span></p>
<div class="wide"><table>
<thead><tr><th class="number">packet</th><th class="number">second</th><th class="instant">UTC</th><th class="number narrow">record</th><th class="kind">kind</th><th>rule</th><th class="what">what</th></tr></thead>
<tbody id="rows"></tbody>
</table></div>
<p id="more" class="soft unprinted">more</p>
</section>
</main>
<footer id="files">
<h2>Figures, files and program</h2>
<div id="figures"></div>
<p id="program"></p>
<div class="wide"><table>
<thead><tr><th>file</th><th>name</th><th class="number">bytes</th><th>SHA-256</th></tr></thead>
<tbody id="file_rows"></tbody>
</table></div>
</footer>
<script type="application/json" id="run">"#;
