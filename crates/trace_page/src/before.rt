//! The part of a page before its data. `page/build.py` writes this file.

/// The text before the data.
pub const BEFORE: &str = "<!doctype html>
<html lang=\"en\">
<head>
<meta charset=\"utf-8\">
<meta http-equiv=\"Content-Security-Policy\" content=\"default-src 'none'; script-src 'sha256-rSnuBOaxgwjbOajQibEkY6QM3EegugBZ6oG5jp9FScQ='; style-src 'sha256-H0JkLDrYvKMPXm/gHlvPwZngN7Rn4pikmcD2hjKHjUo='; base-uri 'none'; form-action 'none'; require-trusted-types-for 'script'; trusted-types 'none'\">
<meta name=\"viewport\" content=\"width=device-width, initial-scale=1\">
<meta name=\"referrer\" content=\"no-referrer\">
<title>afx trace</title>
<style>:root {
  color-scheme: light;
  --bg: #eef1f5; --panel: #fff; --ink: #17212c; --soft: #55626f; --line: #d9dfe6; --lane: #f3f5f8; --mark: #fff3c4;
  --cursor: #17212c; --gold: #b7791f; --hit: #c1121f; --focus: #0b63ce; --shade: #17212c14; --on: #fff;
  --rescue: #1b7f3b;
  --w0: #0072b2; --w1: #c25400; --w2: #00805d; --w3: #a8427f; --w4: #8a6d00; --w5: #2f6fd6; --w6: #7b4fb5; --w7: #6b5139;
}
:root[data-theme=dark] {
  color-scheme: dark;
  --bg: #0c1116; --panel: #151c24; --ink: #e8eef4; --soft: #9aa8b6; --line: #28323d; --lane: #1b242e; --mark: #4a3d10;
  --cursor: #fff; --gold: #f2c14e; --hit: #ff8c94; --focus: #6db3ff; --shade: #ffffff14; --on: #0c1116;
  --rescue: #6fd08c;
  --w0: #5ab4e6; --w1: #ff9a52; --w2: #41c79f; --w3: #e79ac5; --w4: #e6c33a; --w5: #8db4ff; --w6: #c3a2f2; --w7: #cdb08f;
}
* { box-sizing: border-box; }
[hidden] { display: none !important; }
html, body { height: 100%; margin: 0; }
body {
  display: grid; grid-template-rows: auto minmax(0, 1fr) auto; background: var(--bg); color: var(--ink);
  font: 14px/1.4 system-ui, \"Segoe UI\", Roboto, \"DejaVu Sans\", sans-serif;
}
code, pre, .mono { font-family: ui-monospace, \"Cascadia Mono\", \"DejaVu Sans Mono\", Menlo, Consolas, monospace; }

/* the head of the page */
header { display: flex; align-items: center; gap: 4px 18px; flex-wrap: wrap; padding: 7px 14px 5px; }
h1 { font-size: 16px; margin: 0; font-weight: 650; letter-spacing: .01em; }
#name { color: var(--soft); font-weight: 400; overflow-wrap: anywhere; }
.facts { display: flex; gap: 2px 16px; flex-wrap: wrap; flex: 1 0 100%; margin: 0; }
.facts div { white-space: nowrap; }
.facts dt { display: inline; color: var(--soft); font-size: 12.5px; }
.facts dd { display: inline; margin: 0 0 0 5px; font-weight: 600; font-variant-numeric: tabular-nums; }
.tools { display: flex; gap: 6px; flex-wrap: wrap; align-items: center; margin-left: auto; }
.tools output { color: var(--soft); font-size: 12.5px; }
.tools output:empty { display: none; }
button, select, input[type=search] {
  font: inherit; color: inherit; background: var(--panel); border: 1px solid var(--line); border-radius: 7px;
  padding: 3px 10px; min-height: 30px;
}
button, select { cursor: pointer; }
input[type=search] { width: 230px; }
button:hover, select:hover { border-color: var(--soft); }
:focus-visible { outline: 2px solid var(--focus); outline-offset: 1px; }
button[aria-pressed=true] { background: var(--ink); color: var(--panel); }
button svg { display: block; width: 15px; height: 15px; fill: currentColor; }
.link {
  min-height: 0; padding: 0 4px; border: 1px solid var(--line); border-radius: 4px; background: none; font-size: 11.5px;
  line-height: 17px;
}
.link:hover { border-color: var(--ink); }

/* panels */
main { display: grid; grid-template-columns: minmax(280px, 32%) minmax(0, 1fr); gap: 8px; padding: 0 10px; min-height: 0; }
.panel {
  background: var(--panel); border: 1px solid var(--line); border-radius: 10px; overflow: hidden; display: flex;
  flex-direction: column; min-height: 0; min-width: 0;
}
.panel > h2 {
  white-space: nowrap; font-size: 12.5px; font-weight: 600; margin: 0; padding: 6px 12px 5px; color: var(--soft);
  border-bottom: 1px solid var(--line); display: flex; gap: 10px; align-items: baseline;
}
.panel > h2 small { font-weight: 400; font-size: 12px; margin-left: auto; text-align: right; overflow: hidden; text-overflow: ellipsis; }
.panel > h2 [role=tab], .choice button {
  min-height: 0; padding: 0 2px; border: 0; border-bottom: 2px solid transparent; border-radius: 0; background: none;
  font-weight: 600; color: var(--soft);
}
.panel > h2 [role=tab][aria-selected=true], .choice button[aria-pressed=true] { color: var(--ink); border-bottom-color: var(--ink); background: none; }
.choice, [role=tablist] { display: flex; gap: 8px; }
.choice button { font-weight: 400; }
.right { display: grid; grid-template-rows: auto minmax(90px, 1fr) minmax(150px, 31%); gap: 8px; min-height: 0; min-width: 0; }
.cards { display: grid; grid-template-columns: 1.1fr 1fr 1.15fr; gap: 8px; min-height: 0; }
.scroll { overflow: auto; flex: 1; padding: 4px 0; font-size: 12.5px; min-height: 0; position: relative; contain: content; }
.scroll > small { padding: 4px 12px; display: block; color: var(--soft); }

/* the program */
#text { overflow-anchor: none; padding: 6px 0 20px; font-size: 13px; line-height: 20px; }
.line {
  display: grid; grid-template-columns: 40px 40px 32px 1fr auto; white-space: pre; min-width: max-content; padding-right: 12px;
  content-visibility: auto; contain-intrinsic-height: 20px;
}
.line .number { color: var(--soft); text-align: right; font-size: 11.5px; user-select: none; }
.line .label { text-align: right; font-size: 11.5px; font-weight: 600; user-select: none; }
.line .heat { margin: 7px 0 6px 6px; height: 6px; border-radius: 0 3px 3px 0; background: var(--gold); opacity: .75; }
.line .who { display: flex; gap: 2px; padding: 2px 0 0 10px; position: sticky; right: 0; }
.line .who:not(:empty) { padding-right: 12px; margin-right: -12px; background: var(--panel); box-shadow: -8px 0 6px var(--panel); }
.head { border-radius: 3px; cursor: pointer; }
.head:hover { background: var(--shade); }
.head.near { background: var(--shade); }
.head.now { background: var(--mark); box-shadow: 0 0 0 2px var(--mark); }
.head.hit { text-decoration: underline 2px var(--hit); text-underline-offset: 3px; }
.line b { font-weight: 650; }
.line i { color: var(--soft); font-style: normal; }
.chip-worker {
  display: inline-flex; align-items: center; justify-content: center; min-width: 16px; height: 16px; padding: 0 3px;
  border-radius: 4px; color: var(--on); font: 700 11px/16px system-ui, \"DejaVu Sans\", sans-serif; flex: none;
}

/* tables */
table { border-collapse: collapse; }
#labels table { width: 100%; }
#labels th { text-align: right; position: sticky; top: -4px; background: var(--panel); padding: 2px 6px; font-weight: 600; }
#labels th:last-child { text-align: left; color: var(--soft); }
#labels td { text-align: right; padding: 1px 8px; font-variant-numeric: tabular-nums; white-space: nowrap; }
#labels td:last-child { text-align: left; width: 99%; }
#labels tr.hit td { background: var(--mark); }
#labels tbody tr { cursor: pointer; }
#labels tbody tr:hover td { background: var(--shade); }
.share { display: inline-block; height: 7px; margin-right: 6px; background: var(--gold); opacity: .75; border-radius: 2px; }
.scalars { margin: 2px 12px 4px; }
.scalars td { padding: 0 14px 0 0; }
.scalars .value { text-align: right; font-weight: 600; }
.scalars tr.now td { background: var(--mark); }

/* drawings */
.lanes { overflow: hidden auto; max-height: 36vh; }
.drawing { position: relative; touch-action: none; }
.drawing canvas { display: block; width: 100%; position: absolute; inset: 0; }
.drawing canvas:first-child { position: static; }
#rows { flex: 1; overflow: hidden auto; position: relative; min-height: 0; }
#rows .stick { position: sticky; top: 0; height: 0; z-index: 1; }
#rows canvas { display: block; position: absolute; top: 0; left: 0; }

/* lists */
.event { display: grid; grid-template-columns: 66px 22px 1fr; gap: 4px; align-items: center; padding: 0 10px; line-height: 20px; cursor: pointer; white-space: nowrap; }
.event span:last-child { overflow: hidden; text-overflow: ellipsis; white-space: pre; }
.event .mono { color: var(--soft); text-align: right; font-size: 12px; }
.event:hover { background: var(--shade); }
.event.now { background: var(--mark); font-weight: 600; }
.event.later { color: var(--soft); }
.task { display: flex; gap: 6px; align-items: center; white-space: nowrap; line-height: 20px; padding-right: 12px; }
.task.now { background: var(--mark); }
.task .sign { width: 14px; text-align: center; }
.task code { overflow: hidden; text-overflow: ellipsis; }
.item { padding: 4px 12px 5px; border-bottom: 1px solid var(--line); }
.item:last-child { border: 0; }
.item > small { display: block; }
.item .top { display: flex; gap: 6px; align-items: center; white-space: nowrap; }
.item .top code { overflow: hidden; text-overflow: ellipsis; }
.item .top small { overflow: hidden; text-overflow: ellipsis; }
small { color: var(--soft); font-size: 12px; }
.bar { display: flex; height: 9px; border-radius: 3px; overflow: hidden; background: var(--lane); margin: 3px 0 2px; }
.bar i { display: block; min-width: 1px; border-right: 1px solid var(--panel); }
.cells { display: flex; flex-wrap: wrap; gap: 1px 3px; font-size: 12px; margin-top: 2px; }
.cell { padding: 0 4px; border: 1px solid transparent; border-radius: 3px; min-width: 18px; text-align: right; }
.cell.owned { border-color: var(--line); background: var(--lane); }
.cell.copied { border: 1px dashed var(--soft); }
.cell.given, .cell.foreign { color: var(--soft); }
.cell.now { background: var(--mark); font-weight: 700; }
.output { padding: 0 12px; font-family: ui-monospace, \"DejaVu Sans Mono\", monospace; white-space: pre-wrap; overflow-wrap: anywhere; cursor: pointer; }
.output:hover { background: var(--shade); }
.output.fault { color: var(--hit); }

/* the foot of the page */
footer { display: flex; gap: 8px; align-items: center; padding: 8px 12px 10px; }
footer input[type=range] { flex: 1; min-width: 120px; accent-color: var(--ink); }
#say { contain: content; flex: 0 1 46%; min-width: 0; white-space: nowrap; overflow: hidden; text-overflow: ellipsis; font-weight: 550; }
#tip {
  position: fixed; pointer-events: none; z-index: 9; background: var(--ink); color: var(--panel); border-radius: 7px;
  padding: 6px 10px; font-size: 12.5px; max-width: min(520px, 92vw); box-shadow: 0 4px 16px #0005; overflow-wrap: anywhere;
}
dialog { border: 1px solid var(--line); border-radius: 12px; background: var(--panel); color: var(--ink); max-width: 640px; padding: 18px 22px; }
dialog h2 { margin: 0 0 6px; font-size: 17px; }
dialog p { margin: 6px 0 12px; color: var(--soft); }
dialog::backdrop { background: #0007; }
dialog td { padding: 3px 14px 3px 0; vertical-align: top; }
kbd {
  font: 12px ui-monospace, \"DejaVu Sans Mono\", monospace; border: 1px solid var(--line); border-bottom-width: 2px;
  border-radius: 4px; padding: 0 5px; background: var(--lane);
}

/* other schedules */
#schedules { width: min(1200px, 96vw); max-width: none; }
#schedules .columns { display: grid; grid-template-columns: 1.2fr 1.1fr 1fr; gap: 14px; }
#schedules section { min-width: 0; }
#schedules h3 { margin: 0 0 4px; font-size: 13px; }
#schedules .scroll { height: min(52vh, 480px); border: 1px solid var(--line); border-radius: 8px; }
#schedules .tools { margin: 0; color: var(--ink); }
#schedules .close { position: absolute; top: 14px; right: 18px; }
#command { overflow-wrap: anywhere; max-height: 4.5em; overflow: auto; color: var(--ink); font-size: 12.5px; }
.leaf { display: flex; gap: 7px; align-items: center; padding: 1px 10px; line-height: 24px; white-space: nowrap; }
.leaf button { min-height: 22px; padding: 0 8px; font-weight: 700; font-variant-numeric: tabular-nums; }
.leaf .sign { width: 28px; text-align: center; color: var(--soft); }
.leaf code { overflow: hidden; text-overflow: ellipsis; }
.leaf span.link { border: 0; }
.body { margin: 2px 0 2px 10px; border-left: 3px solid var(--line); }
.body > small { padding: 0 10px; }
#chosen .event { grid-template-columns: 40px 28px 1fr; column-gap: 8px; }
.choice-number { justify-self: end; min-width: 22px; padding: 0 4px; border: 1px solid var(--line); border-radius: 4px;
  line-height: 16px; text-align: center; font-variant-numeric: tabular-nums; }

/* narrow windows, and large ones at 200 % */
@media (max-width: 900px), (max-height: 520px) {
  html, body { height: auto; }
  body { display: block; }
  main { display: block; padding: 0 8px; }
  .panel { margin-bottom: 8px; }
  .right, .cards { display: block; }
  #text, #labels { max-height: 45vh; min-height: 160px; }
  #rows { height: 40vh; min-height: 160px; }
  .cards .scroll { height: 200px; }
  #schedules .columns { display: block; }
  #schedules .scroll { height: 30vh; }
  footer { position: sticky; bottom: 0; z-index: 3; background: var(--bg); flex-wrap: wrap; }
  #say { order: -1; flex: 1 0 100%; white-space: normal; }
}

/* one page of paper */
@page { size: A4 landscape; margin: 8mm; }
@media print {
  html, body { height: 190mm; width: 280mm; overflow: hidden; background: #fff; font-size: 11px; }
  body { display: grid; }
  main { display: grid; padding: 0; }
  .right { display: grid; }
  .cards { display: grid; }
  .tools, footer button, footer select, footer input[type=range], .choice, #tip { display: none; }
  footer { padding: 2px 12px; position: static; }
  canvas { max-width: 100%; }
  .panel { break-inside: avoid; }
  * { print-color-adjust: exact; -webkit-print-color-adjust: exact; }
}
</style>
</head>
<body>
<header>
<h1><span id=\"what\">afx trace</span> <span id=\"name\"></span></h1>
<div class=\"tools\">
<input id=\"find\" type=\"search\" placeholder=\"path, label, @event, text\" aria-label=\"Search by path, label, event or text\" autocomplete=\"off\" spellcheck=\"false\">
<output id=\"found\" for=\"find\"></output>
<button id=\"chain\" data-key=\"s\" type=\"button\" aria-pressed=\"false\" title=\"the longest chain of steps: the span (s)\">Longest chain</button>
<button id=\"choices\" data-key=\"x\" type=\"button\" title=\"choose which task takes each step (x)\">Schedules</button>
<button id=\"copy\" type=\"button\" title=\"copy a link that restores this view\">Copy link</button>
<button id=\"theme\" data-key=\"t\" type=\"button\" title=\"light or dark (t)\">Dark</button>
<button data-key=\"?\" type=\"button\" title=\"all keys (?)\">Keys</button>
</div>
<dl class=\"facts\" id=\"facts\"></dl>
</header>
<main>
<section class=\"panel\" id=\"program\" aria-label=\"Program\">
<h2 data-tabs=\"program\"><span role=\"tablist\"><button role=\"tab\" id=\"tab-text\" aria-controls=\"text\" type=\"button\">Program</button><button role=\"tab\" id=\"tab-labels\" aria-controls=\"labels\" type=\"button\">Labels</button></span><small id=\"text-note\">line, label, share of the steps</small><small id=\"labels-note\" hidden></small></h2>
<div id=\"text\" class=\"scroll mono\" tabindex=\"0\" role=\"tabpanel\" aria-labelledby=\"tab-text\"></div>
<div id=\"labels\" class=\"scroll\" tabindex=\"0\" role=\"tabpanel\" aria-labelledby=\"tab-labels\" hidden></div>
</section>
<div class=\"right\">
<section class=\"panel\" aria-label=\"Workers over events\"><h2>Workers <small><span id=\"range\"></span> · <span id=\"steals-note\"></span></small></h2>
<div class=\"drawing\" id=\"over\"><canvas></canvas><canvas></canvas></div>
<div class=\"lanes\"><div class=\"drawing\" id=\"lanes\" tabindex=\"0\" role=\"slider\" aria-label=\"Event under the cursor\" aria-valuemin=\"0\"><canvas></canvas><canvas></canvas></div></div></section>
<section class=\"panel\" aria-label=\"Tasks over events\"><h2>Tasks <span class=\"choice\"><button id=\"rows-tree\" type=\"button\" title=\"tasks in the order of their paths (r)\">tree</button><button id=\"rows-packed\" type=\"button\" title=\"tasks in as few rows as possible (r)\">packed</button><button id=\"rows-finishes\" type=\"button\" title=\"finishes (r)\">finishes</button></span><small id=\"rows-note\"></small></h2>
<div id=\"rows\" tabindex=\"0\"><div class=\"stick\"><canvas></canvas><canvas></canvas></div><div id=\"tall\"></div></div></section>
<div class=\"cards\">
<section class=\"panel\"><h2 data-tabs=\"first\"><span role=\"tablist\"><button role=\"tab\" id=\"tab-log\" aria-controls=\"log\" type=\"button\">Events</button><button role=\"tab\" id=\"tab-output\" aria-controls=\"output\" type=\"button\">Output</button></span><small id=\"log-note\"></small><small id=\"output-note\" hidden></small></h2>
<div class=\"scroll\" id=\"log\" role=\"tabpanel\" aria-labelledby=\"tab-log\" tabindex=\"0\"></div><div class=\"scroll\" id=\"output\" role=\"tabpanel\" aria-labelledby=\"tab-output\" tabindex=\"0\" hidden></div></section>
<section class=\"panel\"><h2 data-tabs=\"second\"><span role=\"tablist\"><button role=\"tab\" id=\"tab-scopes\" aria-controls=\"scopes\" type=\"button\">Finishes</button><button role=\"tab\" id=\"tab-tasks\" aria-controls=\"tasks\" type=\"button\">Tasks</button></span><small id=\"scopes-note\"></small><small id=\"tasks-note\" hidden></small></h2>
<div class=\"scroll\" id=\"scopes\" role=\"tabpanel\" aria-labelledby=\"tab-scopes\" tabindex=\"0\"></div><div class=\"scroll\" id=\"tasks\" role=\"tabpanel\" aria-labelledby=\"tab-tasks\" tabindex=\"0\" hidden></div></section>
<section class=\"panel\"><h2 data-tabs=\"third\"><span role=\"tablist\"><button role=\"tab\" id=\"tab-workers\" aria-controls=\"workers\" type=\"button\">Workers</button><button role=\"tab\" id=\"tab-values\" aria-controls=\"values\" type=\"button\">Values</button></span><small id=\"values-note\" hidden></small></h2>
<div class=\"scroll\" id=\"workers\" role=\"tabpanel\" aria-labelledby=\"tab-workers\" tabindex=\"0\"></div><div class=\"scroll\" id=\"values\" role=\"tabpanel\" aria-labelledby=\"tab-values\" tabindex=\"0\" hidden></div></section>
</div></div>
</main>
<footer>
<button data-key=\"Home\" type=\"button\" aria-label=\"First event\"><svg viewBox=\"0 0 16 16\"><path d=\"M2 2h2v12H2zM14 2v12L5 8z\"/></svg></button>
<button data-key=\"ArrowLeft\" type=\"button\" aria-label=\"One event back\"><svg viewBox=\"0 0 16 16\"><path d=\"M12 2v12L3 8z\"/></svg></button>
<button data-key=\" \" id=\"play\" type=\"button\" aria-label=\"Play\"><svg viewBox=\"0 0 16 16\"><path d=\"M3 2l11 6-11 6z\"/></svg></button>
<button data-key=\"ArrowRight\" type=\"button\" aria-label=\"One event on\"><svg viewBox=\"0 0 16 16\"><path d=\"M4 2v12l9-6z\"/></svg></button>
<button data-key=\"End\" type=\"button\" aria-label=\"Last event\"><svg viewBox=\"0 0 16 16\"><path d=\"M12 2h2v12h-2zM2 2v12l9-6z\"/></svg></button>
<select id=\"speed\" aria-label=\"Speed of play\"><option value=\"3\">3 a second</option><option value=\"12\" selected>12 a second</option><option value=\"60\">60 a second</option><option value=\"600\">600 a second</option><option value=\"0\">all in 20 s</option></select>
<button data-key=\"PageDown\" type=\"button\" title=\"next steal (Page Down)\">Next steal</button>
<button data-key=\"]\" type=\"button\" title=\"next open or pass of a finish (])\">Next finish</button>
<button data-key=\"0\" type=\"button\" title=\"the whole run (0)\">Fit</button>
<input type=\"range\" id=\"slide\" min=\"0\" step=\"1\" aria-label=\"Event\">
<div id=\"say\" aria-live=\"polite\"></div>
</footer>
<div id=\"tip\" role=\"tooltip\" hidden></div>
<dialog id=\"help\" aria-labelledby=\"help-title\"><h2 id=\"help-title\">Keys</h2><table>
<tr><td><kbd>←</kbd> <kbd>→</kbd></td><td>one event back, on; with <kbd>Shift</kbd> ten</td></tr>
<tr><td><kbd>↑</kbd> <kbd>↓</kbd></td><td>the previous, next event of the same task</td></tr>
<tr><td><kbd>Page Up</kbd> <kbd>Page Down</kbd></td><td>the previous, next steal</td></tr>
<tr><td><kbd>[</kbd> <kbd>]</kbd></td><td>the previous, next open or pass of a finish</td></tr>
<tr><td><kbd>m</kbd> <kbd>n</kbd> <kbd>N</kbd></td><td>mark the statement at the cursor; its next, previous execution</td></tr>
<tr><td><kbd>Home</kbd> <kbd>End</kbd></td><td>the first, the last event</td></tr>
<tr><td><kbd>+</kbd> <kbd>-</kbd> <kbd>0</kbd></td><td>closer, farther, the whole run; or turn the wheel over the lanes, and drag</td></tr>
<tr><td><kbd>a</kbd> <kbd>d</kbd></td><td>move the part in view to the left, to the right</td></tr>
<tr><td><kbd>Enter</kbd> <kbd>Esc</kbd></td><td>select the task at the cursor; unmark all</td></tr>
<tr><td><kbd>Space</kbd></td><td>play, pause</td></tr>
<tr><td><kbd>r</kbd> <kbd>l</kbd></td><td>tasks as a tree, packed, finishes; the text or the table of labels</td></tr>
<tr><td><kbd>x</kbd></td><td>other schedules: choose which task takes each step</td></tr>
<tr><td><kbd>s</kbd> <kbd>t</kbd> <kbd>/</kbd> <kbd>?</kbd></td><td>longest chain, light or dark, search, this list</td></tr></table>
<p>A trace has no clock: the horizontal axis is the number of the event. A solid mark is an event that takes a step. A finish passes once all weight that it has issued is back. Its bar shows the weight that is back, and which tasks hold the rest (hatched: a task that doesn't run).</p>
<form method=\"dialog\"><button autofocus>Close</button></form></dialog>
<dialog id=\"schedules\" aria-labelledby=\"schedules-title\"><h2 id=\"schedules-title\">Which task takes the next step?</h2>
<p id=\"schedules-why\"></p>
<div id=\"schedules-all\"><div class=\"columns\">
<section><h3>Tasks <small id=\"tree-note\"></small></h3><div id=\"tree\" class=\"scroll\" tabindex=\"0\" autofocus></div></section>
<section><h3>Steps so far, with their choices <small id=\"chosen-note\"></small></h3><div id=\"chosen\" class=\"scroll\" tabindex=\"0\"></div></section>
<section><h3>Arrays and output</h3><div id=\"reached\" class=\"scroll\" tabindex=\"0\"></div></section></div>
<p class=\"mono\" id=\"command\"></p>
<p class=\"tools\"><button id=\"undo\" data-choosing=\"Backspace\" type=\"button\" title=\"Backspace\">Back one step</button><button data-choosing=\"Home\" type=\"button\" title=\"Home\">Start again</button><button id=\"random\" data-choosing=\"r\" type=\"button\" title=\"r\">Random step</button><button id=\"leftmost\" data-choosing=\"End\" type=\"button\" title=\"End: the first task takes each step\">To the end</button></p></div>
<form method=\"dialog\" class=\"close\"><button>Close</button></form></dialog>
<script type=\"application/json\" id=\"data\">";
