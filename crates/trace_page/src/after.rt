//! The part of a page after its data. `page/build.py` writes this file.

/// The text after the data.
pub const AFTER: &str = "</script>
<script>'use strict';
// Small helpers: elements of the page, numbers as text, sorted lists, and numbers in groups.

const byId = id => document.getElementById(id);

// A new element. Its children are elements and texts; a text never becomes markup.
function make(tag, attributes, ...children) {
  const element = document.createElement(tag);
  for (const name of Object.keys(attributes || {})) {
    const value = attributes[name];
    if (value !== null && value !== false) element.setAttribute(name, value === true ? '' : value);
  }
  for (const child of children.flat()) if (child !== null) element.append(child);
  return element;
}

function fill(element, ...children) {
  element.replaceChildren(...children.flat().filter(child => child !== null));
}

const grouped = new Intl.NumberFormat('en');
const num = n => grouped.format(n);

// A count with its noun: `1 task`, `2 tasks`.
const count = (n, noun) => num(n) + ' ' + noun + (n === 1 ? '' : 's');

const clamp = (n, least, most) => Math.max(least, Math.min(most, n));

// A list of so many integers, each made of its position. Typed arrays make lists of a function more slowly.
function integers(n, of) {
  const list = new Int32Array(n);
  for (let i = 0; i < n; i++) list[i] = of(i);
  return list;
}

// The position of the last number of a sorted list that is at most `limit`, between two positions; `from - 1` if none is.
function lastUpTo(list, limit, from = 0, to = list.length) {
  let low = from;
  let high = to;
  while (low < high) {
    const middle = (low + high) >> 1;
    if (list[middle] <= limit) low = middle + 1; else high = middle;
  }
  return low - 1;
}

// Items in groups by a key below `keys`, each group in the order of the items. A key below 0 puts an item into no group.
function groups(keyOf, keys) {
  const start = new Int32Array(keys + 1);
  const n = keyOf.length;
  for (let i = 0; i < n; i++) if (keyOf[i] >= 0) start[keyOf[i] + 1]++;
  for (let k = 0; k < keys; k++) start[k + 1] += start[k];
  const next = start.slice(0, keys);
  const items = new Int32Array(start[keys]);
  for (let i = 0; i < n; i++) if (keyOf[i] >= 0) items[next[keyOf[i]]++] = i;
  return {start, items};
}

// The position in `items` of the last item of a group whose event, in `at`, is at most `event`; -1 if there is none.
function lastOf(group, key, at, event) {
  let low = group.start[key];
  let high = group.start[key + 1];
  const first = low;
  while (low < high) {
    const middle = (low + high) >> 1;
    if (at[group.items[middle]] <= event) low = middle + 1; else high = middle;
  }
  return low === first ? -1 : low - 1;
}

// A slice of a group, as an array of its items.
const itemsOf = (group, key) => group.items.subarray(group.start[key], group.start[key + 1]);
// The data of the page, as lists by columns. docs/TRACE-PAGE.md describes each member of the data.

// For each name, the list of what the rows have there.
function byColumns(rows, names) {
  const lists = {};
  names.forEach((name, i) => { lists[name] = rows.map(row => row[i]); });
  return lists;
}

// Most of the data is the list of changes. It is read from its text: a list of JSON for each event would take longer to make
// than all the rest. No string of JSON contains these texts, because its quotes are escaped.
const BEFORE_CHANGES = '\"trace\":{\"changes\":[';
const AFTER_CHANGES = '],\"header\":';

function readData(text) {
  const from = text.indexOf(BEFORE_CHANGES) + BEFORE_CHANGES.length;
  const to = text.indexOf(AFTER_CHANGES, from);
  const data = readParts(JSON.parse(text.slice(0, from) + text.slice(to)));
  readChanges(data, text, from, to);
  return data;
}

// A page of `explore --html` shows events of no trace's file.
function readParts({layout, program, trace}) {
  const data = {
    name: program.name, text: program.text, places: byColumns(program.places, ['line', 'column']),
    arrays: program.arrays.map((array, i) => ({...array, initial: trace.initial[i]})),
    cost: program.cost && {work: program.cost.work.slice(1), span: program.cost.span.slice(1)},
    trace: trace.name, isExplored: trace.name === '', header: trace.header, summary: trace.summary,
    events: {kinds: trace.kinds, labels: trace.labels, tasks: trace.tasks},
    tasks: tasksOf(trace), chain: onChain(layout.chain), steals: byColumns(layout.steals, ['at', 'worker', 'from']),
  };
  data.tasks.row = layout.task_rows;
  data.spells = byColumns(layout.spells, ['at', 'last', 'worker', 'ending']);
  data.spells.task = data.spells.at.map(at => trace.tasks[at]);
  data.scopes = byColumns(layout.finishes, ['at', 'last', 'isPassed', 'parked', 'number']);
  data.scopes.owner = data.scopes.at.map((at, scope) => (scope === 0 ? 0 : trace.tasks[at]));
  data.scopes.passed = data.scopes.last.map((last, scope) => (data.scopes.isPassed[scope] ? last : null));
  data.scopes.row = layout.finish_rows;
  data.lanes = 1 + Math.max(trace.header.workers - 1, largest(data.spells.worker), largest(data.steals.worker),
    largest(data.steals.from));
  return data;
}

// The numbers of the marked events.
function onChain(marks) {
  const events = [];
  for (let e = marks.indexOf('1'); e >= 0; e = marks.indexOf('1', e + 1)) events.push(e);
  return events;
}

// The parent of each task, and its number among the children of that. The k-th task is that of the k-th spawn.
function tasksOf({kinds, tasks}) {
  const parent = [0];
  const number = [0];
  const children = [0];
  for (let e = kinds.indexOf('w'); e >= 0; e = kinds.indexOf('w', e + 1)) {
    parent.push(tasks[e]);
    number.push(++children[tasks[e]]);
    children.push(0);
  }
  return {parent, number};
}

const [QUOTE, COMMA, MINUS, ZERO, NINE, LIST, LIST_END, TRUE, FALSE] = Array.from('\",-09[]tf', c => c.charCodeAt(0));

// Reads the values of a JSON text without spaces one after the other. Its strings have no escapes.
function valuesIn(text, from) {
  const reader = {at: from};
  reader.next = () => {
    const code = text.charCodeAt(reader.at);
    if (code === QUOTE) return string();
    if (code === LIST) return list();
    if (code !== TRUE && code !== FALSE) return number(code === MINUS);
    reader.at += code === TRUE ? 4 : 5;
    return code === TRUE;
  };
  const string = () => {
    const first = reader.at + 1;
    const last = text.indexOf('\"', first);
    reader.at = last + 1;
    return text.slice(first, last);
  };
  const number = isBelow0 => {
    if (isBelow0) reader.at++;
    let n = 0;
    for (let code = text.charCodeAt(reader.at); code >= ZERO && code <= NINE; code = text.charCodeAt(++reader.at)) {
      n = 10 * n + code - ZERO;
    }
    return isBelow0 ? -n : n;
  };
  const list = () => {
    const all = [];
    reader.at++;
    while (text.charCodeAt(reader.at) !== LIST_END) {
      all.push(reader.next());
      if (text.charCodeAt(reader.at) === COMMA) reader.at++;
    }
    reader.at++;
    return all;
  };
  return reader;
}

// What the events change, each kind of change in lists of its own. The text has a list of changes for each event.
function readChanges(data, text, from, to) {
  const {kinds, tasks} = data.events;
  const books = data.books = {issued: [], returned: []};
  const weights = data.weights = {own: [], child: []};
  const scalars = data.scalars = {at: [], slot: [], value: []};
  const windows = data.windows = {at: [], section: [], array: [], first: [], length: []};
  const flows = data.flows = {at: [], flow: []};
  const stores = data.stores = {at: [], array: [], index: [], value: []};
  const lines = data.lines = {at: [], values: []};
  const faults = data.faults = {at: [], text: []};
  const gathered = data.gathered = {at: [], count: []};
  const given = data.given = {task: [], mayWrite: [], array: [], first: [], length: []};
  const lists = {
    w: [weights.own], c: [weights.child], b: [books.issued, books.returned], x: [scalars.slot, scalars.value],
    s: [windows.section, windows.array, windows.first, windows.length], f: [flows.flow],
    e: [stores.array, stores.index, stores.value], p: [lines.values], q: [faults.text], g: [gathered.count],
    n: [given.mayWrite, given.array, given.first, given.length],
  };
  const at = {x: scalars.at, s: windows.at, f: flows.at, e: stores.at, p: lines.at, q: faults.at, g: gathered.at};
  const flowOfTask = [];
  const reader = valuesIn(text, from);
  let child = 0;
  for (let e = 0; reader.at < to; e++) {
    if (kinds[e] === 'w') child++;
    reader.at++;                                        // the list of the event
    while (text.charCodeAt(reader.at) !== LIST_END) {
      const kind = text[reader.at + 2];                 // as in `[\"x\",0,1]`
      reader.at += 4;
      const list = lists[kind];
      const length = list[0].length;
      for (let i = 0; i < list.length; i++) {
        reader.at++;
        list[i].push(reader.next());
      }
      reader.at += text.charCodeAt(reader.at + 1) === COMMA ? 2 : 1;
      if (kind === 'f' && (flowOfTask[tasks[e]] || 'o') === flows.flow[length]) {
        flows.flow.length = length;                     // a flow that the task had
        continue;
      }
      if (kind === 'f') flowOfTask[tasks[e]] = flows.flow[length];
      if (kind === 'n') given.task.push(child);
      else if (at[kind]) at[kind].push(e);
    }
    reader.at += 2;
  }
}
// The text of the program: its tokens, the head of each statement, and where each name is in scope.

const WORDS = new Set(('and array as async at by byte else false fault finish if int len main mut not or parts print proc ' +
  'read rescue skip split true var while').split(' '));
const TOKEN = /\\/\\/[^\\n]*|[A-Za-z_][A-Za-z_0-9]*|[0-9]+|<=|>=|==|!=|[(){}[\\],;:=+\\-*/%<>]/g;

// The program as the page shows it: lines, tokens, and for each label where its head begins and ends in the text.
function readProgram(data) {
  const text = data.text;
  const lineStarts = [0];
  for (let at = text.indexOf('\\n'); at >= 0; at = text.indexOf('\\n', at + 1)) lineStarts.push(at + 1);
  const tokens = Array.from(text.matchAll(TOKEN), found => ({at: found.index, text: found[0]}));
  const labels = data.places.line.length;
  const heads = [{from: 0, to: 0, line: 0, block: false}];
  let token = 0;
  for (let i = 0; i < labels; i++) {
    const from = lineStarts[data.places.line[i] - 1] + data.places.column[i] - 1;
    while (token < tokens.length && tokens[token].at < from) token++;
    heads.push(headFrom(tokens, token, data.places.line[i]));
  }
  const program = {name: data.name, text, lineStarts, tokens, labels, heads, procedures: [], ranges: [], arrays: data.arrays,
    rescues: new Set()};
  readProcedures(program);
  return program;
}

// The head of the statement that begins with a token: up to its `;`, or up to the `{` of its block.
function headFrom(tokens, first, line) {
  let last = first;
  while (last < tokens.length && tokens[last].text !== ';' && tokens[last].text !== '{') last++;
  const block = last < tokens.length && tokens[last].text === '{';
  const end = tokens[Math.min(block ? last - 1 : last, tokens.length - 1)];
  return {from: tokens[first].at, to: end.at + end.text.length, line, block};
}

// Reads the procedures: their labels, the names of their scalars and sections, and the part of the text in which each name is
// in scope. Scalars and sections are declared in the order of their numbers. Also finds the labels of finishes with a rescue.
function readProcedures(program) {
  const tokens = program.tokens.filter(token => !token.text.startsWith('//'));
  let names = null;
  let ranges = null;
  let blocks = [];
  let parameters = [];
  let opener = 0;    // where the last finish begins, and where the statement of the block that was closed last
  let closed = 0;
  const labelAt = new Map(program.heads.map((head, label) => [head.from, label]));
  const declare = (list, name, from) => {
    const range = {from, to: program.text.length};
    names[list].push(name);
    ranges[list].push(range);
    return range;
  };
  for (let i = 0; i < tokens.length; i++) {
    const {text, at} = tokens[i];
    if (text === 'proc' || text === 'main') {
      names = {name: text === 'proc' ? tokens[i + 1].text : text, first: labelFrom(program, at), scalars: [], sections: []};
      ranges = {scalars: [], sections: []};
      program.procedures.push(names);
      program.ranges.push(ranges);
      blocks = [];
      parameters = [];
      if (text === 'proc') i = readParameters(tokens, i, parameters, declare);
    } else if (text === 'array') {
      declare('sections', tokens[i + 1].text, at);
    } else if (text === 'var') {
      blocks[blocks.length - 1].names.push(declare('scalars', tokens[i + 1].text, at));
    } else if (text === 'split' || text === 'parts') {
      while (i < tokens.length && tokens[i].text !== '{') i++;
      const first = declare('sections', tokens[i - 3].text, at);
      blocks.push({names: [first, declare(text === 'split' ? 'sections' : 'scalars', tokens[i - 1].text, at)], opener: at});
    } else if (text === 'finish') {
      opener = at;
    } else if (text === 'rescue') {
      program.rescues.add(labelAt.get(closed));
      blocks.push({names: [declare('scalars', tokens[++i].text, at)], opener: at});
      i++;
    } else if (text === '{') {
      blocks.push({names: parameters, opener});
      parameters = [];
    } else if (text === '}') {
      const block = blocks.pop() || {names: [], opener: 0};
      for (const range of block.names) range.to = at;
      closed = block.opener;
    }
  }
  program.procedures.forEach((procedure, i) => {
    const next = program.procedures[i + 1];
    procedure.last = next ? next.first - 1 : program.labels;
  });
}

// Declares the parameters of a procedure, and returns the position of the token after them.
function readParameters(tokens, at, parameters, declare) {
  let i = at;
  while (i < tokens.length && tokens[i].text !== ')') {
    if (tokens[i].text === ':') {
      const word = tokens[i - 2].text;
      const list = word === 'mut' || word === 'read' ? 'sections' : 'scalars';
      parameters.push(declare(list, tokens[i - 1].text, tokens[i].at));
    }
    i++;
  }
  return i;
}

// The label of the first statement from a position in the text on.
function labelFrom(program, at) {
  let label = 1;
  while (label <= program.labels && program.heads[label].from < at) label++;
  return label;
}

// The procedure that has a label.
function procedureOf(program, label) {
  const all = program.procedures;
  for (let i = 0; i < all.length; i++) if (label >= all[i].first && label <= all[i].last) return i;
  return all.length - 1;
}

// The head of a statement on one line, such as `while i < len(s) { .. }`.
function statement(program, label) {
  const head = program.heads[label];
  if (!head) return '';
  const text = program.text.slice(head.from, head.to).replace(/\\/\\/[^\\n]*/g, ' ').replace(/\\s+/g, ' ');
  return head.block ? text + ' { .. }' : text;
}

// The procedure that a statement calls, or -1.
function calleeOf(program, label) {
  const found = /^([A-Za-z_][A-Za-z_0-9]*)\\s*\\(/.exec(statement(program, label));
  return found ? program.procedures.findIndex(procedure => procedure.name === found[1]) : -1;
}
// The data of the page in typed arrays, and what follows from it.

const LETTERS = 'tlsworpedb';
const KINDS = ['take', 'steal', 'step', 'spawn', 'open', 'replenish', 'park', 'end', 'pass', 'resume'];
const [TAKE, STEAL, STEP, SPAWN, OPEN, REPLENISH, PARK, END, PASS, RESUME] = KINDS.keys();
const NONE = -1;

// Whether an event of a kind takes a step of the language.
const takesStep = kind => kind === STEP || kind === SPAWN || kind === OPEN;

function readRun(data) {
  const run = {data, header: data.header, summary: data.summary, lanes: data.lanes};
  readEvents(run, data.events);
  readTasks(run, data.tasks);
  readSpells(run, data);
  readScopes(run, data);
  followScopes(run);
  readValues(run, data);
  run.order = treeOrder(run);
  run.byRow = groups(Int32Array.from(data.tasks.row), 1 + largest(data.tasks.row));
  run.scopesByRow = groups(Int32Array.from(data.scopes.row), 1 + largest(data.scopes.row));
  return run;
}

function largest(numbers) {
  let most = 0;
  for (let i = 0; i < numbers.length; i++) if (numbers[i] > most) most = numbers[i];
  return most;
}

function readEvents(run, events) {
  const n = events.kinds.length;
  const code = new Uint8Array(128);
  for (let i = 0; i < LETTERS.length; i++) code[LETTERS.charCodeAt(i)] = i;
  run.events = n;
  run.kind = new Uint8Array(n);
  for (let e = 0; e < n; e++) run.kind[e] = code[events.kinds.charCodeAt(e) & 127];
  run.task = Int32Array.from(events.tasks);
  run.label = Int32Array.from(events.labels);
  run.chain = new Uint8Array(n);
  run.chainEvents = Int32Array.from(run.data.chain);
  for (const e of run.chainEvents) run.chain[e] = 1;
}

function readTasks(run, tasks) {
  const n = tasks.parent.length;
  run.tasks = n;
  run.parent = Int32Array.from(tasks.parent);
  run.parent[0] = NONE;
  run.number = tasks.number;
  run.row = tasks.row;
  run.children = groups(run.parent, n);
  run.eventsOf = groups(run.task, n);
  run.stepsAt = groups(labelsOfSteps(run), Math.max(largest(run.label), run.data.places.line.length) + 1);
  run.spawned = new Int32Array(n).fill(-1);
  run.ended = new Int32Array(n).fill(run.events);
  run.depth = new Int32Array(n);
  run.isOver = new Uint8Array(n);
  let next = 1;
  for (let e = 0; e < run.events; e++) {
    const kind = run.kind[e];
    if (kind === SPAWN) {
      run.depth[next] = run.depth[run.task[e]] + 1;
      run.spawned[next++] = e;
    } else if (kind === END) {
      run.ended[run.task[e]] = e;
      run.isOver[run.task[e]] = 1;
    }
  }
}

// The label of each event, or -1 for an event without one.
function labelsOfSteps(run) {
  const keys = new Int32Array(run.events);
  for (let e = 0; e < run.events; e++) keys[e] = run.label[e] > 0 ? run.label[e] : -1;
  return keys;
}

function readSpells(run, data) {
  const spells = data.spells;
  run.spellFirst = Int32Array.from(spells.at);
  run.spellLast = Int32Array.from(spells.last);
  run.spellTask = Int32Array.from(spells.task);
  run.spellWorker = Uint8Array.from(spells.worker);
  run.spellEnding = spells.ending;
  run.spellsOfTask = groups(run.spellTask, run.tasks);
  run.spellsOfWorker = groups(run.spellWorker, run.lanes);
  run.steals = Int32Array.from(data.steals.at);
  run.stealFrom = Uint8Array.from(data.steals.from);
  run.stealBy = Uint8Array.from(data.steals.worker);
  run.worker = new Int8Array(run.events).fill(NONE);
  const current = new Int32Array(run.tasks).fill(NONE);
  let next = 0;
  let steal = 0;
  for (let e = 0; e < run.events; e++) {
    const task = run.task[e];
    if (run.kind[e] === STEAL) {
      run.worker[e] = run.stealBy[steal++];
      continue;
    }
    if (next < run.spellFirst.length && run.spellFirst[next] === e) current[task] = next++;
    const spell = current[task];
    if (spell >= 0 && e <= run.spellLast[spell] && run.kind[e] !== PASS) run.worker[e] = run.spellWorker[spell];
  }
  run.levels = levelsOf(run, data.scopes.passed[0]);
  countBlocks(run);
}

// The number of events in a block.
const WIDTH = 256;

// Counts over blocks of events: own events of each lane, the largest number of tasks in hands, and that of live tasks. The
// root has ended at `passed`.
function levelsOf(run, passed) {
  const blocks = Math.ceil(run.events / WIDTH);
  const own = Array.from({length: run.lanes}, () => new Int32Array(blocks));
  const live = new Int32Array(blocks);
  const working = new Int32Array(blocks);
  const leaves = new Uint8Array(run.events + 1);
  for (const last of run.spellLast) leaves[last + 1]++;
  let tasks = 1;
  let inHands = 0;
  let spell = 0;
  for (let e = 0; e < run.events; e++) {
    const block = Math.floor(e / WIDTH);
    const kind = run.kind[e];
    if (kind !== STEAL && run.worker[e] >= 0) own[run.worker[e]][block]++;
    if (kind === SPAWN) tasks++;
    if (kind === END || e === passed) tasks--;
    for (; run.spellFirst[spell] === e; spell++) inHands++;
    inHands -= leaves[e];
    live[block] = Math.max(live[block], tasks);
    working[block] = Math.max(working[block], inHands);
  }
  return {width: WIDTH, own, live, working};
}

// Sums over the blocks of events: own events of each lane, and of the longest chain.
function countBlocks(run) {
  const width = run.levels.width;
  const blocks = run.levels.live.length;
  run.blocks = blocks;
  run.ownUpTo = run.levels.own.map(counts => {
    const sums = new Int32Array(blocks + 1);
    for (let i = 0; i < blocks; i++) sums[i + 1] = sums[i] + counts[i];
    return sums;
  });
  run.chainUpTo = run.levels.own.map(() => new Int32Array(blocks + 1));
  for (const e of run.chainEvents) {
    const worker = run.worker[e];
    if (worker >= 0) run.chainUpTo[worker][Math.floor(e / width) + 1]++;
  }
  for (const sums of run.chainUpTo) for (let i = 0; i < blocks; i++) sums[i + 1] += sums[i];
}

function readScopes(run, data) {
  const scopes = data.scopes;
  run.scopes = scopes.owner.length;
  run.scopeOwner = Int32Array.from(scopes.owner);
  run.scopesOf = groups(run.scopeOwner, run.tasks);
  run.scopeNumber = scopes.number;
  run.scopeAt = Int32Array.from(scopes.at);
  run.scopeParked = integers(run.scopes, s => (scopes.parked[s] === null ? run.events : scopes.parked[s]));
  run.scopePassed = integers(run.scopes, s => (scopes.passed[s] === null ? run.events : scopes.passed[s]));
  run.scopeRow = scopes.row;
  run.finishEvents = [];
  if (run.scopePassed[0] < run.events) {
    run.ended[0] = run.scopePassed[0];
    run.isOver[0] = 1;
  }
}

// For each event the scope that it concerns, and the weights and books by changes.
function followScopes(run) {
  const {data, events, tasks, scopes} = run;
  const top = new Int32Array(tasks);
  const up = new Int32Array(scopes);
  const parkedIn = new Int32Array(tasks);
  run.home = new Int32Array(tasks);
  run.scope = new Int32Array(events).fill(NONE);
  run.up = up;
  run.resumed = new Int32Array(scopes).fill(events);
  const changes = {event: [-1], holder: [0], weight: [data.header.w0]};
  const books = {event: new Int32Array(data.books.issued.length + 1), scope: [0],
    issued: [data.header.w0].concat(data.books.issued), returned: [0].concat(data.books.returned)};
  books.event[0] = -1;
  const passedAt = new Map();
  for (let s = 0; s < scopes; s++) if (run.scopePassed[s] < events) passedAt.set(run.scopePassed[s], s);
  let child = 1;
  let opened = 1;
  let own = 0;
  let given = 0;
  let book = 1;
  const weigh = (event, holder, weight) => {
    changes.event.push(event);
    changes.holder.push(holder);
    changes.weight.push(weight);
  };
  for (let e = 0; e < events; e++) {
    const task = run.task[e];
    const kind = run.kind[e];
    if (kind === STEP || kind === TAKE || kind === STEAL) continue;
    let scope = top[task];
    if (kind === SPAWN) {
      weigh(e, holderOf(run, task, scope), data.weights.own[own++]);
      weigh(e, child, data.weights.child[given++]);
      top[child] = run.home[child] = scope;
      child++;
    } else if (kind === OPEN) {
      up[opened] = scope;
      top[task] = scope = opened++;
      weigh(e, holderOf(run, task, scope), data.weights.own[own++]);
    } else if (kind === REPLENISH) {
      weigh(e, holderOf(run, task, scope), data.weights.own[own++]);
    } else if (kind === PARK || kind === END) {
      weigh(e, holderOf(run, task, scope), 0);
      parkedIn[task] = scope;
      if (kind === PARK && scope !== 0) top[task] = up[scope];
    } else if (kind === PASS) {
      scope = passedAt.has(e) ? passedAt.get(e) : 0;
    } else if (kind === RESUME) {
      scope = parkedIn[task];
      run.resumed[scope] = e;
    }
    run.scope[e] = scope;
    if (kind === OPEN || kind === REPLENISH || kind === PARK || kind === END) {
      books.event[book++] = e;
      books.scope.push(scope);
    }
    if (kind === OPEN || kind === PASS || kind === RESUME) run.finishEvents.push(e);
  }
  run.weightAt = Int32Array.from(changes.event);
  run.weightNow = changes.weight;
  run.weightsOf = groups(Int32Array.from(changes.holder), tasks + scopes);
  run.bookAt = books.event;
  run.issued = books.issued;
  run.returned = books.returned;
  run.booksOf = groups(Int32Array.from(books.scope), scopes);
  run.startedIn = groups(run.home, scopes);
  followPasses(run, books);
}

// A pass belongs to the worker that gave back the last weight of its scope.
function followPasses(run, books) {
  run.lastReturn = new Int32Array(run.scopes).fill(NONE);
  for (let s = 0; s < run.scopes; s++) {
    const end = run.booksOf.start[s + 1];
    if (end > run.booksOf.start[s]) run.lastReturn[s] = books.event[run.booksOf.items[end - 1]];
    const passed = run.scopePassed[s];
    if (passed < run.events && run.lastReturn[s] >= 0) run.worker[passed] = run.worker[run.lastReturn[s]];
  }
}

// The number of what a task holds of a scope: of its home scope the number of the task, of a scope that it opened another.
function holderOf(run, task, scope) {
  return scope !== run.home[task] && run.scopeOwner[scope] === task ? run.tasks + scope : task;
}

// The scalars, sections and elements by changes, what children were given, lines and faults.
function readValues(run, data) {
  run.scalarAt = Int32Array.from(data.scalars.at);
  run.scalarValue = data.scalars.value;
  run.scalarsOf = bySlot(run, run.scalarAt, data.scalars.slot);
  run.windowAt = Int32Array.from(data.windows.at);
  run.windowsOf = bySlot(run, run.windowAt, data.windows.section);
  run.arrayStart = [];
  let elements = 0;
  for (const array of data.arrays) {
    run.arrayStart.push(elements);
    elements += array.length;
  }
  const {array, index} = data.stores;
  const places = integers(index.length, i => run.arrayStart[array[i]] + index[i]);
  run.storeAt = Int32Array.from(data.stores.at);
  run.storeValue = data.stores.value;
  run.storesOf = groups(places, places.length > 0 ? elements : 0);
  run.storesBy = groups(tasksAt(run, run.storeAt), run.tasks);
  run.givenTo = groups(Int32Array.from(data.given.task), run.tasks);
  run.lineAt = Int32Array.from(data.lines.at);
  run.faultAt = Int32Array.from(data.faults.at);
  run.flowAt = Int32Array.from(data.flows.at);
  run.flowsOf = groups(tasksAt(run, run.flowAt), run.tasks);
  run.gatheredAt = Int32Array.from(data.gathered.at);
  const tells = new Uint8Array(run.events);
  for (const e of run.lineAt) tells[e] = 1;
  for (const e of run.faultAt) tells[e] = 1;
  run.inOrder = run.lineAt.length + run.faultAt.length > 0 ? depthFirst(run, tells) : [];
}

// The task of each of some events.
const tasksAt = (run, events) => integers(events.length, i => run.task[events[i]]);

// Changes by task and slot. Each task has as many groups as its largest slot needs.
function bySlot(run, at, slots) {
  const most = new Int32Array(run.tasks);
  for (let i = 0; i < at.length; i++) {
    const task = run.task[at[i]];
    if (slots[i] >= most[task]) most[task] = slots[i] + 1;
  }
  const offset = new Int32Array(run.tasks + 1);
  for (let task = 0; task < run.tasks; task++) offset[task + 1] = offset[task] + most[task];
  const keys = integers(at.length, i => offset[run.task[at[i]]] + slots[i]);
  return {offset, groups: groups(keys, offset[run.tasks])};
}

// Tasks in the order of their paths: each before its children, and these before its next sibling.
function treeOrder(run) {
  const order = new Int32Array(run.tasks);
  const stack = [0];
  let n = 0;
  while (stack.length > 0) {
    const task = stack.pop();
    order[n++] = task;
    for (let i = run.children.start[task + 1] - 1; i >= run.children.start[task]; i--) stack.push(run.children.items[i]);
  }
  return order;
}

// The events of lines and faults in the order of the outcome: a task's events, with those of a child at its spawn.
function depthFirst(run, wanted) {
  const order = [];
  const stack = [{task: 0, next: run.eventsOf.start[0], child: run.children.start[0]}];
  while (stack.length > 0) {
    const top = stack[stack.length - 1];
    if (top.next === run.eventsOf.start[top.task + 1]) {
      stack.pop();
      continue;
    }
    const e = run.eventsOf.items[top.next++];
    if (run.kind[e] === SPAWN) {
      const child = run.children.items[top.child++];
      stack.push({task: child, next: run.eventsOf.start[child], child: run.children.start[child]});
    } else if (wanted[e] === 1) {
      order.push(e);
    }
  }
  return order;
}

// The path of a task, such as `0.1.2`.
function pathOf(run, task) {
  const numbers = [];
  for (let t = task; t > 0; t = run.parent[t]) numbers.push(run.number[t]);
  numbers.push(0);
  return numbers.reverse().join('.');
}

// The task with a path, or -1.
function taskAt(run, path) {
  if (!/^0(\\.[0-9]+)*$/.test(path)) return NONE;
  let task = 0;
  for (const number of path.split('.').slice(1)) {
    const at = run.children.start[task] + Number(number) - 1;
    if (Number(number) < 1 || at >= run.children.start[task + 1]) return NONE;
    task = run.children.items[at];
  }
  return task;
}

// The name of a scope: `main`, or its owner and number, such as `0.1#2`.
const scopeName = (run, scope) =>
  (scope === 0 ? 'main' : pathOf(run, run.scopeOwner[scope]) + '#' + run.scopeNumber[scope]);
// What the run is like right after an event: where tasks are, what they hold, what the scopes' books say.

const [UNBORN, QUEUED, RUNS, WAITS, ENDED] = [0, 1, 2, 3, 4];

// The last event of a task up to an event, or -1.
function lastEventOf(run, task, event) {
  const low = run.eventsOf.start[task];
  const at = lastUpTo(run.eventsOf.items, event, low, run.eventsOf.start[task + 1]);
  return at < low ? NONE : run.eventsOf.items[at];
}

// Where a task is after an event, and which worker has or had it.
function whereIs(run, task, event) {
  if (task > 0 && run.spawned[task] > event) return {state: UNBORN, worker: NONE};
  if (run.isOver[task] && run.ended[task] <= event) return {state: ENDED, worker: run.worker[run.ended[task]]};
  const last = lastEventOf(run, task, event);
  if (last < 0) return {state: QUEUED, worker: task === 0 ? 0 : run.worker[run.spawned[task]]};
  const kind = run.kind[last];
  if (kind === STEAL) return {state: QUEUED, worker: run.worker[last]};
  if (kind === PARK || kind === PASS) return {state: WAITS, worker: run.worker[last]};
  return {state: RUNS, worker: run.worker[last]};
}

// The spell of a worker that contains an event, or -1.
function spellAt(run, worker, event) {
  const at = lastOf(run.spellsOfWorker, worker, run.spellFirst, event);
  if (at < 0) return NONE;
  const spell = run.spellsOfWorker.items[at];
  if (run.spellLast[spell] < event) return NONE;
  const leaves = run.spellLast[spell] === event && run.spellEnding[spell] !== 'g';
  return leaves ? NONE : spell;
}

// The tasks that have been spawned and haven't ended after an event.
function liveTasks(run, event) {
  const live = [];
  const begun = lastUpTo(run.spawned, event);
  for (let task = 0; task <= begun; task++) if (run.ended[task] > event || !run.isOver[task]) live.push(task);
  return live;
}

// A group of changes up to an event: the number of its last change, or -1.
function changeOf(group, key, at, event) {
  const place = lastOf(group, key, at, event);
  return place < 0 ? NONE : group.items[place];
}

// What a task's scalar or section was changed to last, or -1 if it has its initial value. A child begins with those of its
// parent.
function lastChange(run, table, at, task, slot, event) {
  let holder = task;
  let until = event;
  while (holder >= 0) {
    const key = table.offset[holder] + slot;
    if (key < table.offset[holder + 1]) {
      const change = changeOf(table.groups, key, at, until);
      if (change >= 0) return change;
    }
    until = Math.min(until, run.spawned[holder]);
    holder = run.parent[holder];
  }
  return NONE;
}

function scalarAfter(run, task, slot, event) {
  const change = lastChange(run, run.scalarsOf, run.scalarAt, task, slot, event);
  return change < 0 ? {value: 0, at: NONE} : {value: run.scalarValue[change], at: run.scalarAt[change]};
}

// The part of an array that a section names.
function windowAfter(run, task, section, event) {
  const change = lastChange(run, run.windowsOf, run.windowAt, task, section, event);
  const windows = run.data.windows;
  if (change >= 0) return {array: windows.array[change], first: windows.first[change], length: windows.length[change]};
  const array = run.data.arrays[section];
  return array ? {array: section, first: 0, length: array.length} : {array: 0, first: 0, length: 0};
}

// The number of an element after an event, and the event that stored it.
function elementAfter(run, array, index, event) {
  const place = run.arrayStart[array] + index;
  const change = place + 1 < run.storesOf.start.length ? changeOf(run.storesOf, place, run.storeAt, event) : NONE;
  if (change >= 0) return {value: run.storeValue[change], at: run.storeAt[change]};
  const initial = run.data.arrays[array].initial;
  return {value: index < initial.length ? initial[index] : 0, at: NONE};
}

// What a task has of an element. 0 is nothing.
const [OWNED, COPIED, GIVEN] = [1, 2, 3];

// What a task may do with each element of a part of an array: it owns it, has a copy, has given it to a child, or neither.
function holdings(run, task, array, first, length, event) {
  const held = new Uint8Array(length);
  const given = run.data.given;
  const lay = (item, what) => {
    if (given.array[item] !== array) return;
    const from = Math.max(given.first[item], first);
    const to = Math.min(given.first[item] + given.length[item], first + length);
    for (let i = from; i < to; i++) if (what !== COPIED || held[i - first] === 0) held[i - first] = what;
  };
  if (task === 0) held.fill(OWNED);
  else for (const item of itemsOf(run.givenTo, task)) lay(item, given.mayWrite[item] ? OWNED : COPIED);
  for (const child of itemsOf(run.children, task)) {
    if (run.spawned[child] > event) break;
    const home = run.home[child];
    if (run.scopeOwner[home] === task && run.resumed[home] <= event) continue;
    for (const item of itemsOf(run.givenTo, child)) if (given.mayWrite[item]) lay(item, GIVEN);
  }
  return held;
}

// The innermost scope in which a task is after an event. The scopes that a task opens are nested.
function scopeAround(run, task, event) {
  const home = run.home[task];
  const opened = changeOf(run.scopesOf, task, run.scopeAt, event);
  let scope = opened > 0 ? opened : home;
  while (scope !== home && run.resumed[scope] <= event) scope = run.up[scope];
  return scope;
}

// The book of a scope after an event.
function bookAfter(run, scope, event) {
  const book = changeOf(run.booksOf, scope, run.bookAt, event);
  return book < 0 ? {issued: 0, returned: 0} : {issued: run.issued[book], returned: run.returned[book]};
}

// The tasks that hold weight of a scope after an event, the largest weight first.
function holdersOf(run, scope, event) {
  const all = [];
  const add = (task, holder) => {
    const change = changeOf(run.weightsOf, holder, run.weightAt, event);
    if (change >= 0 && run.weightNow[change] > 0) all.push({task, weight: run.weightNow[change]});
  };
  if (scope > 0) add(run.scopeOwner[scope], run.tasks + scope);
  for (const task of itemsOf(run.startedIn, scope)) {
    if (run.spawned[task] > event) break;
    if (task === 0 || run.ended[task] > event || !run.isOver[task]) add(task, task);
  }
  return all.sort((a, b) => b.weight - a.weight || a.task - b.task);
}

const FLOWS = {o: 'on', f: 'faulted', s: 'stopped'};

// Whether a task continues: `on`, `faulted` or `stopped`.
function flowOf(run, task, event) {
  const change = changeOf(run.flowsOf, task, run.flowAt, event);
  const rescue = changeOf(run.rescuesOf, task, run.rescueAt, event);
  if (rescue >= 0 && (change < 0 || run.flowAt[change] <= run.rescueAt[rescue])) return 'on';
  return FLOWS[change < 0 ? 'o' : run.data.flows.flow[change]];
}

// The number of faults that the rescue of each scope drops, the resumes of these scopes, and for each fault the resume at
// which it is dropped.
function followRescues(run, program) {
  run.rescued = new Int32Array(run.scopes);
  const resumes = [];
  for (let i = 0; i < run.gatheredAt.length; i++) {
    const event = run.gatheredAt[i];
    const scope = run.scope[event];
    if (!program.rescues.has(run.label[run.scopeAt[scope]])) continue;
    run.rescued[scope] = run.data.gathered.count[i];
    resumes.push(event);
  }
  run.rescueAt = Int32Array.from(resumes);
  run.rescuesOf = groups(tasksAt(run, run.rescueAt), run.tasks);
  run.droppedAt = integers(run.faultAt.length, fault => dropOf(run, run.faultAt[fault]));
}

// The resume at which a rescue drops the fault of an event, or the number of events. A fault goes from scope to scope
// outwards.
function dropOf(run, event) {
  let scope = scopeAround(run, run.task[event], event);
  while (scope > 0 && run.resumed[scope] < run.events) {
    if (run.rescued[scope] > 0) return run.resumed[scope];
    scope = run.up[scope];
  }
  return run.events;
}

// The faults of an event that no rescue has dropped up to another event.
const faultsKept = (run, event, until) => changesAt(run.faultAt, event).filter(fault => run.droppedAt[fault] > until);

// The event that had to happen before this one, or -1: what led to it.
function causeOf(run, event) {
  const task = run.task[event];
  const kind = run.kind[event];
  if (kind === PASS) return run.lastReturn[run.scope[event]];
  if (kind === RESUME) return run.scopePassed[run.scope[event]];
  const at = lastUpTo(run.eventsOf.items, event - 1, run.eventsOf.start[task], run.eventsOf.start[task + 1]);
  if (at >= run.eventsOf.start[task]) return run.eventsOf.items[at];
  return run.spawned[task];
}

// The statement that a task executed last, as the event of its step, or -1.
function lastStep(run, task, event) {
  const low = run.eventsOf.start[task];
  for (let at = lastUpTo(run.eventsOf.items, event, low, run.eventsOf.start[task + 1]); at >= low; at--) {
    const e = run.eventsOf.items[at];
    if (run.label[e] > 0) return e;
  }
  return task > 0 ? run.spawned[task] : NONE;
}
// Events, states and marks in words.

const STATES = ['not yet spawned', 'waits in a deque', 'runs', 'waits at its finish', 'has ended'];

// `finish 0.1#2`, or `main`.
const finishName = (run, scope) => (scope === 0 ? 'main' : 'finish ' + scopeName(run, scope));

// One sentence about an event, without its statement.
function sentence(run, event) {
  const task = 'task ' + pathOf(run, run.task[event]);
  const worker = 'worker ' + run.worker[event];
  const scope = run.scope[event];
  switch (run.kind[event]) {
    case TAKE: return `${worker} takes ${task} from its deque`;
    case STEAL: return `${worker} steals ${task} from worker ${stealAt(run, event).from}`;
    case STEP: return `${task} takes a step`;
    case SPAWN: return `${task} spawns task ${pathOf(run, childAt(run, event))}`;
    case OPEN: return `${task} opens ${finishName(run, scope)}`;
    case REPLENISH: return `${finishName(run, scope)} gives ${task} more weight`;
    case PARK: return `${task} waits at the end of ${finishName(run, scope)}`;
    case END: return `${task} ends`;
    case PASS: return `${finishName(run, scope)} passes: all that was started in it has ended`;
    default: return `${worker} continues ${task} after ${finishName(run, scope)}`;
  }
}

// A path of at most so many characters: the end of a longer one.
const cut = (text, most) => (text.length > most ? '…' + text.slice(1 - most) : text);

// A few words about an event, for a list.
function brief(run, program, event) {
  const task = cut(pathOf(run, run.task[event]), run.kind[event] === STEP ? 10 : 24);
  const scope = run.scope[event];
  switch (run.kind[event]) {
    case TAKE: return `take ${task}`;
    case STEAL: return `steal ${task} from worker ${stealAt(run, event).from}`;
    case STEP: return `${task}  ${statement(program, run.label[event])}`;
    case SPAWN: return `${task} spawns ${pathOf(run, childAt(run, event))}`;
    case OPEN: return `${task} opens ${scopeName(run, scope)}`;
    case REPLENISH: return `${task} gets more weight`;
    case PARK: return `${task} parks at ${scopeName(run, scope)}`;
    case END: return `${task} ends`;
    case PASS: return `${scopeName(run, scope)} passes`;
    default: return `resume ${task}`;
  }
}

// The steal that an event is.
function stealAt(run, event) {
  const steal = lastUpTo(run.steals, event);
  return {from: run.stealFrom[steal], by: run.stealBy[steal]};
}

// The child that an event spawns.
function childAt(run, event) {
  return lastUpTo(run.spawned, event);
}

// What a step changed, in words: `i = 3`, `a[2] = 7`, `prints 1 2`, `fault F4`.
function effectOf(run, program, event) {
  const parts = [];
  const names = program.procedures;
  const label = run.label[event];
  const step = label > 0 ? label : 0;
  const callee = step > 0 ? calleeOf(program, step) : -1;
  const procedure = names[callee >= 0 ? callee : procedureOf(program, step)];
  for (const change of changesAt(run.scalarAt, event)) {
    const slot = run.data.scalars.slot[change];
    if (parts.length < 6 && procedure.scalars[slot]) parts.push(`${procedure.scalars[slot]} = ${run.scalarValue[change]}`);
  }
  for (const store of changesAt(run.storeAt, event)) {
    const {array, index} = run.data.stores;
    parts.push(`${run.data.arrays[array[store]].name}[${index[store]}] = ${run.storeValue[store]}`);
  }
  for (const line of changesAt(run.lineAt, event)) parts.push('prints ' + run.data.lines.values[line].join(' '));
  for (const fault of changesAt(run.faultAt, event)) parts.push('fault ' + faultKind(run, fault));
  for (const gathered of changesAt(run.gatheredAt, event)) {
    const dropped = run.rescued[run.scope[event]] > 0 ? ', which the rescue drops' : '';
    parts.push('gathers ' + count(run.data.gathered.count[gathered], 'fault') + dropped);
  }
  for (const flow of changesAt(run.flowAt, event)) {
    if (run.data.flows.flow[flow] === 's') parts.push('stopped over its budget');
  }
  return parts;
}

// The numbers of the changes at an event, in a sorted list of events.
function changesAt(at, event) {
  const all = [];
  for (let i = lastUpTo(at, event); i >= 0 && at[i] === event; i--) all.push(i);
  return all.reverse();
}

// `F4`, or `F6 3`.
function faultKind(run, fault) {
  return run.data.faults.text[fault];
}

// All that the line under the page says of an event.
function wholeTale(run, program, event) {
  const label = run.label[event];
  const parts = [sentence(run, event)];
  if (label > 0) parts.push(`label ${label}, ${statement(program, label).replace(/;$/, '')}`);
  return [parts.join(': ')].concat(effectOf(run, program, event)).join('; ');
}
// What is shown: the cursor, the part of the events in view, marks, colours; and the link that restores it.

const run = readRun(readData(byId('data').textContent));
const program = readProgram(run.data);
followRescues(run, program);

const view = {
  at: 0,                    // the event under the cursor
  from: 0,                  // the first event in view, and the one after the last
  to: 1,
  task: NONE,               // the task that is selected
  label: 0,                 // the label whose executions are marked
  rows: 'tree',             // tree, packed or finishes
  chain: false,             // whether the longest chain is shown
  dark: false,
  pointed: NONE,            // the event under the pointer
  playing: false,
  changed: 0,               // what has to be drawn again
};
const [CURSOR, WINDOW, ROWS, LOOK, POINTER] = [1, 2, 4, 8, 16];
const SPAN = Math.max(run.events, 8);
const GUTTER = 136;
const EDGE = 10;
const PALETTE = 8;

const colors = {};
const patterns = [];

const changed = what => { view.changed |= what; };

// Widths and heights of elements, and how far they are scrolled. They are read when they change, because reading them
// makes the browser lay out the page.
const sizes = {lanes: 0, rows: 0, rowsTop: 0, log: 0, text: 0, textTop: 0};

function measure() {
  sizes.lanes = byId('lanes').clientWidth;
  sizes.rows = byId('rows').clientHeight;
  sizes.log = byId('log').clientHeight || sizes.log;
  sizes.text = byId('text').clientHeight || sizes.text;
  readScrolls();
  changed(CURSOR | WINDOW | ROWS | LOOK);
}

function readScrolls() {
  sizes.rowsTop = byId('rows').scrollTop;
  sizes.textTop = byId('text').scrollTop;
}

// Scrolls an element whose content has a height, so that a part of it can be seen. Returns where it is scrolled to.
function scrolledTo(element, top, height, content, y, part) {
  if (y >= top + 4 && y + part <= top + height - 4) return top;
  const to = clamp(y - height / 2, 0, Math.max(0, content - height));
  element.scrollTop = to;
  return to;
}

// ---- colours and patterns

function readColors(dark) {
  view.dark = dark;
  document.documentElement.dataset.theme = dark ? 'dark' : 'light';
  const style = getComputedStyle(document.documentElement);
  for (const name of ['panel', 'ink', 'soft', 'line', 'lane', 'mark', 'cursor', 'gold', 'hit', 'on', 'rescue']) {
    colors[name] = style.getPropertyValue('--' + name).trim();
  }
  for (let i = 0; i < PALETTE; i++) colors['w' + i] = style.getPropertyValue('--w' + i).trim();
  patterns.length = 0;
  for (let i = 0; i < PALETTE; i++) patterns.push(patternOf(i));
  changed(CURSOR | WINDOW | ROWS | LOOK);
}

const colorOf = worker => (worker < 0 ? colors.soft : colors['w' + (worker % PALETTE)]);

// Workers with one colour have different patterns, and so have neighbouring colours.
const patternNumber = worker => (worker + Math.floor(worker / PALETTE)) % PALETTE;
const fillPattern = worker => (worker < 0 ? null : patterns[patternNumber(worker)]);

// Lines and dots in the colour of text on a bar, which are laid over its colour.
function patternOf(number) {
  const size = 8;
  const tile = document.createElement('canvas');
  tile.width = tile.height = size;
  const pen = tile.getContext('2d');
  pen.strokeStyle = pen.fillStyle = colors.on;
  pen.globalAlpha = 0.42;
  pen.lineWidth = 1.4;
  const line = (x0, y0, x1, y1) => {
    pen.beginPath();
    pen.moveTo(x0, y0);
    pen.lineTo(x1, y1);
    pen.stroke();
  };
  const rising = () => { line(-2, 2, 2, -2); line(-2, 10, 10, -2); line(6, 10, 10, 6); };
  const falling = () => { line(-2, 6, 2, 10); line(-2, -2, 10, 10); line(6, -2, 10, 2); };
  const dot = (x, y) => {
    pen.beginPath();
    pen.arc(x, y, 1.3, 0, 7);
    pen.fill();
  };
  const draws = [() => {}, rising, () => { dot(2, 2); dot(6, 6); }, falling, () => line(0, 4, 8, 4), () => line(4, 0, 4, 8),
    () => { rising(); falling(); }, () => { line(0, 4, 8, 4); line(4, 0, 4, 8); }];
  draws[number]();
  return pen.createPattern(tile, 'repeat');
}

// ---- the part in view, and the cursor

// The task of the event under the cursor; the root if there is no event.
const taskAtCursor = () => (run.events > 0 ? run.task[view.at] : 0);

function show(from, to) {
  const width = clamp(to - from, Math.min(8, SPAN), SPAN);
  view.from = clamp(from, 0, SPAN - width);
  view.to = view.from + width;
  changed(WINDOW | ROWS);
  keepLink();
}

function zoom(factor, around = view.at + 0.5) {
  const at = around < view.from || around > view.to ? (view.from + view.to) / 2 : around;
  show(at - (at - view.from) * factor, at + (view.to - at) * factor);
}

// Moves the cursor. The part in view follows, unless the event was clicked in it.
function go(event, keepInView = true) {
  view.at = clamp(event, 0, Math.max(0, run.events - 1));
  const width = view.to - view.from;
  if (keepInView && (view.at < view.from + width * 0.04 || view.at + 1 > view.to - width * 0.04)) {
    show(view.at - width * 0.3, view.at + width * 0.7);
  }
  if (keepInView) showRow(taskAtCursor());
  changed(CURSOR);
  keepLink();
}

function selectTask(task) {
  view.task = task;
  if (task >= 0) showRow(task);
  changed(CURSOR | WINDOW | ROWS);
  keepLink();
}

function markLabel(label) {
  view.label = label;
  changed(CURSOR | WINDOW | LOOK);
  keepLink();
}

// ---- the link

let linkTimer = 0;

function linkOf() {
  const parts = ['at=' + view.at];
  if (view.from > 0 || view.to < SPAN) parts.push(`view=${Math.round(view.from)}-${Math.round(view.to)}`);
  if (view.task >= 0) parts.push('task=' + pathOf(run, view.task));
  if (view.label > 0) parts.push('label=' + view.label);
  if (view.rows !== 'tree') parts.push('rows=' + view.rows);
  if (view.chain) parts.push('chain=1');
  if (byId('schedules').open && schedule.choices.length > 0) parts.push('choices=' + schedule.choices.join(','));
  parts.push('theme=' + (view.dark ? 'dark' : 'light'));
  return '#' + parts.join('&');
}

function keepLink() {
  clearTimeout(linkTimer);
  linkTimer = setTimeout(putLink, 150);
}

// Puts the link into the address. A page that was opened in a frame may not do that; it works without.
function putLink() {
  try { history.replaceState(null, '', linkOf()); } catch (error) { view.link = linkOf(); }
}

// Restores what a link says. Parts that it doesn't name, or names wrongly, keep their values.
function follow(link) {
  const parts = new URLSearchParams(link.replace(/^#/, ''));
  const number = name => (/^[0-9]{1,9}$/.test(parts.get(name) || '') ? Number(parts.get(name)) : null);
  if (parts.has('theme')) readColors(parts.get('theme') === 'dark');
  if (['tree', 'packed', 'finishes'].includes(parts.get('rows'))) view.rows = parts.get('rows');
  keepHeight(byId('tall'), heightOfRows());
  view.chain = parts.get('chain') === '1';
  view.task = parts.has('task') ? taskAt(run, parts.get('task')) : NONE;
  const label = number('label');
  view.label = label !== null && label <= program.labels ? label : 0;
  const range = /^([0-9]{1,9})-([0-9]{1,9})$/.exec(parts.get('view') || '');
  if (range) show(Number(range[1]), Number(range[2])); else show(0, SPAN);
  go(number('at') || 0, !range);
  followChoices(parts.get('choices'));
  changed(CURSOR | WINDOW | ROWS | LOOK);
}

// Opens the schedule that a link names.
function followChoices(text) {
  if (!/^[0-9]{1,4}(,[0-9]{1,4})*$/.test(text || '') || whyNoSchedules() !== '') return;
  chooseAll(text.split(',').map(Number));
  openSchedules();
}

// ---- canvases

// Makes a canvas as large as it is shown, and returns a clean context in units of the page.
function penOf(canvas, width, height) {
  const ratio = window.devicePixelRatio || 1;
  const [w, h] = [Math.max(1, Math.round(width * ratio)), Math.max(1, Math.round(height * ratio))];
  if (canvas.width !== w || canvas.height !== h) {
    canvas.width = w;
    canvas.height = h;
    canvas.style.width = width + 'px';
    canvas.style.height = height + 'px';
  }
  const pen = canvas.getContext('2d');
  pen.setTransform(ratio, 0, 0, ratio, 0, 0);
  pen.clearRect(0, 0, width, height);
  pen.globalAlpha = 1;
  pen.textAlign = 'left';
  pen.textBaseline = 'middle';
  pen.font = TEXT;
  return pen;
}

const TEXT = '12px system-ui, \"DejaVu Sans\", sans-serif';
const SMALL = '11px system-ui, \"DejaVu Sans\", sans-serif';
const BOLD = '600 11px system-ui, \"DejaVu Sans\", sans-serif';
const CODE = '12px ui-monospace, \"DejaVu Sans Mono\", monospace';
const TINY_CODE = '10px ui-monospace, \"DejaVu Sans Mono\", monospace';

const perEvent = () => (sizes.lanes - GUTTER - EDGE) / (view.to - view.from);
const xOf = event => GUTTER + (event - view.from) * perEvent();
const eventAt = x => view.from + (x - GUTTER) / perEvent();

function tint(pen, color, alpha) {
  pen.globalAlpha = alpha;
  pen.fillStyle = color;
}

// Fills a rectangle with the colour of a worker and its pattern.
function workerBar(pen, worker, x, y, width, height, alpha) {
  tint(pen, colorOf(worker), alpha);
  pen.fillRect(x, y, width, height);
  const pattern = fillPattern(worker);
  if (width >= 6 && pattern) {
    tint(pen, pattern, alpha);
    pen.fillRect(x, y, width, height);
  }
  pen.globalAlpha = 1;
}
// The overview of the whole run, and the lanes of workers.

const laneHeight = run.lanes <= 6 ? 36 : run.lanes <= 12 ? 26 : run.lanes <= 24 ? 18 : 13;
const SIGNS = ['▷', '⇐', '', '◆', '[', '+', '‖', ']', '◇', '▷'];
const MOST_ARCS = 300;
const MANY_ARCS = 60;        // more arcs than these in view are drawn thinner

// ---- the overview

function keepHeight(element, height) {
  if (element.style.height !== height + 'px') element.style.height = height + 'px';
}

function drawOverview() {
  const element = byId('over');
  const width = sizes.lanes;
  const height = 46;
  keepHeight(element, height);
  const [base, top] = element.children;
  const plot = width - GUTTER - EDGE;
  if (view.changed & LOOK) drawOverviewBase(penOf(base, width, height), plot, height);
  const pen = penOf(top, width, height);
  const x = event => GUTTER + event / SPAN * plot;
  tint(pen, colors.cursor, 0.12);
  pen.fillRect(GUTTER, 2, x(view.from) - GUTTER, height - 4);
  pen.fillRect(x(view.to), 2, GUTTER + plot - x(view.to), height - 4);
  pen.globalAlpha = 1;
  pen.strokeStyle = colors.ink;
  pen.lineWidth = 1.5;
  pen.strokeRect(x(view.from), 2, Math.max(4, x(view.to) - x(view.from)), height - 4);
  pen.fillStyle = colors.cursor;
  pen.fillRect(x(view.at + 0.5) - 0.75, 0, 1.5, height);
}

function drawOverviewBase(pen, plot, height) {
  const live = Math.max(1, run.summary.most_live_tasks);
  const legend = (color, alpha, y, text, most) => {
    tint(pen, color, alpha);
    pen.fillRect(12, y - 4, 8, 8);
    tint(pen, colors.soft, 1);
    pen.fillText(text, 26, y);
    pen.font = SMALL;
    pen.textAlign = 'right';
    pen.fillText('≤ ' + num(most), GUTTER - 8, y);
    pen.textAlign = 'left';
    pen.font = TEXT;
  };
  legend(colors.soft, 0.45, 15, 'live', live);
  legend(colors.w0, 0.7, 32, 'working', run.lanes);
  pen.fillStyle = colors.lane;
  pen.fillRect(GUTTER, 4, plot, height - 8);
  const area = (heights, most, color, alpha) => {
    pen.beginPath();
    pen.moveTo(GUTTER, height - 4);
    for (let x = 0; x < plot; x++) pen.lineTo(GUTTER + x, height - 4 - (height - 10) * heights[x] / most);
    pen.lineTo(GUTTER + plot, height - 4);
    tint(pen, color, alpha);
    pen.fill();
    pen.globalAlpha = 1;
  };
  area(columnMaxima('live', plot), live, colors.soft, 0.4);
  area(columnMaxima('working', plot), run.lanes, colors.w0, 0.55);
  if (view.label > 0) {
    tint(pen, colors.hit, 1);
    let last = -2;
    for (const e of itemsOf(run.stepsAt, view.label)) {
      const x = Math.floor(e / SPAN * plot);
      if (x > last) pen.fillRect(GUTTER + x, height - 8, 1.5, 5);
      last = Math.max(last, x);
    }
  }
}

// For each pixel the largest number of live tasks, or of working workers, from the counted blocks.
function columnMaxima(name, plot) {
  const most = new Float64Array(Math.max(1, Math.ceil(plot)));
  const width = run.levels.width;
  const exact = run.events <= 4 * width ? exactCounts(name) : null;
  const list = exact || run.levels[name];
  const unit = exact ? 1 : width;
  for (let x = 0; x < most.length; x++) {
    const from = Math.floor(x * SPAN / plot / unit);
    const to = Math.max(from + 1, Math.ceil((x + 1) * SPAN / plot / unit));
    for (let i = from; i < to && i < list.length; i++) if (list[i] > most[x]) most[x] = list[i];
  }
  return most;
}

// The counts of each event of a short run.
function exactCounts(name) {
  const counts = new Int32Array(run.events);
  let live = 1;
  let working = 0;
  for (let e = 0; e < run.events; e++) {
    const kind = run.kind[e];
    if (kind === SPAWN) live++;
    if (kind === END || (kind === PASS && run.scope[e] === 0)) live--;
    if (kind === TAKE || kind === RESUME) working++;
    counts[e] = name === 'live' ? live : working;
    if (kind === PARK || kind === END) working--;
  }
  return counts;
}

// ---- lanes

function drawLanes() {
  const element = byId('lanes');
  const width = sizes.lanes;
  const height = run.lanes * laneHeight + 20;
  keepHeight(element, height);
  const [base, top] = element.children;
  if (view.changed & (WINDOW | LOOK)) {
    const pen = penOf(base, width, height);
    drawTicks(pen, run.lanes * laneHeight, width);
    pen.save();
    pen.beginPath();
    pen.rect(GUTTER, 0, width - GUTTER - EDGE, height);
    pen.clip();
    drawSpells(pen, width);
    if (perEvent() < 1.5) drawShares(pen, width); else drawEvents(pen);
    drawSteals(pen, width);
    drawNames(pen, width);
    drawMarks(pen);
    pen.restore();
  }
  drawLaneTop(penOf(top, width, height), width);
}

function drawTicks(pen, y, width) {
  const wanted = Math.max(2, Math.floor((width - GUTTER) / 110));
  const raw = (view.to - view.from) / wanted;
  const power = Math.pow(10, Math.floor(Math.log10(raw)));
  const step = Math.max(1, [1, 2, 5, 10].find(k => k * power >= raw) * power);
  pen.font = SMALL;
  for (let e = Math.ceil(view.from / step) * step; e <= view.to; e += step) {
    pen.fillStyle = colors.line;
    pen.fillRect(xOf(e), 0, 1, y + 2);
    pen.fillStyle = colors.soft;
    pen.textAlign = xOf(e) > width - 28 ? 'right' : 'center';
    pen.fillText(num(e), Math.min(xOf(e), width - 4), y + 10);
  }
  pen.textAlign = 'left';
}

// Bars: a task in a worker's hand. Bars closer than a pixel are drawn as one.
function drawSpells(pen, width) {
  for (let worker = 0; worker < run.lanes; worker++) {
    const y = worker * laneHeight;
    tint(pen, colors.lane, 1);
    pen.fillRect(GUTTER, y + 2, width - GUTTER - EDGE, laneHeight - 4);
    const all = run.spellsOfWorker;
    const end = all.start[worker + 1];
    let i = Math.max(all.start[worker], lastSpellUpTo(all, worker, view.from));
    let from = NONE;
    let to = NONE;
    const flush = () => {
      if (from >= 0) {
        tint(pen, colorOf(worker), 0.32);
        pen.fillRect(from, y + 3, Math.max(1, to - from), laneHeight - 6);
      }
      from = NONE;
    };
    while (i < end && run.spellFirst[all.items[i]] < view.to) {
      const spell = all.items[i];
      const x0 = Math.max(GUTTER, xOf(run.spellFirst[spell]));
      const x1 = Math.min(width - EDGE, xOf(run.spellLast[spell] + 1));
      i++;
      if (x1 <= GUTTER) continue;
      if (x1 - x0 >= 3) {
        flush();
        workerBar(pen, worker, x0 + 0.5, y + 3, x1 - x0 - 1, laneHeight - 6, 0.32);
      } else if (from >= 0 && x0 <= to + 1) {
        to = Math.max(x1, x0 + 1);
        i = Math.max(i, lastSpellUpTo(all, worker, eventAt(x0 + 1)));
      } else {
        flush();
        from = x0;
        to = x1;
      }
    }
    flush();
  }
}

// The position of a worker's last spell that begins up to an event.
function lastSpellUpTo(all, worker, event) {
  return lastOf(all, worker, run.spellFirst, event);
}

// Far away: for each column, how much of the worker's time is its own. From the counted blocks if a column has several.
function drawShares(pen, width) {
  const column = 2;
  const plot = width - GUTTER - EDGE;
  const columns = Math.ceil(plot / column);
  const perColumn = column / perEvent();
  const block = run.levels.width;
  const own = new Float64Array(columns * run.lanes);
  const chained = new Uint8Array(columns * run.lanes);
  if (perColumn >= block) {
    for (let q = 0; q < columns; q++) {
      const from = clamp(Math.floor((view.from + q * perColumn) / block), 0, run.blocks);
      const to = clamp(Math.max(from + 1, Math.floor((view.from + (q + 1) * perColumn) / block)), 0, run.blocks);
      for (let worker = 0; worker < run.lanes; worker++) {
        const all = (to - from) * block;
        if (all > 0) own[worker * columns + q] = (run.ownUpTo[worker][to] - run.ownUpTo[worker][from]) / all;
        if (run.chainUpTo[worker][to] > run.chainUpTo[worker][from]) chained[worker * columns + q] = 1;
      }
    }
  } else {
    const first = Math.max(0, Math.floor(view.from));
    const last = Math.min(run.events, Math.ceil(view.to));
    for (let e = first; e < last; e++) {
      const q = Math.floor((e - view.from) / perColumn);
      const worker = run.worker[e];
      if (worker < 0 || q < 0 || q >= columns) continue;
      own[worker * columns + q] += 1 / perColumn;
      if (run.chain[e]) chained[worker * columns + q] = 1;
    }
  }
  const scale = Math.max(1, run.lanes / 2);
  for (let worker = 0; worker < run.lanes; worker++) {
    tint(pen, colorOf(worker), 0.95);
    for (let q = 0; q < columns; q++) {
      const share = own[worker * columns + q];
      if (share === 0) continue;
      const height = Math.max(2, (laneHeight - 8) * Math.min(1, share * scale));
      pen.fillRect(GUTTER + q * column, (worker + 1) * laneHeight - 4 - height, column, height);
    }
    if (!view.chain) continue;
    tint(pen, colors.gold, 1);
    for (let q = 0; q < columns; q++) {
      if (chained[worker * columns + q]) pen.fillRect(GUTTER + q * column, (worker + 1) * laneHeight - 4, column, 3);
    }
  }
}

// Near: each event, solid if it takes a step. Wide events have their label, and wider ones their statement.
function drawEvents(pen) {
  const size = perEvent();
  const last = Math.min(run.events, Math.ceil(view.to));
  for (let e = Math.max(0, Math.floor(view.from)); e < last; e++) {
    const worker = run.worker[e];
    if (worker < 0) continue;
    const x = xOf(e);
    const y = worker * laneHeight;
    const width = Math.max(1, size - (size > 4 ? 1 : 0.4));
    const solid = takesStep(run.kind[e]);
    tint(pen, colorOf(worker), solid ? 0.95 : 0.8);
    if (solid) pen.fillRect(x, y + (laneHeight < 26 ? 3 : 8), width, laneHeight - (laneHeight < 26 ? 6 : 14));
    else pen.fillRect(x, y + laneHeight / 2 - 2, width, 4);
    if (view.chain && run.chain[e]) {
      tint(pen, colors.gold, 1);
      pen.fillRect(x, y + laneHeight - 5, width, 3);
    }
    if (size >= 16 && laneHeight >= 18) drawEventText(pen, e, x, y, width, size, solid);
  }
  pen.globalAlpha = 1;
}

function drawEventText(pen, event, x, y, width, size, solid) {
  const label = run.label[event];
  let text = SIGNS[run.kind[event]] + (label > 0 ? label : '');
  if (size > 90 && label > 0) {
    const most = Math.floor(size / 6.6) - 1;
    const whole = label + ' ' + statement(program, label);
    text = whole.length > most ? whole.slice(0, most - 1) + '…' : whole;
  }
  if (size < 11 + 6 * text.length) return;
  tint(pen, solid ? colors.on : colors.ink, 1);
  pen.font = SMALL;
  pen.textAlign = 'center';
  pen.fillText(text, x + width / 2, solid ? y + laneHeight / 2 + 1 : y + laneHeight / 2 - 9);
  pen.textAlign = 'left';
}

// The names of tasks on their bars, where there is room.
function drawNames(pen, width) {
  if (laneHeight < 26 || perEvent() >= 16) return;
  pen.globalAlpha = 1;
  pen.font = BOLD;
  const all = run.spellsOfWorker;
  const least = Math.max(1, Math.floor(12 / perEvent()));
  for (let worker = 0; worker < run.lanes; worker++) {
    let i = Math.max(all.start[worker], lastSpellUpTo(all, worker, view.from));
    let drawn = 0;
    for (; i < all.start[worker + 1] && run.spellFirst[all.items[i]] < view.to && drawn < 200; i++) {
      const spell = all.items[i];
      if (run.spellLast[spell] - run.spellFirst[spell] < least) continue;
      const x0 = Math.max(GUTTER, xOf(run.spellFirst[spell])) + 3;
      const x1 = Math.min(width - EDGE, xOf(run.spellLast[spell] + 1));
      if (x1 - x0 < 18) continue;
      const path = pathOf(run, run.spellTask[spell]);
      const needed = pen.measureText(path).width;
      if (x1 - x0 < needed + 10) continue;
      drawn++;
      tint(pen, colors.panel, 0.9);
      pen.fillRect(x0, worker * laneHeight + 5, needed + 6, 14);
      tint(pen, colors.ink, 1);
      pen.fillText(path, x0 + 3, worker * laneHeight + 12.5);
    }
  }
}

// Steals as arcs from lane to lane. If there are many, their number per column.
function drawSteals(pen, width) {
  const first = Math.max(0, lastUpTo(run.steals, view.from));
  const last = lastUpTo(run.steals, view.to) + 1;
  pen.globalAlpha = 1;
  byId('steals-note').textContent = last - first > MOST_ARCS ? 'marks at the top: steals' : 'arrows: steals';
  if (last - first > MOST_ARCS) {
    const counts = new Int32Array(Math.ceil((width - GUTTER) / 3) + 1);
    let most = 1;
    for (let i = first; i < last; i++) {
      const q = Math.floor((xOf(run.steals[i]) - GUTTER) / 3);
      if (q >= 0 && q < counts.length) most = Math.max(most, ++counts[q]);
    }
    tint(pen, colors.ink, 0.75);
    counts.forEach((n, q) => { if (n > 0) pen.fillRect(GUTTER + q * 3, 0, 2.5, Math.max(1.5, 7 * n / most)); });
    pen.globalAlpha = 1;
    return;
  }
  const many = last - first > MANY_ARCS;
  pen.strokeStyle = pen.fillStyle = colors.ink;
  pen.lineWidth = many ? 1 : 1.5;
  pen.globalAlpha = many ? 0.55 : 1;
  for (let i = first; i < last; i++) {
    const e = run.steals[i];
    const x = xOf(e + 0.5);
    if (e < view.from || x < GUTTER) continue;
    const y0 = (run.stealFrom[i] + 0.5) * laneHeight;
    const y1 = (run.stealBy[i] + 0.5) * laneHeight;
    const down = Math.sign(y1 - y0);
    pen.beginPath();
    pen.moveTo(x, y0);
    pen.quadraticCurveTo(x - Math.min(14, 8 + perEvent()), (y0 + y1) / 2, x, y1 - down * 3);
    pen.stroke();
    pen.beginPath();
    pen.arc(x, y0, many ? 1.5 : 2.5, 0, 7);
    pen.fill();
    const size = many ? 0.7 : 1;
    pen.beginPath();
    pen.moveTo(x, y1);
    pen.lineTo(x - 4 * size, y1 - down * 7 * size);
    pen.lineTo(x + 3.5 * size, y1 - down * 7 * size);
    pen.fill();
  }
  pen.globalAlpha = 1;
}

// The executions of the marked label by workers.
const marks = {label: 0, items: null, byWorker: null};

function readMarks() {
  if (marks.label === view.label) return;
  marks.label = view.label;
  marks.items = itemsOf(run.stepsAt, view.label);
  marks.byWorker = groups(integers(marks.items.length, i => run.worker[marks.items[i]]), run.lanes);
}

// A triangle below each execution of the marked label. Of those at one pixel, one is drawn.
function drawMarks(pen) {
  if (view.label === 0) return;
  readMarks();
  tint(pen, colors.hit, 1);
  for (let worker = 0; worker < run.lanes; worker++) {
    const y = (worker + 1) * laneHeight - 2;
    const end = marks.byWorker.start[worker + 1];
    for (let i = nextMark(worker, view.from); i < end;) {
      const e = marks.items[marks.byWorker.items[i]];
      if (e >= view.to) break;
      const x = xOf(e + 0.5);
      pen.beginPath();
      pen.moveTo(x, y - 7);
      pen.lineTo(x - 4, y);
      pen.lineTo(x + 4, y);
      pen.fill();
      i = Math.max(i + 1, nextMark(worker, eventAt(x + 2) - 0.5));
    }
  }
}

// The position of a worker's first execution of the marked label from an event on.
function nextMark(worker, event) {
  const before = lastOf(marks.byWorker, worker, marks.items, Math.ceil(event) - 1);
  return before < 0 ? marks.byWorker.start[worker] : before + 1;
}

// What moves with the cursor: names and tasks of workers, the selected task, the cursor, the pointer.
function drawLaneTop(pen, width) {
  if (view.task >= 0) drawSelected(pen, width);
  for (let worker = 0; worker < run.lanes; worker++) {
    const y = worker * laneHeight + laneHeight / 2;
    drawChip(pen, worker, y);
    const spell = spellAt(run, worker, view.at);
    pen.font = laneHeight < 16 ? TINY_CODE : CODE;
    pen.fillStyle = spell >= 0 ? colors.ink : colors.soft;
    const text = spell >= 0 ? pathOf(run, run.spellTask[spell]) : 'idle';
    pen.fillText(cut(text, 12), 38, y + 0.5);
  }
  drawCursor(pen, width, run.lanes * laneHeight);
}

function drawChip(pen, worker, y) {
  const width = run.lanes > 10 ? 22 : 18;
  const height = Math.min(16, laneHeight - 1);
  tint(pen, colorOf(worker), 1);
  pen.beginPath();
  pen.roundRect(12, y - height / 2, width, height, 4);
  pen.fill();
  pen.fillStyle = colors.on;
  pen.font = `700 ${laneHeight < 16 ? 10 : 11}px system-ui, \"DejaVu Sans\", sans-serif`;
  pen.textAlign = 'center';
  pen.fillText(worker, 12 + width / 2, y + 0.5);
  pen.textAlign = 'left';
}

function drawSelected(pen, width) {
  pen.strokeStyle = colors.ink;
  pen.lineWidth = 2;
  for (const spell of itemsOf(run.spellsOfTask, view.task)) {
    const x0 = Math.max(GUTTER, xOf(run.spellFirst[spell]));
    const x1 = Math.min(width - EDGE, xOf(run.spellLast[spell] + 1));
    if (x1 < GUTTER || x0 > width - EDGE) continue;
    pen.strokeRect(x0, run.spellWorker[spell] * laneHeight + 3, Math.max(2, x1 - x0), laneHeight - 6);
  }
}

function drawCursor(pen, width, height) {
  const x = xOf(view.at);
  const size = Math.max(2, perEvent());
  if (x >= GUTTER - 1 && x < width - EDGE + 1) {
    tint(pen, colors.cursor, 0.16);
    pen.fillRect(x, 0, size, height);
    tint(pen, colors.cursor, 1);
    pen.fillRect(x + size / 2 - 0.75, 0, 1.5, height);
  }
  if (view.pointed >= 0) {
    tint(pen, colors.cursor, 0.5);
    pen.fillRect(xOf(view.pointed + 0.5) - 0.5, 0, 1, height);
  }
  pen.globalAlpha = 1;
}
// Rows under the lanes: tasks as a tree, tasks next to each other in as few rows as possible, or finishes.

const ROW = 18;
const MOST_HEIGHT = 16000000;       // browsers limit the height of an element

const rowsNow = () => (view.rows === 'tree' ? run.tasks
  : view.rows === 'packed' ? run.byRow.start.length - 1 : run.scopesByRow.start.length - 1);

// The row of each task in the tree.
const treeRow = new Int32Array(run.tasks);
run.order.forEach((task, row) => { treeRow[task] = row; });

function rowOf(task) {
  if (view.rows === 'tree') return treeRow[task];
  if (view.rows === 'packed') return run.row[task];
  const scope = scopeAround(run, task, view.at);
  return run.scopeRow[scope] === null ? 0 : run.scopeRow[scope];
}

// Scrolls to the row of a task if it can't be seen.
function showRow(task) {
  const top = scrolledTo(byId('rows'), sizes.rowsTop, sizes.rows, heightOfRows(), rowOf(task) * ROW, ROW);
  if (top !== sizes.rowsTop) changed(ROWS);
  sizes.rowsTop = top;
}

const heightOfRows = () => Math.min(MOST_HEIGHT, rowsNow() * ROW + 6);

function setRows(which) {
  view.rows = which;
  for (const name of ['tree', 'packed', 'finishes']) {
    byId('rows-' + name).setAttribute('aria-pressed', String(name === which));
  }
  byId('rows-note').textContent = which === 'finishes' ? finishesNote()
    : 'thick: runs · thin: in a deque · dashed: waits at its finish';
  keepHeight(byId('tall'), heightOfRows());
  changed(ROWS | CURSOR);
  showRow(taskAtCursor());
  keepLink();
}

function drawRows() {
  const element = byId('rows');
  const width = sizes.lanes;
  const height = sizes.rows;
  const top = sizes.rowsTop;
  const [base, over] = element.firstElementChild.children;
  const first = Math.floor(top / ROW);
  const last = Math.min(rowsNow(), Math.ceil((top + height) / ROW));
  if (view.changed & (WINDOW | ROWS | LOOK)) drawBaseRows(penOf(base, width, height), first, last, top, width);
  const front = penOf(over, width, height);
  for (let row = first; row < last; row++) {
    const middle = row * ROW - top + ROW / 2;
    if (view.rows === 'tree') drawTaskName(front, run.order[row], middle, width);
    else if (view.rows === 'packed') drawPackedName(front, row, middle, width);
    else drawFinishName(front, row, middle, width);
  }
  drawCursor(front, width, height);
}

// What doesn't change when the cursor moves.
function drawBaseRows(pen, first, last, top, width) {
  for (let row = first; row < last; row++) {
    const y = row * ROW - top;
    if (row % 2 === 1) {
      tint(pen, colors.lane, 1);
      pen.fillRect(0, y, width, ROW);
    }
    if (view.rows === 'tree') drawTreeRow(pen, row, y, width, top);
    else if (view.rows === 'packed') drawPackedRow(pen, row, y, width);
    else drawFinishRow(pen, row, y, width);
  }
}

function drawTreeRow(pen, row, y, width, top) {
  const task = run.order[row];
  if (task === view.task) {
    tint(pen, colors.mark, 1);
    pen.fillRect(0, y, width, ROW);
  }
  const at = run.spawned[task];
  if (task > 0 && at >= view.from && at <= view.to) {
    const x = xOf(at + 0.5);
    const parentY = Math.max(-4, treeRow[run.parent[task]] * ROW - top + ROW / 2 + 4);
    tint(pen, colors.soft, 0.55);
    pen.fillRect(x - 0.5, parentY, 1, y + ROW / 2 - parentY);
    pen.globalAlpha = 1;
  }
  drawLife(pen, task, y + ROW / 2, width, 0);
}

// The life of a task: thick while a worker has it, thin in a deque, dashed while it waits at a finish.
function drawLife(pen, task, middle, width, least) {
  const right = width - EDGE;
  const spells = run.spellsOfTask;
  const low = spells.start[task];
  const high = spells.start[task + 1];
  const born = Math.max(0, run.spawned[task]);
  let from = Math.max(low, lastOf(spells, task, run.spellFirst, view.from));
  let drawn = Math.max(GUTTER - 1, least);
  if (from === low) drawQueued(pen, task, born, low < high ? run.spellFirst[spells.items[low]] : run.events, middle, right);
  for (; from < high; from++) {
    const spell = spells.items[from];
    if (run.spellFirst[spell] >= view.to) break;
    const x0 = Math.max(GUTTER, xOf(run.spellFirst[spell]));
    const x1 = Math.min(right, xOf(run.spellLast[spell] + 1));
    if (x1 >= GUTTER && x1 > drawn + 0.5) {
      workerBar(pen, run.spellWorker[spell], x0, middle - 5.5, Math.max(1, x1 - x0), 11, 1);
      drawn = x1;
    }
    if (run.spellEnding[spell] === 'p') {
      const next = from + 1 < high ? run.spellFirst[spells.items[from + 1]] : Math.min(run.ended[task] + 1, run.events);
      dashes(pen, Math.max(GUTTER, xOf(run.spellLast[spell] + 1)), Math.min(right, xOf(next)), middle);
    }
  }
  const end = run.ended[task];
  if (run.isOver[task] && end >= view.from && end < view.to) {
    tint(pen, colors.soft, 1);
    pen.fillRect(Math.min(right, xOf(end + 1)) - 1, middle - 5, 2, 10);
  }
  return drawn;
}

// A task in deques: from its spawn on in that of its parent's worker, from a steal on in that of the thief.
function drawQueued(pen, task, born, until, middle, right) {
  let from = born;
  let worker = task === 0 ? 0 : run.worker[born];
  const part = (to, next) => {
    const x0 = Math.max(GUTTER, xOf(from + 0.5));
    const x1 = Math.min(right, xOf(to));
    if (x1 > x0) {
      tint(pen, colorOf(worker), 0.8);
      pen.fillRect(x0, middle - 1.5, x1 - x0, 3);
      pen.globalAlpha = 1;
    }
    from = to;
    worker = next;
  };
  for (let i = run.eventsOf.start[task]; i < run.eventsOf.start[task + 1]; i++) {
    const e = run.eventsOf.items[i];
    if (run.kind[e] !== STEAL) break;
    part(e + 0.5, run.worker[e]);
  }
  part(until, worker);
}

function dashes(pen, x0, x1, middle) {
  if (x1 <= x0) return;
  pen.strokeStyle = colors.soft;
  pen.lineWidth = 1.5;
  pen.setLineDash([3, 3]);
  pen.beginPath();
  pen.moveTo(x0, middle);
  pen.lineTo(x1, middle);
  pen.stroke();
  pen.setLineDash([]);
}

// Several tasks in one row, one after the other.
function drawPackedRow(pen, row, y, width) {
  const group = run.byRow;
  const high = group.start[row + 1];
  let at = Math.max(group.start[row], lastOf(group, row, run.spawned, view.from));
  let drawn = GUTTER - 1;
  for (; at < high && run.spawned[group.items[at]] < view.to; at++) {
    const task = group.items[at];
    const x1 = xOf(run.ended[task] + 1);
    if (x1 < drawn + 0.5) continue;
    if (x1 - xOf(run.spawned[task]) < 2) {
      const spell = run.spellsOfTask.start[task] < run.spellsOfTask.start[task + 1]
        ? run.spellsOfTask.items[run.spellsOfTask.start[task]] : NONE;
      tint(pen, colorOf(spell < 0 ? NONE : run.spellWorker[spell]), 1);
      pen.fillRect(Math.max(GUTTER, x1 - 2), y + ROW / 2 - 5.5, 2, 11);
      drawn = Math.max(GUTTER, x1);
      at = Math.max(at, lastOf(group, row, run.spawned, eventAt(x1 + 1)) - 1);
      continue;
    }
    if (task === view.task) {
      tint(pen, colors.mark, 1);
      const x0 = Math.max(GUTTER, xOf(run.spawned[task]));
      pen.fillRect(x0, y, Math.min(width, x1) - x0, ROW);
    }
    drawn = drawLife(pen, task, y + ROW / 2, width, drawn - 1);
  }
  pen.globalAlpha = 1;
}

const finishesNote = () => 'solid: the owner works in it · dashed: the owner waits' +
  (run.rescueAt.length > 0 ? ' · dot: a rescue drops its faults' : '');

// Several finishes in one row: solid while the owner works in one, dashed while it waits. A dot at the end of a rescued one.
function drawFinishRow(pen, row, y, width) {
  const group = run.scopesByRow;
  const high = group.start[row + 1];
  const right = width - EDGE;
  let at = Math.max(group.start[row], lastOf(group, row, run.scopeAt, view.from));
  let drawn = -9;
  for (; at < high && run.scopeAt[group.items[at]] < view.to; at++) {
    const scope = group.items[at];
    const x0 = Math.max(GUTTER, xOf(run.scopeAt[scope]));
    const x1 = Math.min(right, xOf(Math.min(run.events, run.scopePassed[scope] + 1)));
    if (x1 < GUTTER || x1 < drawn + 1) continue;
    drawn = x1;
    const middle = y + ROW / 2;
    const parked = clamp(xOf(Math.min(run.events, run.scopeParked[scope] + 1)), x0, x1);
    tint(pen, colors.soft, 1);
    pen.fillRect(x0, middle - 2, Math.max(1, parked - x0), 4);
    if (x1 - x0 < 3) continue;
    dashes(pen, parked, x1, middle);
    tint(pen, colors.soft, 1);
    pen.fillRect(x0, middle - 5, 1.5, 10);
    if (run.scopePassed[scope] < run.events) pen.fillRect(x1 - 1.5, middle - 5, 1.5, 10);
    if (run.rescued[scope] > 0) drawDot(pen, colors.rescue, x1 - 1, middle);
    const name = scopeName(run, scope);
    pen.font = SMALL;
    const needed = pen.measureText(name).width + 6;
    if (x1 - x0 > needed + 12) {
      tint(pen, colors.panel, 0.95);
      pen.fillRect(x0 + 5, middle - 7, needed, 14);
      tint(pen, colors.ink, 1);
      pen.fillText(name, x0 + 8, middle + 0.5);
    }
  }
  pen.globalAlpha = 1;
}

function drawDot(pen, color, x, y) {
  tint(pen, color, 1);
  pen.beginPath();
  pen.arc(x, y, 3.5, 0, 7);
  pen.fill();
}

// ---- the left end of a row

// A sign for where a task is: a triangle (runs), three lines (in a deque), two bars (waits), a hook (has ended), a dot.
function drawState(pen, state, worker, x, middle) {
  pen.fillStyle = colorOf(worker);
  if (state === RUNS) {
    pen.beginPath();
    pen.moveTo(x - 4, middle - 5.5);
    pen.lineTo(x + 6, middle);
    pen.lineTo(x - 4, middle + 5.5);
    pen.fill();
  } else if (state === QUEUED) {
    for (let y = -4; y <= 4; y += 4) pen.fillRect(x - 4, middle + y - 1, 9, 2);
  } else if (state === WAITS) {
    pen.fillStyle = colors.ink;
    pen.fillRect(x - 3, middle - 4.5, 3, 9);
    pen.fillRect(x + 2, middle - 4.5, 3, 9);
  } else if (state === ENDED) {
    pen.strokeStyle = colors.soft;
    pen.lineWidth = 1.8;
    pen.beginPath();
    pen.moveTo(x - 4, middle);
    pen.lineTo(x - 1, middle + 4);
    pen.lineTo(x + 5, middle - 4);
    pen.stroke();
  } else {
    pen.fillStyle = colors.soft;
    pen.beginPath();
    pen.arc(x, middle, 1.8, 0, 7);
    pen.fill();
  }
}

function drawTaskName(pen, task, middle, width) {
  const {state, worker} = whereIs(run, task, view.at);
  if (task === run.task[view.at]) {
    tint(pen, colors.cursor, 0.1);
    pen.fillRect(0, middle - ROW / 2, width, ROW);
    pen.globalAlpha = 1;
  }
  drawState(pen, state, worker, 14, middle);
  drawRowText(pen, pathOf(run, task), 26 + Math.min(run.depth[task], 6) * 7, middle, state === UNBORN || state === ENDED);
}

// The text of a row, cut at its left if it is too long.
function drawRowText(pen, text, x, middle, faint) {
  pen.font = CODE;
  const most = Math.floor((GUTTER - 4 - x) / 7.3);
  pen.fillStyle = faint ? colors.soft : colors.ink;
  pen.fillText(cut(text, most), x, middle + 0.5);
}

// In a packed row, the task that is there at the cursor.
function packedTask(row, event) {
  const at = lastOf(run.byRow, row, run.spawned, event);
  const task = at < 0 ? NONE : run.byRow.items[at];
  return task >= 0 && (run.ended[task] >= event || !run.isOver[task]) ? task : NONE;
}

function drawPackedName(pen, row, middle, width) {
  const task = packedTask(row, view.at);
  if (task < 0) return;
  const {state, worker} = whereIs(run, task, view.at);
  if (task === run.task[view.at]) {
    tint(pen, colors.cursor, 0.1);
    pen.fillRect(0, middle - ROW / 2, width, ROW);
    pen.globalAlpha = 1;
  }
  drawState(pen, state, worker, 14, middle);
  drawRowText(pen, pathOf(run, task), 26, middle, state === ENDED);
}

function scopeInRow(row, event) {
  const at = lastOf(run.scopesByRow, row, run.scopeAt, event);
  const scope = at < 0 ? NONE : run.scopesByRow.items[at];
  return scope >= 0 && run.scopePassed[scope] >= event ? scope : NONE;
}

function drawFinishName(pen, row, middle, width) {
  const scope = scopeInRow(row, view.at);
  if (scope >= 0 && scope === scopeAround(run, taskAtCursor(), view.at)) {
    tint(pen, colors.cursor, 0.1);
    pen.fillRect(0, middle - ROW / 2, width, ROW);
    pen.globalAlpha = 1;
  }
  if (scope >= 0) drawRowText(pen, scopeName(run, scope), 12, middle, false);
}
// The panels that say in text what the run is like at the cursor: program, events, finishes, workers, values, output.

const chip = worker => {
  const element = make('span', {class: 'chip-worker', title: 'worker ' + worker}, String(worker));
  element.style.background = colorOf(worker);
  return element;
};
const taskLink = task => make('button', {class: 'link mono', 'data-task': String(task), type: 'button'}, pathOf(run, task));
const eventLink = event => make('button', {class: 'link', 'data-event': String(event), type: 'button'}, num(event));
const small = (...texts) => make('small', null, ...texts);

// ---- the program's text

const LINE = 20;                    // the height of a line of the text, as in page.css
const MOST_LINES_AT_ONCE = 1500;    // of a longer text only the lines around those in view are there

const textLines = program.text.replace(/\\n$/, '').split('\\n');
const firstLabels = labelsByLine();
const stepsByLabel = Array.from({length: program.labels + 1}, (_, label) => itemsOf(run.stepsAt, label).length);
const mostSteps = largest(stepsByLabel);

const heads = [];           // for each label the elements of its head, on the lines that are there
let marked = [];
let there = {from: 0, to: 0};
let revealed = 0;

// For each line the first label on it or after it.
function labelsByLine() {
  const first = new Int32Array(textLines.length + 1);
  let label = 1;
  for (let i = 0; i <= textLines.length; i++) {
    while (label <= program.labels && program.heads[label].line < i + 1) label++;
    first[i] = label;
  }
  return first;
}

// Writes the lines that can be seen, if they aren't there.
function keepLines() {
  const n = textLines.length;
  const first = n <= MOST_LINES_AT_ONCE ? 0 : Math.min(n, Math.floor(sizes.textTop / LINE));
  const last = n <= MOST_LINES_AT_ONCE ? n : Math.min(n, first + Math.ceil(sizes.text / LINE) + 1);
  if (first >= there.from && last <= there.to && there.to > 0) return;
  there = {from: Math.max(0, first - 100), to: Math.min(n, last + 100)};
  heads.length = 0;
  marked = [];
  const rows = textLines.slice(there.from, there.to).map((text, i) => lineOf(text, there.from + i));
  byId('text').replaceChildren(space(there.from), ...rows, space(n - there.to));
}

function space(lines) {
  const element = make('div');
  element.style.height = lines * LINE + 'px';
  return element;
}

function lineOf(text, i) {
  const start = program.lineStarts[i];
  const code = make('span', {class: 'code'});
  const first = firstLabels[i];
  let steps = 0;
  let at = 0;
  const open = program.heads[first - 1];
  if (first > 1 && open.from < start && open.to > start) at = addHead(code, text, start, 0, first - 1);
  for (let label = first; label < firstLabels[i + 1]; label++) {
    const from = program.heads[label].from - start;
    addTokens(code, text.slice(at, from));
    steps = Math.max(steps, stepsByLabel[label]);
    at = addHead(code, text, start, from, label);
  }
  addTokens(code, text === '' ? ' ' : text.slice(at));
  const heat = make('span', {class: 'heat'});
  heat.style.width = (steps > 0 ? Math.max(1, 22 * steps / mostSteps) : 0) + 'px';
  const label = firstLabels[i + 1] > first ? String(first) : '';
  return make('div', {class: 'line'}, make('span', {class: 'number'}, String(i + 1)), make('span', {class: 'label'}, label),
    heat, code, make('span', {class: 'who'}));
}

// Adds the part of a statement's head that is on a line, and returns where it ends.
function addHead(code, text, start, from, label) {
  const to = Math.min(text.length, program.heads[label].to - start);
  const title = `label ${label}: ${count(stepsByLabel[label], 'step')}`;
  const head = make('span', {class: 'head', 'data-label': String(label), title});
  addTokens(head, text.slice(from, to));
  code.append(head);
  (heads[label] = heads[label] || []).push(head);
  return to;
}

function addTokens(parent, text) {
  let at = 0;
  for (const found of text.matchAll(TOKEN)) {
    if (found.index > at) parent.append(text.slice(at, found.index));
    const word = found[0];
    const comment = word.startsWith('//');
    parent.append(comment ? make('i', null, word) : WORDS.has(word) ? make('b', null, word) : word);
    at = found.index + word.length;
  }
  if (at < text.length) parent.append(text.slice(at));
}

// Marks where each worker's task is, and the statement of the event under the cursor.
function drawProgram() {
  reveal(labelOf(view.at));
  keepLines();
  for (const head of marked) {
    head.classList.remove('now', 'near');
    const who = head.closest('.line').lastChild;
    who.replaceChildren();
  }
  marked = [];
  const own = run.label[view.at];
  const mark = (label, name) => {
    for (const head of heads[label] || []) {
      head.classList.add(name);
      marked.push(head);
    }
  };
  for (let worker = 0; worker < run.lanes; worker++) {
    const spell = spellAt(run, worker, view.at);
    if (spell < 0) continue;
    const step = lastStep(run, run.spellTask[spell], view.at);
    const label = step < 0 ? 0 : run.label[step];
    if (label === 0) continue;
    mark(label, 'near');
    if (heads[label]) addChip(heads[label][0].closest('.line').lastChild, worker);
  }
  if (own > 0) mark(own, 'now');
  for (const head of byId('text').querySelectorAll('.hit')) head.classList.remove('hit');
  if (view.label > 0) for (const head of heads[view.label] || []) head.classList.add('hit');
}

// Adds the number of a worker to the end of a line. A line has room for a few.
function addChip(who, worker) {
  const most = 6;
  if (who.childElementCount < most) who.append(chip(worker));
  else if (who.childElementCount === most) who.append(make('small', null, '+1'));
  else who.lastChild.textContent = '+' + (Number(who.lastChild.textContent) + 1);
}

// The statement of the task of an event, also if the event takes no step.
const labelOf = event => (run.events === 0 ? 0 : labelOfTask(run.task[event], event));

// The label of the statement that a task executed last.
function labelOfTask(task, event) {
  const step = lastStep(run, task, event);
  return step < 0 ? 0 : run.label[step];
}

// Scrolls the text so that the statement with a label can be seen, unless it was the last one for which that was done.
function reveal(label) {
  if (label === 0 || label === revealed) return;
  revealed = label;
  const y = 6 + (program.heads[label].line - 1) * LINE;
  sizes.textTop = scrolledTo(byId('text'), sizes.textTop, sizes.text, textLines.length * LINE + 26, y, LINE);
}

// ---- the table of labels

const MOST_LABELS = 3000;
let sortBy = 'label';

function drawLabels() {
  const cost = run.data.cost;
  const chained = new Int32Array(program.labels + 1);
  for (const e of run.chainEvents) chained[run.label[e]]++;
  const rows = [];
  for (let label = 1; label <= program.labels; label++) {
    rows.push(cost ? {label, work: cost.work[label - 1], span: cost.span[label - 1]}
      : {label, work: stepsByLabel[label], span: chained[label]});
  }
  const order = {label: (a, b) => a.label - b.label, work: (a, b) => b.work - a.work || a.label - b.label,
    span: (a, b) => b.span - a.span || a.label - b.label};
  rows.sort(order[rows.length > MOST_LABELS && sortBy === 'label' ? 'work' : sortBy]);
  const total = Math.max(1, rows.reduce((sum, row) => sum + row.work, 0));
  const head = ['label', 'work', 'span'].map(name => make('th', {'aria-sort': sortBy === name ? 'descending' : null},
    make('button', {class: 'link', 'data-sort': name, type: 'button'}, name)));
  const body = rows.slice(0, MOST_LABELS).map(({label, work, span}) => {
    const name = {'data-label': String(label)};
    return make('tr', {...name, class: label === view.label ? 'hit' : null},
      make('td', null, make('button', {...name, class: 'link', type: 'button'}, String(label))),
      make('td', null, num(work)), make('td', null, num(span)),
      make('td', null, shareBar(work / total), make('code', null, statement(program, label))));
  });
  fill(byId('labels'), make('table', null, make('thead', null, make('tr', null, ...head, make('th', null, 'statement'))),
    make('tbody', null, ...body)));
  const part = rows.length > MOST_LABELS ? `the first ${num(MOST_LABELS)} of ${num(rows.length)}, ` : '';
  byId('labels-note').textContent = part + (cost ? 'as `cost` prints them' : 'steps in this trace and on its longest chain');
}

function shareBar(share) {
  const bar = make('span', {class: 'share'});
  bar.style.width = Math.round(60 * share) + 'px';
  return bar;
}

// ---- events

function drawEventList() {
  const element = byId('log');
  const shown = Math.max(7, Math.floor(sizes.log / 20) - 1);
  const first = clamp(view.at - Math.floor(shown / 2), 0, Math.max(0, run.events - shown));
  const rows = [];
  for (let e = first; e < Math.min(run.events, first + shown); e++) {
    const when = e === view.at ? ' now' : e > view.at ? ' later' : '';
    rows.push(make('div', {class: 'event' + when, 'data-event': String(e), 'aria-current': e === view.at ? 'true' : null},
      make('span', {class: 'mono'}, num(e)), run.worker[e] < 0 ? make('span') : chip(run.worker[e]),
      make('span', null, brief(run, program, e))));
  }
  fill(element, ...rows);
  const cause = run.events > 0 ? causeOf(run, view.at) : NONE;
  fill(byId('log-note'), ...(cause < 0 ? [] : ['after ', eventLink(cause)]));
  byId('log-note').title = cause < 0 ? '' : 'what led to it: ' + sentence(run, cause);
}

// ---- finishes

const MOST_SCOPES = 40;
const MOST_HOLDERS = 48;

function openScopes(event) {
  const open = [];
  for (let s = lastUpTo(run.scopeAt, event); s >= 0; s--) if (run.scopePassed[s] > event) open.push(s);
  return open;
}

function drawScopes() {
  const open = openScopes(view.at);
  const passing = run.kind[view.at] === PASS ? [run.scope[view.at]] : [];
  const rows = passing.concat(open).slice(0, MOST_SCOPES).map(scope => {
    const {issued, returned} = bookAfter(run, scope, view.at);
    const holders = holdersOf(run, scope, view.at);
    const bar = make('div', {class: 'bar'});
    bar.append(barPart(returned / issued, colors.soft, false, `${num(returned)} of ${num(issued)} are back`));
    for (const {task, weight} of holders.slice(0, MOST_HOLDERS)) {
      const {state, worker} = whereIs(run, task, view.at);
      const title = `task ${pathOf(run, task)} ${STATES[state]} and has ${num(weight)}`;
      bar.append(barPart(weight / issued, colorOf(worker), state !== RUNS, title));
    }
    const names = holders.slice(0, 4).flatMap(({task, weight}, i) => [i > 0 ? ', ' : '', taskLink(task), ' ' + num(weight)]);
    const passes = scope === passing[0];
    return make('div', {class: 'item', 'data-scope': scopeName(run, scope)},
      make('div', {class: 'top'}, make('b', {class: 'mono'}, scopeName(run, scope)),
        small(passes ? 'passes: all is back' : `issued ${num(issued)}, returned ${num(returned)}`)), bar,
      holders.length > 0 ? small('out: ', ...names, holders.length > 4 ? ` and ${num(holders.length - 4)} more` : '') : null,
      small(...timesOf(scope)));
  });
  fill(byId('scopes'), ...rows);
  byId('scopes-note').textContent = `${num(open.length)} open`;
}

// When a scope is opened, when its owner parks there, and when it passes.
function timesOf(scope) {
  const times = [['opens', run.scopeAt[scope]], ['waits', run.scopeParked[scope]], ['passes', run.scopePassed[scope]]]
    .filter(([, at]) => at < run.events);
  return times.flatMap(([what, at], i) => [i > 0 ? ' · ' : '', what + ' ', eventLink(at)]);
}

function barPart(share, color, hatched, title) {
  const part = make('i', {title});
  part.style.width = 100 * share + '%';
  part.style.background = hatched ? `repeating-linear-gradient(135deg, ${color} 0 2px, transparent 2px 5px)` : color;
  return part;
}

// ---- workers, and tasks by where they are

function drawWorkers() {
  const deques = [];
  const waiting = [];
  let runs = 0;
  let queued = 0;
  const live = liveTasks(run, view.at);
  for (const task of live) {
    const {state, worker} = whereIs(run, task, view.at);
    if (state === QUEUED) {
      (deques[worker] = deques[worker] || []).push(task);
      queued++;
    } else if (state === WAITS) waiting.push(task);
    else if (state === RUNS) runs++;
  }
  const begun = lastUpTo(run.spawned, view.at) + 1;
  const counts = `${num(runs)} run · ${num(queued)} queued · ${num(waiting.length)} wait · ${num(begun - live.length)} ended`;
  const list = (tasks, most) => tasks.slice(-most).flatMap(task => [taskLink(task), ' '])
    .concat(tasks.length > most ? [`and ${num(tasks.length - most)} more`] : []);
  const rows = [make('div', {class: 'item', id: 'task-counts'}, small(counts))];
  for (let worker = 0; worker < run.lanes; worker++) {
    const spell = spellAt(run, worker, view.at);
    const step = spell < 0 ? NONE : lastStep(run, run.spellTask[spell], view.at);
    const queue = deques[worker] || [];
    rows.push(make('div', {class: 'item', 'data-worker': String(worker)},
      make('div', {class: 'top'}, chip(worker), spell < 0 ? small('idle') : taskLink(run.spellTask[spell]),
        step < 0 ? null : make('code', null, `${run.label[step]} ${statement(program, run.label[step])}`)),
      small('deque: ', ...(queue.length > 0 ? list(queue, 6) : ['empty']))));
  }
  if (waiting.length > 0) rows.push(make('div', {class: 'item'}, small('waiting at a finish: ', ...list(waiting, 12))));
  fill(byId('workers'), ...rows);
}

// ---- the tree of tasks

const MOST_TASKS = 200;
const SIGN_OF = ['·', '≡', '▶', '‖', '✓'];

// The tasks that are there after an event, in the order of their paths: a row for each task that is live or has live tasks
// below it, and one for neighbours that have ended with all tasks below them.
function taskRows(event) {
  const begun = lastUpTo(run.spawned, event) + 1;
  const live = new Int32Array(begun);
  const size = new Int32Array(begun).fill(1);
  for (let task = begun - 1; task >= 0; task--) {
    if (!run.isOver[task] || run.ended[task] > event) live[task]++;
    if (task === 0) break;
    live[run.parent[task]] += live[task];
    size[run.parent[task]] += size[task];
  }
  const rows = [];
  const stack = [0];
  while (stack.length > 0) {
    const task = stack.pop();
    const before = rows[rows.length - 1];
    if (live[task] > 0) {
      rows.push({task, last: task, ended: 0});
      const {start, items} = run.children;
      for (let i = start[task + 1] - 1; i >= start[task]; i--) if (items[i] < begun) stack.push(items[i]);
    } else if (before && before.ended > 0 && run.parent[before.task] === run.parent[task]) {
      before.last = task;
      before.ended += size[task];
    } else {
      rows.push({task, last: task, ended: size[task]});
    }
  }
  return rows;
}

function drawTasks() {
  const all = taskRows(view.at);
  const at = lastUpTo(all.map(row => treeRow[row.task]), treeRow[taskAtCursor()]);
  const first = clamp(at - MOST_TASKS / 2, 0, Math.max(0, all.length - MOST_TASKS));
  const rows = all.slice(first, first + MOST_TASKS).map((row, i) => {
    const element = row.ended > 0 ? endedRow(row) : liveRow(row.task);
    if (first + i === at) element.classList.add('now');
    element.style.paddingLeft = 12 + 10 * Math.min(run.depth[row.task], 12) + 'px';
    return element;
  });
  const live = all.reduce((sum, row) => sum + (row.ended === 0 && whereIs(run, row.task, view.at).state !== ENDED), 0);
  const begun = lastUpTo(run.spawned, view.at) + 1;
  const more = all.length - rows.length;
  fill(byId('tasks'), ...rows, more > 0 ? small(`and ${num(more)} more rows before and after these`) : null);
  byId('tasks-note').textContent = `${num(live)} live, ${num(begun - live)} ended`;
}

function liveRow(task) {
  const {state, worker} = whereIs(run, task, view.at);
  const label = state === RUNS ? labelOfTask(task, view.at) : 0;
  const row = make('div', {class: 'task', 'data-state': STATES[state], 'data-count': '1'},
    make('span', {class: 'sign'}, SIGN_OF[state]), taskLink(task), small(STATES[state] + (state === QUEUED || state === RUNS
      ? ', worker ' + worker : '')), label > 0 ? make('code', null, `${label} ${statement(program, label)}`) : null);
  row.firstChild.style.color = state === ENDED ? colors.soft : colorOf(worker);
  return row;
}

// Tasks that have ended with all below them.
function endedRow({task, last, ended}) {
  const below = ended > 1 ? `${num(ended)} have ended` : 'has ended';
  const row = make('div', {class: 'task', 'data-state': STATES[ENDED], 'data-count': String(ended)},
    make('span', {class: 'sign'}, SIGN_OF[ENDED]), taskLink(task), last === task ? null : small('to '),
    last === task ? null : taskLink(last), small(below));
  row.firstChild.style.color = colors.soft;
  return row;
}

// ---- values of the task at the cursor

const MOST_ELEMENTS = 160;

function drawValues() {
  const task = view.task >= 0 && view.task < run.tasks ? view.task : taskAtCursor();
  const {state} = whereIs(run, task, view.at);
  byId('values-note').textContent = `task ${pathOf(run, task)}`;
  const flow = flowOf(run, task, view.at);
  const parts = [make('div', {class: 'item'}, make('div', {class: 'top'}, taskLink(task), small(STATES[state])),
    flow === 'on' ? null : small(flow === 'stopped' ? 'stopped: over its budget' : 'faulted: continues after its finish'))];
  if (state !== UNBORN && state !== ENDED) {
    const place = placeOf(task);
    parts.push(scalarTable(task, place), ...place.sections.map(section => sectionRow(task, place, section)));
  }
  fill(byId('values'), ...parts);
}

// The procedure in which a task is, and which names are in scope there.
function placeOf(task) {
  const step = lastStep(run, task, view.at);
  const label = step < 0 ? 0 : run.label[step];
  const calls = label > 0 && run.task[step] === task && changesAt(run.faultAt, step).length === 0;
  const callee = calls ? calleeOf(program, label) : NONE;
  const number = callee >= 0 ? callee : label > 0 ? procedureOf(program, label) : program.procedures.length - 1;
  const procedure = program.procedures[number];
  const head = program.heads[label];
  const ranges = program.ranges[number];
  if (label === 0) return {procedure, scalars: [], sections: program.arrays.map((array, i) => i)};
  // After a call, the task is before the first statement of the callee: only parameters are in scope.
  const entered = program.heads[procedure.first] || head;
  const isVisible = range => (callee >= 0 ? range.from < entered.from : range.from <= head.from && head.from < range.to);
  const visible = (names, list) => names.map((name, i) => i).filter(i => list[i] && isVisible(list[i]));
  const scalars = visible(procedure.scalars, ranges.scalars);
  return {procedure, scalars, sections: visible(procedure.sections, ranges.sections)};
}

function scalarTable(task, place) {
  if (place.scalars.length === 0) return null;
  return make('table', {class: 'scalars'}, make('tbody', null, ...place.scalars.map(slot => {
    const {value, at} = scalarAfter(run, task, slot, view.at);
    return make('tr', {class: at === view.at ? 'now' : null}, make('td', {class: 'mono'}, place.procedure.scalars[slot]),
      make('td', {class: 'mono value'}, String(value)), make('td', null, at < 0 ? '' : small('since ', eventLink(at))));
  })));
}

const HELD = ['not held', 'owned', 'a copy', 'given to a child'];
const HELD_CLASS = ['foreign', 'owned', 'copied', 'given'];

// A section: which part of which array it is, what of it the task holds, and the numbers.
function sectionRow(task, place, section) {
  const {array, first, length} = windowAfter(run, task, section, view.at);
  const name = place.procedure.sections[section];
  const arrayName = run.data.arrays[array].name;
  const {from, to} = shownPart(task, array, first, length);
  const held = holdings(run, task, array, from, to - from, view.at);
  const kinds = [1, 2, 3].filter(kind => held.includes(kind)).map(kind => HELD[kind]);
  const cells = [];
  for (let index = from; index < to; index++) {
    const {value, at} = elementAfter(run, array, index, view.at);
    const kind = held[index - from];
    cells.push(make('span', {class: `cell ${HELD_CLASS[kind]}${at === view.at ? ' now' : ''}`,
      title: `${arrayName}[${index}]: ${HELD[kind]}${at < 0 ? '' : ', stored at event ' + num(at)}`},
      kind === OWNED || kind === COPIED ? String(value) : '·'));
  }
  return make('div', {class: 'item', 'data-section': name}, make('div', {class: 'top'}, make('b', {class: 'mono'}, name),
    small(`${arrayName}[${num(first)} .. ${num(first + length)}], ${kinds.join(', ') || 'nothing held'}`)),
    make('div', {class: 'cells mono'}, from > first ? `… from ${num(from)}: ` : '', ...cells,
      to < first + length ? ' …' : ''));
}

// Of a long section, the elements around the one that the task stored last.
function shownPart(task, array, first, length) {
  if (length <= MOST_ELEMENTS) return {from: first, to: first + length};
  const {index, array: arrays} = run.data.stores;
  const place = lastOf(run.storesBy, task, run.storeAt, view.at);
  const store = place < 0 ? NONE : run.storesBy.items[place];
  const near = store >= 0 && arrays[store] === array ? index[store] : first;
  const from = clamp(near - MOST_ELEMENTS / 2, first, first + length - MOST_ELEMENTS);
  return {from, to: from + MOST_ELEMENTS};
}

// ---- output

const MOST_LINES = 400;

function drawOutput() {
  const rows = [];
  let lines = 0;
  let faults = 0;
  for (const e of run.inOrder) {
    if (e > view.at) continue;
    for (const line of changesAt(run.lineAt, e)) {
      lines++;
      if (lines <= MOST_LINES) rows.push(outputRow(e, run.data.lines.values[line].join(' '), false));
    }
    faults += faultsKept(run, e, view.at).length;
  }
  if (lines > MOST_LINES) rows.push(small(`and ${num(lines - MOST_LINES)} more lines`));
  for (const e of run.inOrder) {
    if (e > view.at) continue;
    for (const fault of faultsKept(run, e, view.at)) {
      rows.push(outputRow(e, `fault ${pathOf(run, run.task[e])} at ${run.label[e]}: ${faultKind(run, fault)}`, true));
    }
  }
  const over = run.events > 0 && run.scopePassed[0] <= view.at;
  const stopped = run.data.flows.flow.includes('s');
  if (over && stopped) rows.unshift(make('div', {class: 'item'}, 'The outcome is ', make('b', null, 'stopped'),
    '. Nothing of this is printed.'));
  fill(byId('output'), ...(rows.length > 0 ? rows : [small('No line has been printed yet.')]));
  const how = over ? ', the whole outcome' : ' so far';
  byId('output-note').textContent = `${count(lines, 'line')}, ${count(faults, 'fault')}${how}`;
}

function outputRow(event, text, isFault) {
  return make('div', {class: isFault ? 'output fault' : 'output', 'data-event': String(event),
    title: `event ${num(event)}, task ${pathOf(run, run.task[event])}`}, text);
}

// ---- what never changes

function writeFacts() {
  const {summary} = run;
  const parallelism = summary.span > 0 ? (Math.floor(summary.steps / summary.span * 100) / 100).toFixed(2) : '-';
  const by = summary.steps_by_worker.slice(0, Math.min(8, run.lanes)).map(num).join(' · ') + (run.lanes > 8 ? ' ..' : '');
  const facts = [['tasks', num(summary.tasks)], ['steps', num(summary.steps)], ['span', num(summary.span)],
    ['parallelism', parallelism], ['steals', num(summary.steals)], ['replenishments', num(summary.replenishments)],
    ['most live tasks', num(summary.most_live_tasks)], ['deepest nest', num(summary.deepest_nest)], ['steps by worker', by]];
  fill(byId('facts'), ...facts.map(([name, value]) => make('div', null, make('dt', null, name), make('dd', null, value))));
  byId('name').textContent = run.data.name;
  byId('name').title = run.data.isExplored ? 'a run by one worker' : 'trace: ' + run.data.trace;
  byId('what').textContent = run.data.isExplored ? 'afx explore' : 'afx trace';
  document.title = (run.data.isExplored ? 'afx explore ' : 'afx trace of ') + run.data.name;
}

function drawPanels() {
  drawProgram();
  const panels = {log: drawEventList, output: drawOutput, scopes: drawScopes, tasks: drawTasks, workers: drawWorkers,
    values: drawValues};
  for (const name of Object.keys(panels)) if (!byId(name).hidden) panels[name]();
  if (!byId('labels').hidden && view.changed & LOOK) drawLabels();
  const text = run.events > 0 ? wholeTale(run, program, view.at) : 'no event';
  byId('say').textContent = text;
  byId('say').title = text;
  byId('slide').value = view.at;
  const lanes = byId('lanes');
  lanes.setAttribute('aria-valuenow', String(view.at));
  lanes.setAttribute('aria-valuetext', `event ${num(view.at)}: ${text}`);
}
// Other schedules of the run: the reader chooses which task takes the next step. A task takes the same steps under each
// schedule, so the events of one run are enough for all of them. `afx explore` takes the same choices.

const MOST_STEPS = 2000;      // of the longest run whose schedules can be explored
const MOST_LEAVES = 300;
const MOST_ROWS = 400;

const schedule = {choices: [], events: [], trees: []};
const acts = [];

// What a task does in order: its steps, the ends of its finishes, and its end.
function actsOf(task) {
  const matters = event => takesStep(run.kind[event]) || run.kind[event] === PARK || run.kind[event] === END;
  if (!acts[task]) acts[task] = Array.from(itemsOf(run.eventsOf, task)).filter(matters);
  return acts[task];
}

// ---- step trees

// A task that is about to do what it does at a position. `told` are the events whose lines and faults come before that.
function leafOf(task, at, told) {
  const event = actsOf(task)[at];
  const ready = event !== undefined && takesStep(run.kind[event]) ? 1 : 0;
  return {kind: 'leaf', task, at, told, event, ready, done: ready === 0};
}

const besideOf = (left, right) =>
  ({kind: 'beside', left, right, ready: left.ready + right.ready, done: left.done && right.done});

// A finish whose body is a tree. The owner continues as soon as all in it is done. A rescue drops the faults.
function finishOf(first, owner, scope) {
  if (!first.done) return {kind: 'finish', first, owner, scope, ready: first.ready, done: false};
  const told = toldIn(first);
  return leafOf(owner, rightmost(first).at + 1, run.rescued[scope] > 0 ? told.filter(isNoFault) : told);
}

const isNoFault = event => changesAt(run.faultAt, event).length === 0;

function rightmost(tree) {
  let at = tree;
  while (at.kind === 'beside') at = at.right;
  return at;
}

// The lines and faults so far, in the order of the outcome.
function toldIn(tree) {
  if (tree.kind === 'leaf') return tree.told;
  return tree.kind === 'finish' ? toldIn(tree.first) : toldIn(tree.left).concat(toldIn(tree.right));
}

// The tree after a step of the task with a number, among those that can take one, from the left.
function stepped(tree, number) {
  if (tree.kind === 'finish') return finishOf(stepped(tree.first, number), tree.owner, tree.scope);
  if (tree.kind === 'leaf') return afterStep(tree);
  const {left, right} = tree;
  return number < left.ready ? besideOf(stepped(left, number), right) : besideOf(left, stepped(right, number - left.ready));
}

function afterStep({task, at, told, event}) {
  if (run.kind[event] === SPAWN) return besideOf(leafOf(childAt(run, event), 0, told), leafOf(task, at + 1, []));
  if (run.kind[event] === OPEN) return finishOf(leafOf(task, at + 1, told), task, run.scope[event]);
  const tells = changesAt(run.lineAt, event).length > 0 || changesAt(run.faultAt, event).length > 0;
  return leafOf(task, at + 1, tells ? told.concat(event) : told);
}

function leafAt(tree, number) {
  if (tree.kind === 'leaf') return tree;
  if (tree.kind === 'finish') return leafAt(tree.first, number);
  return number < tree.left.ready ? leafAt(tree.left, number) : leafAt(tree.right, number - tree.left.ready);
}

// ---- choices

const treeNow = () => schedule.trees[schedule.trees.length - 1];

// Why schedules of this run can't be explored, or an empty text.
function whyNoSchedules() {
  if (run.events === 0 && run.data.isExplored) return `The run takes more than ${num(MOST_STEPS)} steps.`;
  if (run.events === 0 || !run.isOver[0]) return 'The trace ends before the run.';
  if (run.data.flows.flow.includes('s')) return 'The run is stopped: a task is over its budget.';
  const {steps} = run.summary;
  return steps > MOST_STEPS ? `The run takes ${num(steps)} steps. At most ${num(MOST_STEPS)} can be explored.` : '';
}

function startSchedule() {
  schedule.choices = [];
  schedule.events = [];
  schedule.trees = [leafOf(0, 0, [])];
}

// Lets the task with a number take the next step. Returns whether there is one.
function choose(number) {
  const tree = treeNow();
  if (number >= tree.ready) return false;
  schedule.choices.push(number);
  schedule.events.push(leafAt(tree, number).event);
  schedule.trees.push(stepped(tree, number));
  return true;
}

function backTo(steps) {
  schedule.choices.length = schedule.events.length = steps;
  schedule.trees.length = steps + 1;
}

function chooseAll(choices) {
  startSchedule();
  for (const choice of choices) if (!choose(choice)) return;
}

// ---- what is shown

function openSchedules() {
  const why = whyNoSchedules();
  byId('schedules-why').textContent = why;
  byId('schedules-why').hidden = why === '';
  byId('schedules-all').hidden = why !== '';
  if (!byId('schedules').open) byId('schedules').showModal();
  if (why === '') {
    if (schedule.trees.length === 0) startSchedule();
    drawSchedule();
  }
  keepLink();
}

// A leaf with its number, if it can take a step; or what it waits for.
function leafRow(leaf, numbers) {
  numbers.leaves++;
  const path = make('span', {class: 'link mono'}, cut(pathOf(run, leaf.task), 16));
  if (leaf.ready === 0) {
    const ended = leaf.event === undefined || run.kind[leaf.event] === END || leaf.task === 0 && numbers.depth === 0;
    return make('div', {class: 'leaf'}, make('span', {class: 'sign'}, ended ? '✓' : '‖'), path,
      small(ended ? 'has ended' : 'is at the end of its finish'));
  }
  const number = numbers.next++;
  const text = `${run.label[leaf.event]}  ${statement(program, run.label[leaf.event])}`;
  return make('div', {class: 'leaf'}, make('button', {type: 'button', 'data-choice': String(number),
    title: `let task ${pathOf(run, leaf.task)} take the next step`}, String(number)), path, make('code', null, text));
}

function treeRows(tree, numbers) {
  if (numbers.leaves > MOST_LEAVES) {
    numbers.next += tree.ready;
    return [];
  }
  if (tree.kind === 'leaf') return [leafRow(tree, numbers)];
  if (tree.kind === 'beside') return treeRows(tree.left, numbers).concat(treeRows(tree.right, numbers));
  numbers.depth++;
  const inner = treeRows(tree.first, numbers);
  numbers.depth--;
  return [make('div', {class: 'body'}, ...inner, small(`then task ${pathOf(run, tree.owner)} continues`))];
}

function stepRow(event, i) {
  const effect = effectOf(run, program, event);
  const last = i === schedule.events.length - 1;
  return make('div', {class: last ? 'event now' : 'event', 'data-back': String(i + 1), title: 'go back to this step'},
    make('span', {class: 'mono'}, String(i)), make('span', {class: 'choice-number'}, String(schedule.choices[i])),
    make('span', null, [brief(run, program, event).replace(/;$/, '')].concat(effect).join('; ')));
}

// The number that an element has after the chosen steps, by the place of the element.
function valuesNow() {
  const values = new Map();
  for (const event of schedule.events) {
    for (const store of changesAt(run.storeAt, event)) {
      const {array, index, value} = run.data.stores;
      values.set(run.arrayStart[array[store]] + index[store], {value: value[store], at: event});
    }
  }
  return values;
}

function arrayRow(array, number, values) {
  const last = schedule.events[schedule.events.length - 1];
  const cells = [];
  for (let i = 0; i < Math.min(array.length, MOST_ELEMENTS); i++) {
    const found = values.get(run.arrayStart[number] + i);
    const value = found ? found.value : i < array.initial.length ? array.initial[i] : 0;
    cells.push(make('span', {class: found && found.at === last ? 'cell owned now' : 'cell owned'}, String(value)));
  }
  return make('div', {class: 'item'}, make('b', {class: 'mono'}, array.name), make('div', {class: 'cells mono'}, ...cells,
    array.length > MOST_ELEMENTS ? ' …' : ''));
}

function toldRow(event) {
  const lines = changesAt(run.lineAt, event).map(line => run.data.lines.values[line].join(' '));
  const faults = changesAt(run.faultAt, event).map(fault =>
    `fault ${pathOf(run, run.task[event])} at ${run.label[event]}: ${faultKind(run, fault)}`);
  return make('div', {class: faults.length > 0 ? 'output fault' : 'output'}, ...lines, ...faults);
}

function drawSchedule() {
  const tree = treeNow();
  const numbers = {next: 0, leaves: 0, depth: 0};
  const rows = treeRows(tree, numbers);
  fill(byId('tree'), ...rows, numbers.leaves > MOST_LEAVES ? small('and more') : null);
  byId('tree-note').textContent = tree.done ? 'the run has ended' : `${count(tree.ready, 'task')} can take a step`;
  const first = Math.max(0, schedule.events.length - MOST_ROWS);
  fill(byId('chosen'), first > 0 ? small(`${count(first, 'step')} before these`) : null,
    ...schedule.events.slice(first).map((event, i) => stepRow(event, first + i)));
  byId('chosen-note').textContent = `${num(schedule.events.length)} of ${count(run.summary.steps, 'step')}`;
  byId('chosen').scrollTop = byId('chosen').scrollHeight;
  const values = valuesNow();
  const told = toldIn(tree);
  fill(byId('reached'), ...run.data.arrays.map((array, i) => arrayRow(array, i, values)), ...told.map(toldRow),
    tree.done ? small('Each schedule of this program comes to this outcome.') : null);
  byId('command').textContent = commandNow();
  byId('undo').disabled = schedule.choices.length === 0;
  byId('random').disabled = byId('leftmost').disabled = tree.done;
  keepLink();
}

// The command that takes these choices. A page doesn't know the name of the input.
function commandNow() {
  const given = run.data.arrays.some(array => array.initial.length > 0) ? ' --input ..' : '';
  const choices = schedule.choices.length > 0 ? ' --choices ' + schedule.choices.join(',') : '';
  return `afx explore ${program.name}${given}${choices}`;
}

const CHOOSING = {
  Backspace: () => backTo(Math.max(0, schedule.choices.length - 1)),
  Home: () => backTo(0),
  End: () => { while (choose(0)) { /* the leftmost task takes each step */ } },
  r: () => choose(Math.floor(Math.random() * treeNow().ready)),
};

function chosenBy(key) {
  if (/^[0-9]$/.test(key)) choose(Number(key));
  else if (Object.prototype.hasOwnProperty.call(CHOOSING, key)) CHOOSING[key]();
  else return false;
  drawSchedule();
  return true;
}

byId('schedules').addEventListener('keydown', event => {
  if (event.ctrlKey || event.metaKey || event.altKey || schedule.trees.length === 0) return;
  if (chosenBy(event.key)) event.preventDefault();
});
byId('schedules').addEventListener('close', keepLink);
byId('schedules').addEventListener('click', event => {
  const target = event.target.closest('[data-choice], [data-back], [data-choosing]');
  if (!target) return;
  const {choice, back, choosing} = target.dataset;
  if (choice !== undefined) choose(Number(choice));
  else if (back !== undefined) backTo(Number(back));
  else CHOOSING[choosing]();
  drawSchedule();
  if (choice !== undefined) byId('tree').focus();
});
// Keys, pointer, buttons, search; and the loop that draws what has changed.

// ---- steps

// The next event of the task, the steal, the finish or the marked label before or after the cursor.
function stepBy(what, direction) {
  let target;
  if (what === 'task') {
    const task = view.task >= 0 ? view.task : run.task[view.at];
    const low = run.eventsOf.start[task];
    const high = run.eventsOf.start[task + 1];
    const at = lastUpTo(run.eventsOf.items, direction > 0 ? view.at : view.at - 1, low, high);
    const next = direction > 0 ? at + 1 : at;
    target = next >= low && next < high ? run.eventsOf.items[next] : undefined;
  } else if (what === 'label') {
    if (view.label === 0) return;
    const {start, items} = run.stepsAt;
    const low = start[view.label];
    const high = start[view.label + 1];
    const at = lastUpTo(items, direction > 0 ? view.at : view.at - 1, low, high);
    const next = direction > 0 ? at + 1 : at;
    target = high > low ? items[next < low ? high - 1 : next >= high ? low : next] : undefined;
  } else {
    const list = what === 'steal' ? run.steals : run.finishEvents;
    const at = lastUpTo(list, direction > 0 ? view.at : view.at - 1);
    target = list[direction > 0 ? at + 1 : at];
  }
  if (target !== undefined) go(target);
}

const KEYS = {
  ArrowLeft: shift => go(view.at - (shift ? 10 : 1)),
  ArrowRight: shift => go(view.at + (shift ? 10 : 1)),
  ArrowUp: () => stepBy('task', -1),
  ArrowDown: () => stepBy('task', 1),
  PageUp: () => stepBy('steal', -1),
  PageDown: () => stepBy('steal', 1),
  Home: () => go(0),
  End: () => go(run.events - 1),
  '[': () => stepBy('finish', -1),
  ']': () => stepBy('finish', 1),
  n: () => stepBy('label', 1),
  N: () => stepBy('label', -1),
  m: () => { const label = labelOf(view.at); markLabel(label === view.label ? 0 : label); },
  Enter: () => selectTask(view.task === run.task[view.at] ? NONE : run.task[view.at]),
  '+': () => zoom(0.6),
  '=': () => zoom(0.6),
  '-': () => zoom(1 / 0.6),
  0: () => show(0, SPAN),
  a: () => show(view.from - (view.to - view.from) / 4, view.to - (view.to - view.from) / 4),
  d: () => show(view.from + (view.to - view.from) / 4, view.to + (view.to - view.from) / 4),
  ' ': () => play(!view.playing),
  r: () => setRows({tree: 'packed', packed: 'finishes', finishes: 'tree'}[view.rows]),
  s: () => setChain(!view.chain),
  l: () => setTab('program', byId('tab-labels').getAttribute('aria-selected') === 'true' ? 'text' : 'labels'),
  t: () => { readColors(!view.dark); setChain(view.chain); },
  x: openSchedules,
  '/': () => byId('find').focus(),
  '?': () => byId('help').showModal(),
  Escape: () => { view.task = NONE; markLabel(0); changed(ROWS | LOOK); },
};

function setChain(on) {
  view.chain = on;
  byId('chain').setAttribute('aria-pressed', String(on));
  byId('theme').textContent = view.dark ? 'Light' : 'Dark';
  changed(WINDOW | ROWS);
  keepLink();
}

addEventListener('keydown', event => {
  if (event.ctrlKey || event.metaKey || event.altKey || byId('help').open || byId('schedules').open) return;
  const tag = event.target.tagName;
  const isTab = event.target.getAttribute('role') === 'tab' && event.key.startsWith('Arrow');
  if (event.target.id === 'find' || tag === 'SELECT' || isTab) return;
  if (tag === 'BUTTON' && (event.key === ' ' || event.key === 'Enter')) return;
  const act = Object.prototype.hasOwnProperty.call(KEYS, event.key) ? KEYS[event.key] : null;
  if (!act) return;
  act(event.shiftKey);
  event.preventDefault();
});

// ---- buttons, links, tabs

for (const button of document.querySelectorAll('[data-key]')) {
  button.addEventListener('click', () => KEYS[button.dataset.key](false));
}
for (const name of ['tree', 'packed', 'finishes']) byId('rows-' + name).addEventListener('click', () => setRows(name));

function setTab(group, name) {
  for (const tab of document.querySelectorAll(`[data-tabs=\"${group}\"] [role=tab]`)) {
    const chosen = tab.id === 'tab-' + name;
    tab.setAttribute('aria-selected', String(chosen));
    tab.tabIndex = chosen ? 0 : -1;
    byId(tab.getAttribute('aria-controls')).hidden = !chosen;
    const note = byId(tab.getAttribute('aria-controls') + '-note');
    if (note) note.hidden = !chosen;
  }
  changed(CURSOR | LOOK);
}
for (const tab of document.querySelectorAll('[role=tab]')) {
  const list = tab.closest('[data-tabs]');
  tab.addEventListener('click', event => {
    setTab(list.dataset.tabs, tab.id.slice(4));
    if (event.detail > 0) byId('lanes').focus({preventScroll: true});     // clicked: the arrow keys go on moving the cursor
  });
  tab.addEventListener('keydown', event => {
    if (event.key !== 'ArrowLeft' && event.key !== 'ArrowRight') return;
    const tabs = Array.from(list.querySelectorAll('[role=tab]'));
    const next = tabs[(tabs.indexOf(tab) + (event.key === 'ArrowRight' ? 1 : tabs.length - 1)) % tabs.length];
    setTab(list.dataset.tabs, next.id.slice(4));
    next.focus();
    event.preventDefault();
  });
}

document.addEventListener('click', event => {
  const target = event.target.closest('[data-event], [data-task], [data-label], [data-sort]');
  if (!target) return;
  const {event: at, task, label, sort} = target.dataset;
  if (at !== undefined) go(Number(at));
  else if (task !== undefined) selectTask(Number(task) === view.task ? NONE : Number(task));
  else if (sort !== undefined) { sortBy = sort; changed(LOOK); }
  else clickLabel(Number(label));
});

// Marks all executions of a statement. A second click goes to the next one.
function clickLabel(label) {
  if (label === view.label) stepBy('label', 1); else markLabel(label);
}

byId('log').addEventListener('wheel', event => {
  event.preventDefault();
  go(view.at + Math.sign(event.deltaY) * 3);
}, {passive: false});

// ---- search: a path, a label, an event with `@`, or a part of a statement

function search(text) {
  const wanted = text.trim();
  if (wanted === '') { tellFound(''); return; }
  const event = /^@ ?([0-9]{1,9})$/.exec(wanted);
  const task = taskAt(run, wanted);
  const label = /^(?:label )?([0-9]{1,6})$/.exec(wanted);
  if (event) {
    go(Number(event[1]));
    tellFound('event ' + num(view.at));
  } else if (task >= 0 && (wanted.includes('.') || wanted === '0')) {
    view.task = task;
    const own = itemsOf(run.eventsOf, task);
    go(own.length > 0 ? own[0] : run.spawned[task]);
    selectTask(task);
    tellFound(`task ${wanted}, ${count(own.length, 'event')}`);
  } else if (label && Number(label[1]) >= 1 && Number(label[1]) <= program.labels) {
    findLabel(Number(label[1]));
  } else {
    const found = program.heads.findIndex((head, i) => i > 0 && statement(program, i).includes(wanted));
    if (found > 0) findLabel(found); else tellFound('not found');
  }
}

function findLabel(label) {
  markLabel(label);
  tellFound(`label ${label}: ${count(stepsByLabel[label], 'step')}`);
  if (stepsByLabel[label] > 0 && run.label[view.at] !== label) stepBy('label', 1);
}

const tellFound = text => { byId('found').textContent = text; };
byId('find').addEventListener('keydown', event => {
  if (event.key === 'Enter') search(byId('find').value);
  if (event.key === 'Escape') { byId('find').value = ''; tellFound(''); byId('lanes').focus(); }
});
byId('slide').addEventListener('input', () => go(Number(byId('slide').value)));
byId('copy').addEventListener('click', () => {
  putLink();
  const tell = text => {
    byId('copy').textContent = text;
    setTimeout(() => { byId('copy').textContent = 'Copy link'; }, 1500);
  };
  if (navigator.clipboard) navigator.clipboard.writeText(location.href).then(() => tell('Copied'), () => tell('See address'));
  else tell('See address');
});

// ---- the pointer

function tip(event, ...lines) {
  const element = byId('tip');
  if (lines.length === 0) { element.hidden = true; return; }
  fill(element, ...lines.map(line => make('div', {class: line.startsWith('  ') ? 'mono' : null}, line.trim())));
  element.hidden = false;
  const box = element.getBoundingClientRect();
  element.style.left = clamp(event.clientX + 14, 4, Math.max(4, innerWidth - box.width - 8)) + 'px';
  const below = event.clientY + 18 + box.height <= innerHeight;
  element.style.top = (below ? event.clientY + 18 : Math.max(4, event.clientY - box.height - 12)) + 'px';
}

// An event in a few lines: what it is, its statement, what it changed, what led to it.
function aboutEvent(event) {
  const lines = [`${num(event)}: ${sentence(run, event)}`];
  const label = run.label[event];
  if (label > 0) lines.push(`  ${label}  ${statement(program, label)}`);
  const effect = effectOf(run, program, event);
  if (effect.length > 0) lines.push('  ' + effect.join('; '));
  const cause = causeOf(run, event);
  if (cause >= 0) lines.push(`after ${num(cause)}: ${sentence(run, cause)}`);
  if (run.chain[event]) lines.push('on the longest chain');
  return lines;
}

// Drags move the part in view, clicks move the cursor, the wheel zooms around the pointer.
function watch(element, about) {
  let drag = null;
  element.addEventListener('pointerdown', event => {
    drag = {x: event.clientX, from: view.from, to: view.to, moved: 0};
    element.setPointerCapture(event.pointerId);
  });
  element.addEventListener('pointermove', event => {
    const box = element.getBoundingClientRect();
    if (drag) {
      const by = event.clientX - drag.x;
      drag.moved = Math.max(drag.moved, Math.abs(by));
      if (drag.moved > 3) {
        const events = by / perEvent();
        show(drag.from - events, drag.to - events);
      }
      return;
    }
    const at = Math.floor(eventAt(event.clientX - box.left));
    const inside = event.clientX - box.left >= GUTTER && at >= 0 && at < run.events;
    view.pointed = inside ? at : NONE;
    tip(event, ...(inside ? about(at, event.clientY - box.top) : []));
    changed(POINTER);
  });
  element.addEventListener('pointerup', event => {
    const x = event.clientX - element.getBoundingClientRect().left;
    const y = event.clientY - element.getBoundingClientRect().top;
    if (drag && drag.moved <= 3 && x >= GUTTER) go(nearest(eventAt(x), y, element), false);
    drag = null;
  });
  element.addEventListener('pointerleave', event => {
    view.pointed = NONE;
    tip(event);
    changed(POINTER);
  });
  element.addEventListener('wheel', event => {
    const sideways = Math.abs(event.deltaX) > Math.abs(event.deltaY);
    if (element.id === 'rows' && !event.ctrlKey && !event.shiftKey && !sideways) return;
    event.preventDefault();
    const around = eventAt(Math.max(GUTTER, event.clientX - element.getBoundingClientRect().left));
    const by = event.deltaX / perEvent();
    if (sideways) show(view.from + by, view.to + by);
    else zoom(Math.exp(event.deltaY * 0.0015), around);
  }, {passive: false});
}

// The event that a click means: in a lane, if an event is narrower than 3 pixels, the worker's own event next to it.
function nearest(at, y, element) {
  const event = clamp(Math.floor(at), 0, run.events - 1);
  if (element.id !== 'lanes' || perEvent() > 3) return event;
  const worker = Math.floor(y / laneHeight);
  const reach = Math.ceil(3 / perEvent());
  for (let by = 0; by <= Math.min(reach, 20000); by++) {
    if (run.worker[event - by] === worker) return event - by;
    if (run.worker[event + by] === worker) return event + by;
  }
  return event;
}

function aboutLane(event, y) {
  const worker = Math.floor(y / laneHeight);
  if (worker < 0 || worker >= run.lanes) return aboutEvent(event);
  const own = nearest(event, y, byId('lanes'));
  if (run.worker[own] === worker) return aboutEvent(own);
  const spell = spellAt(run, worker, event);
  if (spell < 0) return [`worker ${worker} at ${num(event)}: idle`];
  const last = lastEventOf(run, run.spellTask[spell], event);
  const has = `worker ${worker} at ${num(event)}: has task ${pathOf(run, run.spellTask[spell])}; its event before:`;
  return [has].concat(aboutEvent(last));
}

function aboutRow(event, y) {
  const row = Math.floor((y + sizes.rowsTop) / ROW);
  if (row < 0 || row >= rowsNow()) return [];
  if (view.rows === 'finishes') {
    const scope = scopeInRow(row, event);
    if (scope < 0) return [];
    const {issued, returned} = bookAfter(run, scope, event);
    const rescue = run.rescued[scope] > 0
      ? [`its rescue drops ${count(run.rescued[scope], 'fault')} at ${num(run.resumed[scope])}`] : [];
    const hold = `${count(holdersOf(run, scope, event).length, 'task')} hold the rest`;
    return [`${finishName(run, scope)} at ${num(event)}`, `issued ${num(issued)}, returned ${num(returned)}, ${hold}`,
      `opened at ${num(run.scopeAt[scope])}`, ...rescue];
  }
  const task = view.rows === 'tree' ? run.order[row] : packedTask(row, event);
  if (task < 0) return [];
  const {state, worker} = whereIs(run, task, event);
  const lines = [`task ${pathOf(run, task)} at ${num(event)}: ${STATES[state]}${worker >= 0 ? ', worker ' + worker : ''}`];
  const last = lastEventOf(run, task, event);
  return last < 0 ? lines : lines.concat(aboutEvent(last));
}

watch(byId('lanes'), aboutLane);
watch(byId('rows'), aboutRow);
byId('rows').addEventListener('click', event => {
  const box = byId('rows').getBoundingClientRect();
  const row = Math.floor((event.clientY - box.top + sizes.rowsTop) / ROW);
  if (event.clientX - box.left >= GUTTER || row < 0 || row >= rowsNow() || view.rows === 'finishes') return;
  const task = view.rows === 'tree' ? run.order[row] : packedTask(row, view.at);
  if (task >= 0) selectTask(task === view.task ? NONE : task);
});
byId('rows').addEventListener('scroll', () => { readScrolls(); changed(ROWS); });
byId('text').addEventListener('scroll', () => {
  readScrolls();
  if (textLines.length > MOST_LINES_AT_ONCE) changed(CURSOR);
});

// In the overview, a press or a drag moves the part in view.
{
  const element = byId('over');
  let held = false;
  const move = event => {
    const box = element.getBoundingClientRect();
    const at = (event.clientX - box.left - GUTTER) / (sizes.lanes - GUTTER - EDGE) * SPAN;
    const width = view.to - view.from;
    show(at - width / 2, at + width / 2);
  };
  element.addEventListener('pointerdown', event => {
    held = true;
    element.setPointerCapture(event.pointerId);
    move(event);
  });
  element.addEventListener('pointermove', event => { if (held) move(event); });
  element.addEventListener('pointerup', () => { held = false; });
}

// ---- playing and drawing

let due = 0;
let before = 0;

function play(on) {
  view.playing = on;
  before = performance.now();
  due = 0;
  byId('play').setAttribute('aria-label', on ? 'Pause' : 'Play');
  byId('play').setAttribute('aria-pressed', String(on));
  byId('say').setAttribute('aria-live', on ? 'off' : 'polite');
  if (on && view.at >= run.events - 1) go(0);
}

function advance(now) {
  const rate = Number(byId('speed').value) || run.events / 20;
  due += (now - before) / 1000 * rate;
  before = now;
  if (due >= 1) {
    go(view.at + Math.floor(due));
    due %= 1;
  }
  if (view.at >= run.events - 1) play(false);
}

function draw() {
  drawOverview();
  drawLanes();
  drawRows();
  if (view.changed & (CURSOR | LOOK)) drawPanels();
  const [first, last] = [Math.floor(view.from), Math.min(run.events, Math.ceil(view.to)) - 1];
  byId('range').textContent = run.events === 0 ? 'no events' : `events ${num(first)} to ${num(last)} of ${num(run.events)}`;
  view.changed = 0;
}

function frame() {
  if (view.playing) advance(performance.now());
  if (view.changed) draw();
  requestAnimationFrame(frame);
}

// ---- the start

writeFacts();
keepLines();
byId('slide').max = String(Math.max(0, run.events - 1));
readColors(matchMedia('(prefers-color-scheme: dark)').matches);
measure();
if (run.tasks > 2000) view.rows = 'packed';
follow(location.hash);
if (run.data.isExplored) openSchedules();
setRows(view.rows);
setChain(view.chain);
setTab('program', 'text');
setTab('first', 'log');
setTab('second', 'scopes');
setTab('third', 'workers');
addEventListener('hashchange', () => { follow(location.hash); setRows(view.rows); setChain(view.chain); });
{
  const observer = new ResizeObserver(measure);
  for (const element of [document.body, byId('lanes'), byId('rows'), byId('log'), byId('text')]) observer.observe(element);
}
// A printed page is light, whatever the screen is.
{
  let wasDark = false;
  addEventListener('beforeprint', () => { wasDark = view.dark; readColors(false); draw(); });
  addEventListener('afterprint', () => { readColors(wasDark); });
}
requestAnimationFrame(frame);
</script>
</body>
</html>
";
