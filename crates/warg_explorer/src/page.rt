//! The page's text. Made by `scripts/pages.py` from `explorer/index.html`.

/// A page of HTML that shows a log's folder in a browser, and checks what it shows. It stands in the folder.
pub const PAGE: &str = r##"<!doctype html>
<html lang="en">
<head>
<meta charset="utf-8">
<!-- The policy allows this very style and script: after an edit, the browser's console names the new digests. -->
<meta http-equiv="Content-Security-Policy" content="default-src 'none'; connect-src 'self'; img-src data:; style-src 'sha256-dqPXGG7H82qhdPD09hfjgGO5R9E0zJkRtDk/UEUFH0M='; script-src 'sha256-wUZV2TBUwyrZnVeU7V7/+PfzwWTxalbG8OPvTDxK1TI='; base-uri 'none'; form-action 'none'; require-trusted-types-for 'script'; trusted-types 'none'">
<meta name="viewport" content="width=device-width, initial-scale=1">
<meta name="color-scheme" content="light dark">
<title>A transparency log</title>
<link rel="icon" href="data:,">
<style>
:root {
  --paper: #fffdf8; --card: #ffffff; --ink: #22201c; --soft: #5c564b; --line: #ded6c6; --pale: #f3eee3;
  --mark: #a0441a; --mark-pale: #fcecdf; --good: #17623d; --good-pale: #e5f3ea; --bad: #a31616; --bad-pale: #fde9e6;
  --mono: ui-monospace, "Liberation Mono", monospace;
}
@media (prefers-color-scheme: dark) {
  :root {
    --paper: #171613; --card: #1f1d19; --ink: #ece7dc; --soft: #b4ac9c; --line: #3d382f; --pale: #2a2721;
    --mark: #f3a877; --mark-pale: #3b2617; --good: #8fdab0; --good-pale: #162d20; --bad: #ffa198; --bad-pale: #401a16;
  }
}
* { box-sizing: border-box; overflow-wrap: anywhere; }
body { margin: 0; background: var(--paper); color: var(--ink); font: 1rem/1.55 system-ui, sans-serif; }
header, main, footer, .verdict { width: min(58rem, 100% - 2rem); margin-inline: auto; }
a, summary { color: var(--mark); }
:focus-visible { outline: 3px solid var(--mark); outline-offset: 2px; border-radius: 4px; }
h1:focus, main:focus { outline: none; }
h1 { font-size: clamp(1.45rem, 1.2rem + 1.2vw, 2rem); line-height: 1.2; margin: 0 0 1rem; }
h2 { font-size: 1.1rem; margin: 2.25rem 0 .75rem; }
h1, h2, .origin, .line, .node b { font-weight: 650; }
p { margin: 0 0 .75rem; }
p, main > ul { max-width: 44rem; }
ol, nav ul { list-style: none; margin: 0; padding: 0; }
.soft, .small, dt, label, caption, .size, .from { color: var(--soft); }
.small, label, caption, footer { font-size: .875rem; }
.mono, code, pre { font-family: var(--mono); font-size: .86em; }
.skip { position: absolute; left: -99rem; }
.skip:focus { left: 1rem; background: var(--card); padding: .5rem 1rem; }
header { display: flex; flex-wrap: wrap; gap: .5rem 2rem; align-items: end; justify-content: space-between; padding-top: 1.5rem; }
.name { margin: 0; } .name span { display: block; } .origin { font-size: 1.05rem; }
nav ul { display: flex; flex-wrap: wrap; gap: .5rem; }
.views { margin: 0 -.6rem; gap: .25rem; }
.views a { display: block; padding: .4rem .6rem; color: var(--ink); text-decoration: none; border-bottom: 3px solid transparent; }
.views a[aria-current] { border-color: var(--mark); color: var(--mark); font-weight: 600; }
.verdict { display: grid; grid-template-columns: auto 1fr; gap: 0 .85rem; margin-block: 1rem 2rem; padding: .9rem 1.1rem; border: 1px solid var(--line); border-left-width: 6px; border-radius: 8px; background: var(--pale); }
.verdict p { grid-column: 2; margin: 0; max-width: none; }
.icon { grid-row: 1 / span 2; width: 1.6rem; height: 1.6rem; }
.good { background: var(--good-pale); border-color: var(--good); }
.bad { background: var(--bad-pale); border: 2px solid var(--bad); border-left-width: 8px; }
.good .icon { color: var(--good); }
.bad .icon, .bad .line, .bad strong, td.bad { color: var(--bad); }
.bad .line { font-size: 1.15rem; }
.card { background: var(--card); border: 1px solid var(--line); border-radius: 8px; padding: 1rem 1.1rem; margin: 0 0 1rem; }
.card.bad { background: var(--bad-pale); border-color: var(--bad); }
.card > :first-child { margin-top: 0; } .card > :last-child { margin-bottom: 0; }
dl { display: grid; grid-template-columns: minmax(7rem, max-content) 1fr; gap: .55rem 1.25rem; margin: 0; }
dd { margin: 0; }
pre { margin: 0; white-space: pre-wrap; max-height: 26rem; overflow: auto; }
.escape { background: var(--mark-pale); color: var(--mark); border-radius: 3px; padding: 0 .2em; font-size: .8em; }
table { width: 100%; margin-bottom: 1rem; border-collapse: collapse; table-layout: fixed; }
caption { text-align: left; }
th, td { text-align: left; vertical-align: top; padding: .5rem .75rem .5rem 0; border-bottom: 1px solid var(--line); }
thead th { font-size: .8rem; } tbody th { font-weight: 400; }
.number { width: 7rem; } .size { width: 4rem; text-align: right; padding-right: 0; }
td > div { display: -webkit-box; -webkit-box-orient: vertical; -webkit-line-clamp: 2; overflow: hidden; }
.steps { margin: 1rem 0; }
.steps a, .steps span, button, input, select { display: inline-block; font: inherit; padding: .4rem .9rem; border: 1px solid var(--line); border-radius: 6px; background: var(--card); color: var(--ink); text-decoration: none; }
.steps span { color: var(--soft); background: none; }
button { cursor: pointer; }
button:hover, .steps a:hover { border-color: var(--mark); color: var(--mark); }
form { display: flex; flex-wrap: wrap; gap: .5rem .75rem; align-items: end; margin: 0 0 1.25rem; }
label { display: grid; gap: .2rem; } label:first-child { flex: 1 1 12rem; }
input, select { height: 2.5rem; font-size: 1rem; width: 100%; padding-inline: .6rem; border-color: var(--soft); }
.beside { display: grid; grid-template-columns: repeat(auto-fit, minmax(min(20rem, 100%), 1fr)); gap: 0 2rem; align-items: start; }
details { margin: .75rem 0; } summary { cursor: pointer; }
.tree { display: flex; flex-direction: column-reverse; }
.tree svg { display: block; width: 100%; height: 22px; }
.tree path { fill: none; stroke: var(--soft); vector-effect: non-scaling-stroke; }
.tree path.on { stroke: var(--mark); stroke-width: 3; }
.pair { display: grid; grid-template-columns: 1fr 1fr; }
.node { padding: .5rem .7rem; border: 1px solid var(--line); border-radius: 8px; background: var(--pale); font-size: .84rem; line-height: 1.4; }
.node.on { border: 2px solid var(--mark); background: var(--mark-pale); }
.node b, .tree span { display: block; }
.tree .node { margin: 0 .3rem; } .tree > :last-child .node { margin-inline: 22%; }
.way > li { position: relative; padding-bottom: 1.75rem; }
.way > li:not(:last-child)::after { content: ""; position: absolute; left: 2rem; bottom: 0; height: 1.75rem; border-left: 3px solid var(--mark); }
.way .node { padding: .8rem 1rem; font-size: .92rem; }
.way p { margin: .15rem 0 0; max-width: none; }
.strip { display: block; width: 100%; height: 28px; margin: .4rem 0; border: 1px solid var(--line); border-radius: 4px; background: var(--card); fill: var(--soft); fill-opacity: .6; }
.strip .here { fill: var(--mark); fill-opacity: 1; }
.node dl { margin-top: .5rem; }
footer { margin-top: 3rem; padding: 1.25rem 0 2.5rem; border-top: 1px solid var(--line); color: var(--soft); }
[hidden] { display: none; }
@media (max-width: 40rem) {
  dl { grid-template-columns: 1fr; gap: 0; } dd { margin-bottom: .65rem; }
  .number { width: 4.75rem; } .size { display: none; }
  .tree .node { padding: .4rem .5rem; font-size: .8rem; margin: 0 .2rem; }
}
</style>
</head>
<body>
<a class="skip" href="#checkpoint" id="skip">Skip to the content</a>
<header>
  <p class="name"><span class="small" id="kind">Transparency log</span><span class="origin" id="origin">…</span></p>
  <nav aria-label="Views">
    <ul class="views">
      <li><a href="#checkpoint">Checkpoint</a></li>
      <li><a href="#entries">Entries</a></li>
      <li id="keys" hidden><a href="#key">Key</a></li>
      <li><a href="#growth">Growth</a></li>
    </ul>
  </nav>
</header>
<div class="verdict" id="verdict" role="status" aria-live="polite"><p class="line">Reading the log …</p></div>
<main id="main" tabindex="-1" aria-busy="true">
  <noscript><p>This page reads and checks the log by a script in your browser, and scripts are off.</p></noscript>
</main>
<footer>
  <p id="reading"></p>
  <p>This page is an independent reader in another language, written from the documents of the forms. No line of it is proved. What is proved is the program <code>warg_tlog</code>, which writes and audits these files: see <a href="#about">what is checked, and what is proved</a>.</p>
</footer>
<script>
'use strict';

// ---- Bytes

const encoder = new TextEncoder();
const ZERO = new Uint8Array([0]);
const ONE = new Uint8Array([1]);

function joined(...parts) {
  const bytes = new Uint8Array(parts.reduce((sum, part) => sum + part.length, 0));
  let at = 0;
  for (const part of parts) {
    bytes.set(part, at);
    at += part.length;
  }
  return bytes;
}

const equal = (one, other) => one.length === other.length && one.every((byte, at) => byte === other[at]);
const hexOf = bytes => Array.from(bytes, byte => byte.toString(16).padStart(2, '0')).join('');
const base64Of = bytes => btoa(String.fromCharCode(...bytes));

function bytesOfHex(text) {
  if (!/^(?:[0-9a-f]{2})*$/i.test(text)) return null;
  return Uint8Array.from(text.match(/../g) ?? [], digits => parseInt(digits, 16));
}

// A digest out of the one base64 of its 32 bytes, or null.
function digestOfBase64(text) {
  if (!/^[A-Za-z0-9+/]{43}=$/.test(text)) return null;
  const bytes = Uint8Array.from(atob(text), letter => letter.charCodeAt(0));
  return base64Of(bytes) === text ? bytes : null;
}

function textOf(bytes) {
  try {
    return new TextDecoder('utf-8', {fatal: true, ignoreBOM: true}).decode(bytes);
  } catch {
    return null;
  }
}

// ---- Digests (RFC 6962, section 2.1)

const sha256 = async (...parts) => new Uint8Array(await crypto.subtle.digest('SHA-256', joined(...parts)));
const leafDigest = entry => sha256(ZERO, entry);
const branch = (left, right) => sha256(ONE, left, right);

// The root over digests next to each other; an odd last one goes up as it is.
async function rootOver(digests) {
  let row = digests;
  while (row.length > 1) {
    const pairs = Array.from({length: Math.ceil(row.length / 2)}, (_, at) => row.slice(2 * at, 2 * at + 2));
    row = await Promise.all(pairs.map(pair => pair.length === 2 ? branch(...pair) : pair[0]));
  }
  return row[0];
}

// ---- Ranges of leaves

// The greatest power of two below a count above 1.
function splitOf(count) {
  let half = 1;
  while (half * 2 < count) half *= 2;
  return half;
}

// The whole trees into which a range falls, greatest first.
function wholeTrees(start, count) {
  const trees = [];
  while (count > 0) {
    const size = splitOf(count + 1);
    trees.push({start, size});
    start += size;
    count -= size;
  }
  return trees;
}

// The ranges beside the way from a leaf to the root, from the bottom up, each with its side.
function rangesBeside(index, length) {
  const steps = [];
  let start = 0, count = length;
  while (count > 1) {
    const half = splitOf(count), goesLeft = index < start + half;
    const left = {start, count: half}, right = {start: start + half, count: count - half};
    steps.unshift({side: goesLeft ? 'right' : 'left', beside: goesLeft ? right : left, own: goesLeft ? left : right});
    ({start, count} = goesLeft ? left : right);
  }
  return steps;
}

// ---- Tiles (C2SP tlog-tiles, at height 8)

const WIDE = 256;
const DIGEST = 32;

const unitOf = level => WIDE ** level;

// How many digests a tile has in a log of a length.
function widthOf(level, number, length) {
  return Math.min(WIDE, Math.floor(length / unitOf(level)) - WIDE * number);
}

// The tile that has the digest of a whole tree, and the digests of it that are below the tree.
function placeOf({start, size}) {
  let level = 0;
  while (unitOf(level + 1) <= size) level += 1;
  const index = start / unitOf(level);
  return {level, number: Math.floor(index / WIDE), first: index % WIDE, span: size / unitOf(level)};
}

function numberPath(number) {
  const groups = [];
  for (let rest = number; groups.length === 0 || rest > 0; rest = Math.floor(rest / 1000)) {
    groups.unshift(String(rest % 1000).padStart(3, '0'));
  }
  return groups.map((group, at) => at < groups.length - 1 ? `x${group}` : group).join('/');
}

function tilePath(level, number, width) {
  return `tile/${level}/${numberPath(number)}${width < WIDE ? `.p/${width}` : ''}`;
}

// The partial tiles of a length: with them stands every whole tree of the root.
function edgeOf(length) {
  const edge = [];
  for (let level = 0; unitOf(level) <= length; level += 1) {
    const count = Math.floor(length / unitOf(level)), width = count % WIDE;
    if (width > 0) edge.push({level, number: Math.floor(count / WIDE), width});
  }
  return edge;
}

async function treeRoot(tileOf, tree) {
  const {level, number, first, span} = placeOf(tree);
  return rootOver((await tileOf(level, number)).digests.slice(first, first + span));
}

// The root over a range of leaves, out of tiles.
async function rangeRoot(tileOf, start, count) {
  if (count === 0) return sha256();
  const roots = await Promise.all(wholeTrees(start, count).map(tree => treeRoot(tileOf, tree)));
  let root = roots.pop();
  while (roots.length > 0) root = await branch(roots.pop(), root);
  return root;
}

// ---- Files

class Fault extends Error {
  constructor(kind, file, why = '') {
    super(why);
    Object.assign(this, {kind, file});
  }
}

const FAULTS = {
  missing: 'is missing',
  cut: 'is cut short',
  longer: 'is too long',
  changed: 'was changed',
  malformed: 'is malformed',
  unread: 'can’t be read',
  unfit: 'doesn’t fit the log’s tiles',
  obstacle: 'can check nothing here',
};

const faultLine = ({kind, file}) => `${file} ${FAULTS[kind]}.`;

// The bytes of a response, or one part more than the most of them.
async function bodyUpTo(response, most) {
  const parts = [], reader = response.body.getReader();
  let size = 0;
  for (let part = await reader.read(); !part.done && size <= most; part = await reader.read()) {
    parts.push(part.value);
    size += part.value.length;
  }
  if (size > most) reader.cancel().catch(() => {});
  return joined(...parts);
}

const unread = (file, why) => error => {
  throw new Fault('unread', file, error.name === 'TimeoutError' ? 'The server took more than 30 seconds.' : why);
};

class Files {
  count = 0;
  size = 0;

  // A file's bytes and the time of its last change, or null where there is no such file.
  async read(file, most) {
    const signal = AbortSignal.timeout(30000);
    const response = await fetch(file, {cache: 'no-store', redirect: 'error', signal}).catch(unread(file, 'The server doesn’t answer.'));
    if (response.status === 404 || response.status === 410) return null;
    if (!response.ok) throw new Fault('unread', file, `The server answers with status ${response.status}.`);
    const bytes = await bodyUpTo(response, most).catch(unread(file, 'The server stopped in the middle of it.'));
    this.count += 1;
    this.size += bytes.length;
    if (bytes.length > most) throw new Fault('longer', file, `It has more than ${bytesText(most)}.`);
    return {bytes, changed: response.headers.get('Last-Modified')};
  }

  // A partial file, or the full one where the partial one was removed behind it.
  async readWide(pathOf, width, mostOf) {
    for (const wide of width < WIDE ? [width, WIDE] : [WIDE]) {
      const found = await this.read(pathOf(wide), mostOf(wide));
      if (found !== null) return {file: pathOf(wide), wide, bytes: found.bytes};
    }
    const also = width < WIDE ? ` Nor has it the full one, ${pathOf(WIDE)}.` : '';
    throw new Fault('missing', pathOf(width), `The server has no such file.${also}`);
  }

  async tile(level, number, width) {
    const {file, wide, bytes} = await this.readWide(it => tilePath(level, number, it), width, it => it * DIGEST);
    if (bytes.length < wide * DIGEST) {
      throw new Fault('cut', file, `It has ${bytesText(bytes.length)} of ${bytesText(wide * DIGEST)}.`);
    }
    return {file, digests: Array.from({length: width}, (_, at) => bytes.subarray(at * DIGEST, (at + 1) * DIGEST))};
  }

  async bundle(number, width) {
    const {file, wide, bytes} = await this.readWide(it => tilePath('entries', number, it), width, it => it * 65537);
    return {file, entries: entriesOf(file, bytes, wide).slice(0, width)};
  }
}

// The entries of a bundle's bytes, each behind its length in two bytes.
function entriesOf(file, bytes, count) {
  const entries = [];
  let at = 0;
  while (entries.length < count) {
    const end = at + 2 + bytes[at] * 256 + bytes[at + 1];
    if (!(end <= bytes.length)) throw new Fault('cut', file, `It ends within entry ${entries.length} of its ${count}, from 0.`);
    entries.push(bytes.subarray(at + 2, end));
    at = end;
  }
  if (at < bytes.length) throw new Fault('longer', file, `${bytesText(bytes.length - at)} follow its ${count} entries.`);
  return entries;
}

// ---- Checkpoint texts (C2SP tlog-checkpoint)

// The lines up to an empty one or the end, each with its newline, and what is behind the empty one.
function linesOf(text) {
  const lines = [];
  for (let at = 0; at < text.length;) {
    const end = text.indexOf('\n', at);
    if (end < 0) throw new Fault('malformed', 'checkpoint', `Its line ${lines.length + 1} has no end.`);
    if (end === at) return {lines, behind: text.slice(end + 1)};
    lines.push(text.slice(at, end));
    at = end + 1;
  }
  return {lines, behind: ''};
}

function checkpointOf(bytes) {
  const refuse = why => { throw new Fault('malformed', 'checkpoint', why); };
  const text = textOf(bytes) ?? refuse('It isn’t text.');
  const {lines: [origin, count, root64, ...extensions], behind} = linesOf(text);
  if (!origin) refuse('Its line 1, the origin, is empty.');
  if (!/^(?:0|[1-9][0-9]*)$/.test(count ?? '')) refuse('Its line 2 isn’t the number of entries.');
  if (BigInt(count) > 2n ** 63n) refuse('Its number of entries is above 2^63.');
  if (Number(count) > Number.MAX_SAFE_INTEGER) throw new Fault('unread', 'checkpoint', 'It has more entries than this page counts: 2^53.');
  const root = digestOfBase64(root64 ?? '') ?? refuse('Its line 3 isn’t a root: 32 bytes in base64.');
  const maps = extensions.filter(line => line.startsWith('map '));
  if (maps.length > 1) refuse('It has two roots of a map.');
  const map = maps.length === 1 ? digestOfBase64(maps[0].slice(4)) ?? refuse('Its root of the map isn’t 32 bytes in base64.') : null;
  return {origin, length: Number(count), root, map, extensions, signatures: behind};
}

// ---- A checked log

class Kept {
  constructor(most) {
    this.most = most;
    this.made = new Map();
  }

  get(name, make) {
    const found = this.made.get(name) ?? make();
    this.made.delete(name);
    this.made.set(name, found);
    found.catch(() => this.made.delete(name));
    if (this.made.size > this.most) this.made.delete(this.made.keys().next().value);
    return found;
  }
}

// A log at one checkpoint. What its calls return was checked up to the checkpoint's roots.
class Log {
  tiles = new Kept(200);
  bundles = new Kept(4);
  pages = new Kept(100);
  edge = new Map();
  tileOf = (level, number) => this.tile(level, number);

  constructor(files, checkpoint, changed) {
    Object.assign(this, {files, checkpoint, changed, length: checkpoint.length});
  }

  // Reads the checkpoint. Nothing is checked before the edge is.
  static async at(files) {
    const found = await files.read('checkpoint', 1 << 20);
    if (found === null) throw new Fault('missing', 'checkpoint', 'The server has no such file: no log is served here.');
    return new Log(files, checkpointOf(found.bytes), found.changed);
  }

  // Reads the partial tiles, and compares the root that they lead to with the checkpoint's.
  async checkEdge() {
    if (this.checkpoint.map) this.empties = await emptyTrees();
    const places = edgeOf(this.length);
    const tiles = await Promise.all(places.map(it => this.files.tile(it.level, it.number, it.width)));
    places.forEach((it, at) => this.edge.set(it.level, tiles[at]));
    if (equal(await this.rootByEdge(this.edge), this.checkpoint.root)) return;
    for (const place of places) await this.blame(place);
    const files = tiles.map(it => it.file).join(', ') || 'no entries';
    throw new Fault('unfit', 'checkpoint', `Its root isn’t the one that ${files} lead to.`);
  }

  rootByEdge(edge) {
    return rangeRoot(async level => edge.get(level), 0, this.length);
  }

  // Throws where this tile, made again from the files below it, leads to the root.
  async blame({level, number, width}) {
    const digests = await this.madeAgain(level, number, width).catch(() => null);
    if (digests === null) return;
    const edge = new Map(this.edge).set(level, {digests});
    if (equal(await this.rootByEdge(edge), this.checkpoint.root)) {
      throw new Fault('changed', this.edge.get(level).file, 'Its digests don’t lead to the checkpoint’s root, and the files below it do.');
    }
  }

  async madeAgain(level, number, width) {
    if (level === 0) return Promise.all((await this.files.bundle(number, width)).entries.map(leafDigest));
    const digests = [];
    for (let at = 0; at < width; at += 1) {
      digests.push(await rootOver((await this.files.tile(level - 1, number * WIDE + at, WIDE)).digests));
    }
    return digests;
  }

  async tile(level, number) {
    if (widthOf(level, number, this.length) < WIDE) return this.edge.get(level);
    return this.tiles.get(`${level}/${number}`, () => this.fullTile(level, number));
  }

  // A full tile: the tile above has the root over it.
  async fullTile(level, number) {
    const above = await this.tile(level + 1, Math.floor(number / WIDE));
    const tile = await this.files.tile(level, number, WIDE);
    if (!equal(await rootOver(tile.digests), above.digests[number % WIDE])) {
      throw new Fault('changed', tile.file, 'Its digests don’t lead to the checkpoint’s root.');
    }
    return tile;
  }

  bundle(number) {
    return this.bundles.get(number, () => this.checkedBundle(number));
  }

  async checkedBundle(number) {
    const tile = await this.tile(0, number);
    const bundle = await this.files.bundle(number, tile.digests.length);
    const digests = await Promise.all(bundle.entries.map(leafDigest));
    const wrong = digests.findIndex((digest, at) => !equal(digest, tile.digests[at]));
    if (wrong >= 0) {
      throw new Fault('changed', bundle.file, `The entry ${countText(number * WIDE + wrong)} in it isn’t the one that the checkpoint’s root fixes.`);
    }
    return bundle;
  }

  async entry(index) {
    const bundle = await this.bundle(Math.floor(index / WIDE));
    return {bytes: bundle.entries[index % WIDE], file: bundle.file};
  }

  // The tiles in which the digests over a range stand.
  async sourcesOf(start, count) {
    return Promise.all(wholeTrees(start, count).map(async tree => {
      const {level, number, first, span} = placeOf(tree);
      return {...tree, first, span, file: (await this.tile(level, number)).file};
    }));
  }

  // The way from an entry's digest to the root: of each step the digest beside it, where that comes from, and both joined.
  async path(index, leaf) {
    const steps = rangesBeside(index, this.length);
    let own = leaf;
    for (const step of steps) {
      const {start, count} = step.beside;
      step.ownDigest = own;
      step.digest = await rangeRoot(this.tileOf, start, count);
      step.sources = await this.sourcesOf(start, count);
      own = await (step.side === 'left' ? branch(step.digest, own) : branch(own, step.digest));
    }
    if (!equal(own, this.checkpoint.root)) throw new Fault('unfit', 'checkpoint', `The path of entry ${countText(index)} leads to another root.`);
    return steps;
  }

  page(prefix, version, digest) {
    return this.pages.get(pagePath(prefix, version), () => this.checkedPage(prefix, version, digest));
  }

  async checkedPage(prefix, version, digest) {
    const file = pagePath(prefix, version);
    const found = await this.files.read(file, WIDE * 106);
    if (found === null) throw new Fault('missing', file, 'The server has no such file.');
    const slots = slotsOf(file, found.bytes);
    if (!equal(await pageRoot(slots, prefix.length, this.empties), digest)) {
      throw new Fault('changed', file, 'Its slots don’t lead to the map’s root in the checkpoint.');
    }
    return {file, slots};
  }

  // The page at the empty prefix, which has the map's root; none where nothing was inserted.
  async firstPage() {
    if (this.length > 0) return this.page([], this.length, this.checkpoint.map);
    if (equal(this.checkpoint.map, this.empties[256])) return null;
    throw new Fault('unfit', 'checkpoint', 'Its root of the map isn’t that of a map without keys.');
  }

  // The way down the pages by a key's digest, to a free slot or to a key that stands alone.
  async wayTo(keyDigest) {
    const steps = [];
    let version = this.length, digest = this.checkpoint.map;
    for (let depth = 0; ; depth += 1) {
      const page = await this.page(keyDigest.slice(0, depth), version, digest);
      const slot = page.slots.find(it => it.byte === keyDigest[depth]);
      steps.push({...page, depth, byte: keyDigest[depth], slot});
      if (slot?.lone) await this.checkLone(page.file, slot, keyDigest.slice(0, depth + 1));
      if (!slot || slot.lone) return steps;
      ({version, digest} = slot);
      if (depth === 31) throw new Fault('malformed', page.file, 'A slot of the last byte names a further page.');
    }
  }

  // A lone key's digest begins as its slot does, and with its leaf leads up to the slot's digest, with empty trees beside.
  async checkLone(file, slot, prefix) {
    let digest = slot.leaf;
    for (let height = 0; height < 256 - 8 * prefix.length; height += 1) {
      const bit = slot.key[31 - (height >> 3)] >> (height & 7) & 1;
      digest = await (bit ? branch(this.empties[height], digest) : branch(digest, this.empties[height]));
    }
    if (!equal(slot.key.slice(0, prefix.length), prefix) || !equal(digest, slot.digest)) {
      throw new Fault('changed', file, `The key in its slot ${hexOf([slot.byte])} doesn’t lead to the slot’s digest.`);
    }
  }

  // What stands under a key: the way down, and the insertion if there is one.
  async find(key) {
    if (await this.firstPage() === null) return {steps: []};
    const keyDigest = await sha256(key);
    const steps = await this.wayTo(keyDigest);
    const {slot, file} = steps.at(-1);
    if (!slot || !equal(slot.key, keyDigest)) return {steps};
    const index = slot.version - 1;
    const refuse = why => { throw new Fault('changed', file, `It names entry ${countText(index)} for this key, and ${why}.`); };
    if (index < 0 || index >= this.length) refuse('the log has no such entry');
    const entry = await this.entry(index), parts = partsOf(entry.bytes);
    if (!parts || !equal(parts.key, key)) refuse('that entry is of another key');
    if (!equal(await leafDigest(parts.value), slot.leaf)) refuse('that entry has another value');
    return {steps, index, value: parts.value, file: entry.file};
  }
}

// ---- Pages of a registry's map

async function emptyTrees() {
  const trees = [await sha256(ZERO)];
  while (trees.length <= 256) trees.push(await branch(trees.at(-1), trees.at(-1)));
  return trees;
}

const pagePath = (prefix, version) => `map/${Array.from(prefix, byte => `x${hexOf([byte])}/`).join('')}${version}`;

function slotsOf(file, bytes) {
  const slots = [], view = new DataView(bytes.buffer, bytes.byteOffset, bytes.length);
  for (let at = 0; at < bytes.length;) {
    const byte = bytes[at], kind = bytes[at + 1], end = at + (kind === 1 ? 106 : 42);
    if (end > bytes.length) throw new Fault('cut', file, `It ends within its slot ${hexOf([byte])}.`);
    if (kind > 1) throw new Fault('malformed', file, `Its slot ${hexOf([byte])} is neither of a key nor of a page.`);
    if (slots.length > 0 && slots.at(-1).byte >= byte) throw new Fault('malformed', file, 'Its slots don’t ascend.');
    const [key, leaf] = kind === 1 ? [bytes.subarray(at + 42, at + 74), bytes.subarray(at + 74, end)] : [];
    slots.push({byte, lone: kind === 1, version: Number(view.getBigUint64(at + 2)), digest: bytes.subarray(at + 10, at + 42), key, leaf});
    at = end;
  }
  return slots;
}

// The digest of the sparse tree below a page's prefix of so many bytes.
async function pageRoot(slots, depth, empties) {
  const bottom = 256 - 8 * (depth + 1);
  let row = Array(WIDE).fill(null);
  for (const slot of slots) row[slot.byte] = slot.digest;
  for (let height = bottom; height < bottom + 8; height += 1) {
    const empty = empties[height];
    row = await Promise.all(Array.from({length: row.length / 2}, (_, at) => {
      const [left, right] = [row[2 * at], row[2 * at + 1]];
      return left || right ? branch(left ?? empty, right ?? empty) : null;
    }));
  }
  return row[0] ?? empties[bottom + 8];
}

// Key and value of an insertion's entry, each behind its length in eight bytes; or null.
function partsOf(entry) {
  const parts = [], view = new DataView(entry.buffer, entry.byteOffset, entry.length);
  let at = 0;
  while (at + 8 <= entry.length) {
    const end = at + 8 + Number(view.getBigUint64(at));
    parts.push(entry.subarray(at + 8, end));
    at = end;
  }
  return parts.length === 2 && at === entry.length ? {key: parts[0], value: parts[1]} : null;
}

// ---- Growth: the last checkpoint that this browser saw of this folder

const memory = {
  name: `transparency log at ${new URL('.', location.href).pathname}`,

  load() {
    const kept = JSON.parse(localStorage.getItem(this.name));
    if (kept === null) return null;
    const {origin, length, seen} = kept, root = bytesOfHex(kept.root), map = kept.map && bytesOfHex(kept.map);
    if (root.length !== DIGEST || wholeNumber(String(length)) === null) throw new RangeError('no checkpoint');
    return {origin, length, root, map, seen};
  },

  save({origin, length, root, map}) {
    localStorage.setItem(this.name, JSON.stringify({origin, length, root: hexOf(root), map: map && hexOf(map), seen: Date.now()}));
  },
};

const same = (one, other) => one === other || Boolean(one && other && equal(one, other));
const EVIDENCE = 'Keep both checkpoints, and show them to others: they are the evidence against whoever keeps this log.';
const alarm = (kept, line, why, advice = EVIDENCE) => ({alarm: true, kept, line, why, advice});

// Where two checkpoints contradict each other whatever the tiles are.
function contradiction(kept, now) {
  const isSame = now.length === kept.length, entries = entriesText(kept.length);
  if (kept.origin !== now.origin) return alarm(kept, 'The log’s origin changed.', `It was ${kept.origin}, and is ${now.origin}: this is another log.`);
  if (now.length < kept.length) return alarm(kept, 'The checkpoint went back.', `You saw ${entries}, and now it has ${countText(now.length)}. A log only grows.`);
  if (!kept.map !== !now.map) return alarm(kept, 'The log changed its kind.', kept.map ? 'It was a registry, and has lost its map.' : 'It was a log, and says now that it is a registry.');
  if (isSame && !same(kept.root, now.root)) return alarm(kept, 'The log forked.', `You saw ${entries} with another root. Somebody is shown another history.`);
  if (isSame && !same(kept.map, now.map)) return alarm(kept, 'The registry forked.', 'The same insertions have another root of the map than you saw.');
  return null;
}

// Whether the tiles have the root that was kept: the root over the entries of then.
async function growthSince(kept, log) {
  const root = await rangeRoot(log.tileOf, 0, kept.length), entries = entriesText(kept.length), isSame = log.length === kept.length;
  if (!equal(root, kept.root)) return alarm(kept, 'The log forked.', `Its first ${entries} aren’t those that you saw: they have another root. Somebody is shown another history.`);
  const line = isSame ? 'It is the checkpoint that you saw last.' : `It continues the checkpoint that you saw: its ${entries} are the first of these ${countText(log.length)}.`;
  return {alarm: false, kept, line, parts: await log.sourcesOf(0, kept.length)};
}

async function growthOf(log) {
  let kept = null, note = '';
  try {
    kept = memory.load();
  } catch {
    note = ' What was kept can’t be read, or this browser keeps nothing for this page.';
  }
  const against = kept && contradiction(kept, log.checkpoint);
  if (against) return against;
  await log.checkEdge();
  const growth = kept ? await growthSince(kept, log).catch(unproven(kept)) : {alarm: false, kept, line: `You see this log for the first time.${note}`};
  if (!growth.alarm) remember(log.checkpoint);
  return growth;
}

const unproven = kept => fault => {
  if (!(fault instanceof Fault)) throw fault;
  return alarm(kept, 'Nothing shows that the log continues the one that you saw.', `${faultLine(fault)} ${fault.message}`, '');
};

function remember(checkpoint) {
  try {
    memory.save(checkpoint);
  } catch { /* then the next visit is a first one, and says so */ }
}

// ---- Words

const countText = count => count.toLocaleString('en');
const plural = (count, one, many = `${one}s`) => `${countText(count)} ${count === 1 ? one : many}`;
const entriesText = count => plural(count, 'entry', 'entries');
const bytesText = size => plural(size, 'byte');
const rangeText = ({start, count}) => count === 1 ? `entry ${countText(start)}` : `entries ${countText(start)}–${countText(start + count - 1)}`;
const shortDigest = digest => `${hexOf(digest.subarray(0, 6))}…${hexOf(digest.subarray(-3))}`;

function ageText(changed) {
  const time = Date.parse(changed ?? '');
  if (Number.isNaN(time)) return 'the server doesn’t say';
  const seconds = Math.max(0, (Date.now() - time) / 1000);
  const [size, unit] = [[86400, 'day'], [3600, 'hour'], [60, 'minute']].find(([size]) => seconds >= 2 * size) ?? [1, 'second'];
  return `${plural(Math.floor(seconds / size), unit)} ago, by the server’s clock (${dateText(time)})`;
}

const dateText = time => `${new Date(time).toISOString().slice(0, 16).replace('T', ' ')} UTC`;

// ---- Elements

function element(name, attributes, ...children) {
  const made = document.createElement(name);
  for (const [key, value] of Object.entries(attributes)) made.setAttribute(key, value);
  made.append(...children.flat().filter(it => it !== null));
  return made;
}

function shape(name, attributes, ...children) {
  const made = document.createElementNS('http://www.w3.org/2000/svg', name);
  for (const [key, value] of Object.entries(attributes)) made.setAttribute(key, value);
  made.append(...children);
  return made;
}

// A picture beside words that say the same.
function picture(name, wide, high, ...shapes) {
  return shape('svg', {class: name, viewBox: `0 0 ${wide} ${high}`, preserveAspectRatio: 'none', 'aria-hidden': 'true'}, ...shapes);
}

const paragraph = (...children) => element('p', {}, ...children);
const small = text => element('p', {class: 'small'}, text);
const heading = text => element('h2', {}, text);
const link = (address, text) => element('a', {href: address}, text);
const mono = text => element('span', {class: 'mono'}, text);
const card = (...children) => element('div', {class: 'card'}, ...children);
const facts = pairs => element('dl', {}, pairs.filter(Boolean).map(([name, ...what]) => [element('dt', {}, name), element('dd', {}, ...what)]).flat());
const folded = (title, ...children) => element('details', {}, element('summary', {}, title), ...children);

function table(caption, names, rows) {
  const head = element('tr', {}, names.map(([name, kind]) => element('th', {scope: 'col', class: kind}, name)));
  return element('table', {}, element('caption', {}, caption), element('thead', {}, head), element('tbody', {}, rows));
}

function button(text, act) {
  const made = element('button', {type: 'button'}, text);
  made.addEventListener('click', act);
  return made;
}

// A text, with each letter that shows nothing, or turns the others around, by its number.
function visible(text) {
  const parts = text.split(/([\p{Cc}\p{Cf}\p{Co}\p{Cn}\p{Zl}\p{Zp}])/u);
  return parts.map((part, at) => {
    if (at % 2 === 0 || part === '\n' || part === '\t') return part;
    return element('span', {class: 'escape'}, `U+${part.codePointAt(0).toString(16).toUpperCase().padStart(4, '0')}`);
  });
}

function shown(bytes, most = Infinity) {
  if (bytes.length === 0) return element('span', {class: 'soft'}, 'no bytes');
  const text = textOf(bytes);
  if (text === null) return element('span', {class: 'mono'}, hexOf(bytes.subarray(0, most)), bytes.length > most ? '…' : '');
  return element('bdi', {}, ...visible(text.slice(0, most)), text.length > most ? '…' : '');
}

function content(bytes) {
  const isText = textOf(bytes) !== null;
  const digits = element('pre', {role: 'region', tabindex: '0', 'aria-label': 'Bytes'}, hexOf(bytes).replace(/(..)/g, '$1 ').trim());
  if (!isText) return [digits];
  return [element('pre', {role: 'region', tabindex: '0', 'aria-label': 'Text'}, shown(bytes)), bytes.length > 0 ? folded('As bytes', digits) : null];
}

function faultCard(fault) {
  return element('div', {class: 'card bad'}, paragraph(element('strong', {}, faultLine(fault))), paragraph(fault.message));
}

// ---- The parts of a page

function asking(text, address, ...labels) {
  const form = element('form', {}, ...labels, element('button', {}, text));
  form.addEventListener('submit', event => {
    event.preventDefault();
    location.hash = address();
  });
  return form;
}

function findEntry(log) {
  if (log.length === 0) return null;
  const input = element('input', {inputmode: 'numeric', autocomplete: 'off', placeholder: `0 to ${countText(log.length - 1)}`});
  return asking('Show', () => `#entry/${input.value.replace(/[\s,]/g, '')}`, element('label', {}, 'Entry, counted from 0', input));
}

function findKey(text = '', form = 'text') {
  const input = element('input', {autocomplete: 'off', autocapitalize: 'none', spellcheck: 'false'});
  const select = element('select', {}, element('option', {value: 'text'}, 'Text'), element('option', {value: 'hex'}, 'Hexadecimal'));
  [input.value, select.value] = [text, form];
  const address = () => select.value === 'text' ? `#key/${encodeURIComponent(input.value)}` : `#key-hex/${input.value.trim()}`;
  return asking('Look up', address, element('label', {}, 'Key', input), element('label', {}, 'Given as', select));
}

const keyAddress = key => textOf(key) === null ? `#key-hex/${hexOf(key)}` : `#key/${encodeURIComponent(textOf(key))}`;

function entryRow(log, index, bytes) {
  const parts = log.checkpoint.map && partsOf(bytes);
  const cell = (...children) => element('td', {}, element('div', {}, ...children));
  const cells = parts ? [cell(element('a', {href: keyAddress(parts.key)}, shown(parts.key, 120))), cell(shown(parts.value, 240))] : [cell(shown(bytes, 240))];
  if (log.checkpoint.map && !parts) cells.push(element('td', {class: 'bad'}, 'no insertion'));
  return element('tr', {}, element('th', {scope: 'row', class: 'number'}, link(`#entry/${index}`, countText(index))), ...cells, element('td', {class: 'size'}, countText(bytes.length)));
}

// The entries of a range within one bundle, the newest first.
async function entryTable(log, start, count) {
  const bundle = await log.bundle(Math.floor(start / WIDE)), first = start % WIDE;
  const rows = bundle.entries.slice(first, first + count).map((bytes, at) => entryRow(log, start + at, bytes)).reverse();
  const names = log.checkpoint.map ? ['Key', 'Value'] : ['Content'];
  return table(`The newest first, out of ${bundle.file}`, [['Entry', 'number'], ...names.map(it => [it, '']), ['Bytes', 'size']], rows);
}

// ---- Views: each returns a title, a verdict and the elements

const PAGE = 32;

const good = (line, more = '') => ({state: 'good', line, more});
const bad = (line, more = '') => ({state: 'bad', line, more});

async function viewCheckpoint({log, growth}) {
  const {origin, length, root, map, extensions, signatures} = log.checkpoint, others = extensions.filter(line => !line.startsWith('map '));
  const first = Math.max(Math.floor((length - 1) / PAGE) * PAGE, length - 8), edge = [...log.edge.values()].map(it => it.file);
  const newest = await guarded(() => newestEntries(log, first));
  const rootPage = await guarded(() => map && log.firstPage());
  const fault = rootPage.fault ?? newest.fault;
  return {
    title: 'Checkpoint',
    verdict: fault ? faultVerdict(fault) : good('Checked: the log’s files lead to the root in its checkpoint.', growth.line),
    nodes: [
      card(facts([
        ['Origin', ...visible(origin)],
        [map ? 'Insertions' : 'Entries', countText(length)],
        ['Root', ...bothWays(root)],
        map && ['Root of the map', ...bothWays(map)],
        ...others.map(line => ['Further line', ...visible(line)]),
        ['Written', ageText(log.changed)],
        ['Checked by', mono([...edge, rootPage.made?.file].filter(Boolean).join(', ') || 'itself')],
        ['Signatures', ...(signatures ? [element('pre', {}, ...visible(signatures)), element('span', {class: 'small'}, 'as they stand in the file; this page doesn’t check them')] : ['none'])],
      ])),
      rootPage.fault ? faultCard(rootPage.fault) : null,
      heading('Newest entries'), newest.made ?? faultCard(newest.fault),
      first > 0 ? paragraph(link('#entries', `All ${entriesText(length)}, page by page`)) : null,
      heading('Look for'), element('div', {class: 'beside'}, findEntry(log), map ? findKey() : null), againButton(),
    ],
  };
}

const bothWays = digest => [mono(base64Of(digest)), element('br', {}), element('span', {class: 'mono soft'}, hexOf(digest))];

function newestEntries(log, first) {
  if (log.length === 0) return paragraph('The log has no entry yet.');
  return entryTable(log, first, log.length - first);
}

const againButton = () => button('Read the checkpoint again', readLog);

function stepLinks(label, ...steps) {
  const items = steps.map(([to, text, is, view = 'entries']) => element('li', {}, is ? link(`#${view}/${to}`, text) : element('span', {'aria-hidden': 'true'}, text)));
  return element('nav', {'aria-label': label}, element('ul', {class: 'steps'}, items));
}

async function viewEntries({log}, rest) {
  if (log.length === 0) return {title: 'Entries', verdict: good('Checked: the log has no entry yet.'), nodes: []};
  const last = Math.floor((log.length - 1) / PAGE), number = rest === undefined ? last : wholeNumber(rest);
  if (number === null || number > last) throw new NotThere(`There is no page ${rest} of entries.`, `The log has the pages 0 to ${countText(last)}, of ${PAGE} entries each.`);
  const start = number * PAGE, count = Math.min(PAGE, log.length - start);
  const isNewer = number < last, isOlder = number > 0;
  const pages = label => stepLinks(label, [last, 'Newest', isNewer], [number + 1, 'Newer', isNewer], [number - 1, 'Older', isOlder], [0, 'Oldest', isOlder]);
  const range = rangeText({start, count});
  return {
    title: range[0].toUpperCase() + range.slice(1),
    verdict: good(`Checked: ${count === 1 ? 'this entry is' : `these ${count} entries are`} in the log, at ${count === 1 ? 'its place' : 'their places'}.`),
    nodes: [findEntry(log), last > 0 ? pages('Pages') : null, await entryTable(log, start, count), last > 0 ? pages('Pages, again') : null],
  };
}

async function viewEntry({log}, rest) {
  const index = wholeNumber(rest);
  if (index === null) throw new NotThere(`“${rest ?? ''}” is no number of an entry.`);
  if (index >= log.length) throw new NotThere(`The log has no entry ${countText(index)}.`, `It has ${entriesText(log.length)}, counted from 0.`);
  const {bytes, file} = await log.entry(index);
  const leaf = await leafDigest(bytes), steps = await log.path(index, leaf);
  const parts = log.checkpoint.map && partsOf(bytes);
  const body = parts
    ? [card(paragraph('Key ', element('strong', {}, element('a', {href: keyAddress(parts.key)}, shown(parts.key)))), ...content(parts.value))]
    : [card(...content(bytes))];
  return {
    title: `Entry ${countText(index)}`,
    verdict: good(`Checked: entry ${countText(index)} of the log is this one.`, `Its digest leads to the root in the checkpoint${steps.length > 0 ? `, by ${plural(steps.length, 'step')}` : ''}.`),
    nodes: [
      ...body,
      facts([['Size', bytesText(bytes.length)], ['Read from', mono(file)], ['Leaf digest', mono(hexOf(leaf))]]),
      stepLinks('Entries beside', [index + 1, 'Newer', index + 1 < log.length, 'entry'], [index - 1, 'Older', index > 0, 'entry'], [Math.floor(index / PAGE), 'Around it', true]),
      heading('From the entry to the root'),
      paragraph('From the bottom up: each digest on the way is computed in this page out of the two below it, and the one beside comes from the file that it names.'),
      pathTree(index, leaf, steps, log),
      steps.length > 0 ? folded('The path as digits', small('One digest a line, from the bottom up, as warg_tlog prove prints it.'), element('pre', {id: 'path'}, steps.map(it => hexOf(it.digest)).join('\n'))) : null,
    ],
  };
}

// The tree from a leaf to the root; in the page's order the leaf is first, in the picture it is below.
function pathTree(index, leaf, steps, log) {
  const rows = steps.map((step, at) => {
    const own = nodeBox(true, rangeText(step.own), step.ownDigest, at === 0 ? ['the entry’s leaf digest'] : ['computed from the two below']);
    const beside = nodeBox(false, rangeText(step.beside), step.digest, sourceLines(step.sources));
    const pair = element('div', {class: 'pair'}, ...(step.side === 'left' ? [beside, own] : [own, beside]));
    const up = at + 1 < steps.length ? {left: 75, right: 25}[steps[at + 1].side] : 50;
    return element('li', {}, lines(step.side, up), pair);
  });
  const whole = rangeText({start: 0, count: log.length});
  const top = nodeBox(true, `Root: ${whole}`, log.checkpoint.root, [steps.length > 0 ? 'computed from the two below' : 'the entry’s leaf digest', '✓ the root in the checkpoint']);
  return element('ol', {class: 'tree', 'aria-label': 'The path, from the leaf to the root'}, ...rows, element('li', {}, top));
}

function nodeBox(isOn, title, digest, from) {
  return element('div', {class: isOn ? 'node on' : 'node'}, element('b', {}, title), element('span', {class: 'mono', title: hexOf(digest)}, shortDigest(digest)), from.map(it => element('span', {class: 'from'}, it)));
}

// Each file once: what a range takes from one tile stands side by side there.
function sourceLines(sources) {
  const places = new Map();
  for (const {file, first, span} of sources) places.set(file, [(places.get(file) ?? [first])[0], first + span - 1]);
  return [...places].map(([file, [from, to]]) => `${file}, ${from === to ? `digest ${from}` : `digests ${from}–${to}`}`);
}

function lines(besideSide, up) {
  const from = {left: 25, right: 75}, ownSide = besideSide === 'left' ? 'right' : 'left';
  const way = side => `M${from[side]} 22V11H${up}V0`;
  return picture('', 100, 22, shape('path', {d: way(besideSide)}), shape('path', {class: 'on', d: way(ownSide)}));
}

async function viewKey(state, rest) {
  return keyView(state, rest === undefined ? null : encoder.encode(rest), rest, 'text');
}

async function viewKeyHex(state, rest) {
  const key = bytesOfHex(rest ?? '');
  if (key === null) throw new NotThere(`“${rest}” isn’t hexadecimal digits, two for a byte.`);
  return keyView(state, key, rest, 'hex');
}

async function keyView({log}, key, text, form) {
  if (!log.checkpoint.map) throw new NotThere('This log has no keys.', 'Its checkpoint has no root of a map: it is a log of entries, and no registry.');
  if (key === null) return {title: 'A key', verdict: {state: '', line: 'Which key?', more: 'This page says what stands under it.'}, nodes: [findKey()]};
  const found = await log.find(key), isThere = found.index !== undefined;
  const name = key.length === 0 ? 'The key of no bytes' : textOf(key) ?? hexOf(key);
  const value = isThere ? [
    card(...content(found.value)),
    facts([['Inserted by', link(`#entry/${found.index}`, `entry ${countText(found.index)}`)], ['Read from', mono(found.file)]]),
  ] : [card(paragraph('Nothing stands under this key.'), small('A map doesn’t tell this from a value of no bytes: both have one digest.'))];
  return {
    title: name,
    verdict: isThere ? good('Checked: this value stands under the key.', 'The pages lead to the map’s root in the checkpoint, and the entry to the log’s.')
      : good('Checked: nothing stands under this key.', 'The pages lead to the map’s root in the checkpoint.'),
    nodes: [findKey(text, form), ...value, heading('The way down the pages'), wayDown(await sha256(key), found)],
  };
}

function wayDown(keyDigest, {steps, index}) {
  const box = (isOn, ...children) => element('li', {}, element('div', {class: isOn ? 'node on' : 'node'}, ...children));
  const start = box(true, element('b', {}, 'The key’s digest'), element('p', {class: 'mono'}, hexOf(keyDigest)));
  if (steps.length === 0) return element('ol', {class: 'way'}, start, box(false, element('b', {}, 'The registry has no key yet'), element('p', {}, 'Its map’s root is that of no keys.')));
  const pages = steps.map(({file, slots, byte, slot, depth}) => box(false,
    element('b', {}, `Page ${file}`),
    element('p', {}, `${plural(slots.length, 'slot')} of 256. Its digest is ${depth === 0 ? 'the map’s root in the checkpoint' : 'the one in the slot above'}. The key’s byte ${depth} is ${hexOf([byte])}.`),
    strip(slots, byte),
    element('p', {}, slotText(slot, byte))));
  const {slot} = steps.at(-1);
  return element('ol', {class: 'way', 'aria-label': 'The way down the pages, from the map’s root to the key'}, start, ...pages, slot ? loneBox(box, slot, index) : null);
}

function slotText(slot, byte) {
  if (!slot) return `Slot ${hexOf([byte])} is free: no key’s digest begins so.`;
  return slot.lone ? `Slot ${hexOf([byte])} has one key alone.` : `Slot ${hexOf([byte])} names the next page, with the digest ${shortDigest(slot.digest)}.`;
}

function loneBox(box, slot, index) {
  const isIt = index !== undefined;
  return box(isIt, element('b', {}, isIt ? 'The key' : 'Another key'),
    element('p', {}, isIt ? 'It stands alone, and its value leads up to the slot’s digest, with empty trees beside.' : 'It stands alone, so nothing else is below this slot.'),
    facts([['Key’s digest', mono(hexOf(slot.key))], ['Value’s leaf digest', mono(hexOf(slot.leaf))], isIt && ['Its entry', link(`#entry/${index}`, countText(index)), ', which has this key and value']]));
}

function strip(slots, byte) {
  const bars = slots.filter(it => it.byte !== byte).map(it => `M${it.byte} 0h1v10h-1z`).join('');
  return picture('strip', 256, 10, shape('path', {d: bars}), shape('path', {class: 'here', d: `M${byte - .5} 0h2v10h-2z`}));
}

async function viewGrowth({log, growth}) {
  const {kept} = growth, now = log.checkpoint;
  const side = (name, {length, root, map, origin}, when) => card(element('h2', {class: 'small'}, name), facts([
    ['Origin', ...visible(origin)], ['Entries', countText(length)], ['Root', mono(base64Of(root))], map && ['Root of the map', mono(base64Of(map))], ['Seen', when]]));
  if (!kept) return {title: 'Growth', verdict: good('Checked: this is the first checkpoint that this browser keeps.', growth.line), nodes: [paragraph('When you come back, this page proves by the log’s tiles that it continues this checkpoint, or says loudly that it doesn’t.'), side('Kept', now, 'now'), againButton()]};
  const sides = element('div', {class: 'beside'}, side('Seen before', kept, dateText(kept.seen)), side('Served now', now, 'now'));
  if (growth.alarm) return {title: 'Growth', verdict: bad(growth.line, growth.why), nodes: [sides, paragraph(`Nothing else of this log is shown. ${growth.advice}`), forgetButton(now)]};
  return {title: 'Growth', verdict: good(`Checked: ${growth.line[0].toLowerCase()}${growth.line.slice(1)}`), nodes: [sides, ...growthProof(growth, now), againButton()]};
}

function growthProof({parts, kept}, now) {
  if (kept.length === 0) return [paragraph('The checkpoint that you saw had no entries, and every log continues it.')];
  const rects = parts.map(({start, size}) => shape('rect', {class: 'here', x: 1000 * start / now.length, width: Math.max(1, 1000 * size / now.length - 2), height: 30}));
  const rows = parts.map(({start, size, file, first, span}) => element('tr', {}, element('th', {scope: 'row'}, rangeText({start, count: size})), element('td', {}, mono(sourceLines([{file, first, span}])[0]))));
  return [
    heading('How that was proved'),
    picture('strip', 1000, 30, ...rects),
    small(`In colour the ${entriesText(kept.length)} of then, of ${countText(now.length)} now.`),
    paragraph(`The tiles of now, each checked up to the root of now, have the digests of ${plural(parts.length, 'tree')} over the entries of then. Joined they give the root of then, so no entry has changed, moved or gone.`),
    table('The trees over the entries of then', [['Tree over', ''], ['Its digest comes from', '']], rows),
  ];
}

function forgetButton(now) {
  return button('Forget what I saw, and trust this checkpoint', () => {
    remember(now);
    readLog();
  });
}

async function viewAbout() {
  const list = items => element('ul', {}, items.map(it => element('li', {}, it)));
  return {
    title: 'What is checked, and what is proved',
    verdict: {state: '', line: 'About this page', more: 'It reads the files of its own folder, and nothing else.'},
    nodes: [
      heading('Checked by this page'),
      list(['Each tile, entry bundle and page that is shown leads to a root in the checkpoint, by SHA-256 in your browser.', 'So an entry has its place in the log, and a key its value, or none, in the map.', 'The checkpoint continues the last one that this browser saw in this folder.']),
      heading('Not checked by this page'),
      list(['Signatures: they are shown as text.', 'That others see the same log: compare checkpoints.', 'That a registry’s map is the one that its entries make, and a value’s entry the last one of its key: warg_tlog audit reads every entry and shows it.', 'That this page is the one that you expect: whoever serves the log serves it, too.']),
      heading('Proved elsewhere'),
      paragraph('This page shares no line with the programs of the project warg-transparency, and nothing about it is proved. Those programs are proved to do what their contracts say: docs/PROVED.md of the project lists it all.'),
    ],
  };
}

// ---- The page

class NotThere extends Error {
  constructor(line, more = '') {
    super(line);
    this.more = more;
  }
}

const VIEWS = new Map(Object.entries({checkpoint: viewCheckpoint, entries: viewEntries, entry: viewEntry, key: viewKey, 'key-hex': viewKeyHex, growth: viewGrowth, about: viewAbout}));
const ICONS = {good: 'M5 12.5l4.5 4.5L19 7.5', bad: 'M7 7l10 10M17 7L7 17', '': 'M12 7v6M12 16v1'};
const byId = id => document.getElementById(id);

function wholeNumber(text) {
  const number = /^(?:0|[1-9][0-9]*)$/.test(text ?? '') ? Number(text) : NaN;
  return Number.isSafeInteger(number) ? number : null;
}

const faultVerdict = fault => bad(faultLine(fault), `${fault.message} Nothing of it is shown.`);

async function guarded(make) {
  try {
    return {made: await make()};
  } catch (fault) {
    if (!(fault instanceof Fault)) throw fault;
    return {fault};
  }
}

function viewOfError(error) {
  if (error instanceof Fault) {
    const why = ['unread', 'obstacle'].includes(error.kind) ? null : paragraph('The file was damaged, or whoever serves it doesn’t tell the truth.');
    return {title: 'Something is wrong', verdict: faultVerdict(error), nodes: [why, againButton()]};
  }
  if (error instanceof NotThere) return {title: 'Not there', verdict: {state: '', line: error.message, more: error.more}, nodes: [paragraph(link('#checkpoint', 'Back to the checkpoint'))]};
  reportError(error);
  return {title: 'This page has a fault', verdict: bad('This page failed, and shows nothing.', String(error)), nodes: []};
}

function addressOf(hash) {
  const [, name, rest] = /^#?([^/]*)(?:\/(.*))?$/s.exec(hash);
  try {
    return {name: name || 'checkpoint', rest: rest === undefined ? undefined : decodeURIComponent(rest)};
  } catch {
    return {name: 'none', rest};
  }
}

async function viewAt(state, {name, rest}) {
  try {
    const view = VIEWS.get(name);
    if (view === viewAbout) return await viewAbout();
    if (state.fault) throw state.fault;
    if (state.growth.alarm) return await viewGrowth(state);
    if (!view) throw new NotThere('No view has this address.', location.hash);
    return await view(state, rest);
  } catch (error) {
    return viewOfError(error);
  }
}

function showVerdict({state, line, more}) {
  const icon = picture('icon', 24, 24, shape('path', {d: ICONS[state], fill: 'none', stroke: 'currentColor', 'stroke-width': 3, 'stroke-linecap': 'round'}));
  byId('verdict').className = `verdict ${state}`;
  byId('verdict').ariaLive = state === 'bad' ? 'assertive' : 'polite';
  byId('verdict').replaceChildren(icon, element('p', {class: 'line'}, line), element('p', {}, more));
}

function showNames({log}, name) {
  const origin = log?.checkpoint.origin;
  byId('origin').replaceChildren(...visible(origin ?? new URL('.', location.href).host));
  byId('kind').textContent = log?.checkpoint.map ? 'Registry in a transparency log' : 'Transparency log';
  byId('keys').hidden = !log?.checkpoint.map;
  for (const it of document.querySelectorAll('.views a')) {
    const is = it.hash === `#${{entry: 'entries', 'key-hex': 'key'}[name] ?? name}`;
    it.ariaCurrent = is ? 'page' : null;
  }
  return origin ?? 'A transparency log';
}

let turn = 0;
let current = null;

// Shows what the address names; the newest call alone draws.
async function show(isFirst = false) {
  if (current === null) return;
  const mine = ++turn, address = addressOf(location.hash), {count, size} = current.files;
  const before = isFirst ? {count: 0, size: 0, time: current.began} : {count, size, time: performance.now()};
  byId('main').ariaBusy = 'true';
  const {title, verdict, nodes} = await viewAt(current, address);
  if (mine !== turn) return;
  const h1 = element('h1', {tabindex: '-1'}, ...visible(title));
  byId('main').replaceChildren(h1, ...nodes.filter(Boolean));
  document.title = `${title} – ${showNames(current, address.name)}`;
  showVerdict(verdict);
  showReading(current, before);
  if (!isFirst) h1.focus();
  byId('main').ariaBusy = 'false';
}

function showReading({files, log}, {count, size, time}) {
  const tiles = log ? log.tiles.made.size + log.edge.size : 0, took = Math.round(performance.now() - time);
  byId('reading').textContent = `Read for this view: ${plural(files.count - count, 'file')}, ${bytesText(files.size - size)}, in ${countText(took)} ms. In memory: ${plural(tiles, 'tile')}.`;
}

// Why this browser can't check anything here, or nothing.
function obstacle() {
  if (location.protocol === 'file:') return 'It was opened as a file, and then browsers let it read no other file. Serve the folder, for instance with python3 -m http.server.';
  if (!globalThis.crypto?.subtle) return 'The browser’s SHA-256 (WebCrypto) is missing: it is there only over https or on localhost.';
  return null;
}

// Reads the checkpoint, checks it, and shows what the address names.
async function readLog() {
  const files = new Files(), why = obstacle();
  const state = {files, began: turn && performance.now(), log: null, growth: null, fault: why && new Fault('obstacle', 'This page', why)};
  current = null;
  turn += 1;
  byId('main').ariaBusy = 'true';
  try {
    if (!why) state.log = await Log.at(files);
    if (!why) state.growth = await growthOf(state.log);
  } catch (fault) {
    state.fault = fault;
  }
  current = state;
  await show(true);
}

byId('skip').addEventListener('click', event => {
  event.preventDefault();
  byId('main').focus();
});
addEventListener('hashchange', () => show());
readLog();
</script>
</body>
</html>
"##;
