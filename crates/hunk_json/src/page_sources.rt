//! What stands in a page around the document: page/head.html and page/tail.html, as they are.
//! page/embed.py writes this file.

/// What stands in a page before the document.
pub(crate) const HEAD: &str = r#"<!doctype html>
<!-- The page of `amihunk show --html`. page/make.sh makes head.html and tail.html of page.html, style.css and the scripts:
change those, and run it. -->
<html lang="en">
<head>
<meta charset="utf-8">
<meta http-equiv="Content-Security-Policy" content="default-src 'none'; script-src 'sha256-X0oxO/U9Fh3gWsbEyXk3YonULZME1OOCOd0Fq+l1GdU='; style-src 'sha256-I5Ayv2FYRtfKPhE0LaHy4JKJ/XFxujfG6PXMN6eSC9A='; base-uri 'none'; form-action 'none'">
<meta name="viewport" content="width=device-width, initial-scale=1">
<meta name="color-scheme" content="light dark">
<title>Hunk file</title>
<style>
/* How the page looks, in both color schemes.
A part of the page that `page/make.sh` makes: change it here, and run that. */

:root {
  color-scheme: light dark;
  --ground: #f4f4f1;
  --paper: #ffffff;
  --ink: #1c2126;
  --muted: #59626d;
  --line: #d8dbd9;
  --hover: #f0f3f6;
  --current: #e5edf6;
  --code: #2c6aa8;
  --data: #277353;
  --bss: #75598f;
  --hunk-site: #ffe6ad;
  --hunk-site-ink: #513700;
  --name-site: #e0daf9;
  --name-site-ink: #3b2a78;
  --here: #b3261e;
  --focus: #0b57d0;
  --mono: ui-monospace, "SF Mono", "Cascadia Mono", "Segoe UI Mono", "DejaVu Sans Mono", Menlo, Consolas, monospace;
}

@media (prefers-color-scheme: dark) {
  :root {
    --ground: #14171a;
    --paper: #1b1f24;
    --ink: #e2e6ea;
    --muted: #98a2ad;
    --line: #30363d;
    --hover: #22282f;
    --current: #24303d;
    --code: #6ba6e3;
    --data: #5fbd95;
    --bss: #b39ad0;
    --hunk-site: #4a3a10;
    --hunk-site-ink: #ffdc8f;
    --name-site: #372e60;
    --name-site-ink: #d8cffd;
    --here: #ff8a80;
    --focus: #8ab4f8;
  }
}

* { box-sizing: border-box; }

html { font: 100%/1.5 system-ui, "Segoe UI", Roboto, "Helvetica Neue", "DejaVu Sans", sans-serif; }

body {
  display: grid;
  grid-template-rows: auto minmax(0, 1fr) auto;
  height: 100vh;
  margin: 0;
  color: var(--ink);
  background: var(--ground);
}

header, footer { padding: 0.75rem 1.25rem; }

h1, h2, h3, p, dl, dd, ul { margin: 0; }

header { display: flex; flex-wrap: wrap; gap: 0 1rem; align-items: baseline; }
h1 { font-size: 1.25rem; font-weight: 650; letter-spacing: -0.01em; }
h2 { font-size: 0.875rem; font-weight: 650; }
h3 { font-size: 0.8125rem; font-weight: 650; }
header p, .bar-of-heading p { color: var(--muted); font-size: 0.875rem; }

noscript { padding: 0 1.25rem; }

/* ---- the three parts */

main {
  display: grid;
  grid-template-columns: minmax(16rem, 1fr) minmax(0, 46rem) minmax(18rem, 1.3fr);
  gap: 1rem;
  min-height: 0;
  padding: 0 1.25rem;
}

section {
  display: flex;
  flex-direction: column;
  min-width: 0;
  min-height: 0;
  border: 1px solid var(--line);
  border-radius: 0.5rem;
  overflow: hidden;
  background: var(--paper);
}

section > h2, .bar-of-heading { padding: 0.5rem 0.75rem; border-bottom: 1px solid var(--line); }

.bar-of-heading { display: flex; gap: 0.75rem; align-items: baseline; }
.bar-of-heading p { min-width: 0; overflow: hidden; text-overflow: ellipsis; white-space: nowrap; }

.scroller {
  position: relative;
  flex: 1;
  min-height: 0;
  overflow-x: hidden;
  overflow-y: scroll;
  overscroll-behavior: contain;
  scrollbar-width: thin;
}

.canvas { position: relative; overflow: hidden; }
.row { position: absolute; top: 0; left: 0; right: 0; height: var(--row); white-space: pre; }

.name { font-family: var(--mono); unicode-bidi: isolate; }

a { color: inherit; text-decoration: none; }

:focus-visible { outline: 2px solid var(--focus); outline-offset: -2px; }

/* ---- hunks */

#hunks { --row: 3rem; }
#hunks .row { border-left: 3px solid transparent; }
#hunks .row:hover { background: var(--hover); }
#hunks .row[aria-current="true"] { background: var(--current); border-left-color: var(--focus); }
#hunks .row.target { background: var(--hunk-site); color: var(--hunk-site-ink); }
#hunks .row.target span:not(.bar) { color: inherit; }
#hunks .row.target .bar { color: var(--kind); }

.facts { display: block; height: 100%; padding: 0.35rem 0.75rem 0 0.6rem; font-size: 0.8125rem; }
.line { display: flex; gap: 0.45rem; align-items: baseline; }
.facts .title { font-weight: 600; }
.facts .name { min-width: 0; overflow: hidden; text-overflow: ellipsis; color: var(--muted); }
.facts .name:empty { display: none; }
.facts .size { margin-left: auto; color: var(--muted); }
.memory.any { color: var(--muted); }
.unit .facts { padding-top: 1.1rem; font-size: 0.875rem; }

.code { --kind: var(--code); }
.data { --kind: var(--data); }
.bss { --kind: var(--bss); }
.kind { color: var(--kind); font-weight: 600; }

.bar { display: block; height: 0.5rem; margin-top: 0.2rem; min-width: 2px; border-radius: 2px; overflow: hidden; color: var(--kind); }
.bar, .swatch.rest {
  background: repeating-linear-gradient(135deg, currentColor 0 1px, transparent 1px 4px);
  box-shadow: inset 0 0 0 1px currentColor;
}
.bar .stored { display: block; height: 100%; background: var(--kind); }

/* ---- bytes */

#bytes, .sample { font: 0.8125rem/1.375rem var(--mono); }
#bytes { --row: 1.375rem; }
#bytes .row, .probe { padding: 0 0.75rem; }
#bytes .row { display: flex; gap: 1ch; }
#bytes[data-columns="16"] .row { gap: 2ch; }
#bytes .row:not(.heading):hover { background: var(--hover); }
.probe { position: absolute; left: 0.75rem; padding: 0; visibility: hidden; }

.heading {
  align-items: center;
  border-top: 1px solid var(--line);
  background: var(--ground);
  font-family: system-ui, "DejaVu Sans", sans-serif;
}
#bytes .row.heading { gap: 0.6rem; }
.heading h3 { color: var(--kind); }
.heading .notes { min-width: 0; overflow: hidden; text-overflow: ellipsis; color: var(--muted); font-size: 0.75rem; }
.heading .name { min-width: 0; overflow: hidden; text-overflow: ellipsis; }
.heading .name:empty { display: none; }

.offset { color: var(--muted); }
.bytes, .ascii { flex: none; }
.labels { flex: 1; min-width: 0; overflow: hidden; text-overflow: ellipsis; color: var(--code); }
.labels .name + .name { margin-left: 2ch; }
.zeros { color: var(--muted); }
.run.zeros:not(.site), .sample.zeros { background: var(--ground); }

.adds-hunk, .adds-name { border-radius: 3px; padding: 1px 0; }
.adds-hunk { color: var(--hunk-site-ink); background: var(--hunk-site); }
.adds-name { color: var(--name-site-ink); background: var(--name-site); }
.site:hover { text-decoration: underline; text-underline-offset: 3px; }
.named { margin-left: -2px; border-left: 2px solid var(--code); }
.here { outline: 2px solid var(--here); outline-offset: 0; border-radius: 3px; }
.here:focus-visible { outline: 3px solid var(--focus); outline-offset: 0; }

/* Where there is little room, no names follow the rows. */
@container (max-width: 40rem) {
  .labels { display: none; }
}

/* ---- what is told of a site */

#detail {
  display: grid;
  grid-template-columns: minmax(0, 2fr) minmax(11rem, 1fr);
  gap: 0.15rem 1rem;
  padding: 0.5rem 0.75rem;
  border-top: 1px solid var(--line);
  font-size: 0.8125rem;
}
#detail div { display: flex; gap: 0.5rem; min-width: 0; }
#detail dt { flex: none; width: 4.5rem; color: var(--muted); }
#detail dd { min-width: 0; overflow: hidden; text-overflow: ellipsis; white-space: pre; font-family: var(--mono); }
#detail div:last-child { grid-column: 1 / -1; }

@container (max-width: 36rem) {
  #detail { grid-template-columns: minmax(0, 1fr); }
}

/* ---- names */

section.names, section.bytes { container-type: inline-size; }

#filter {
  margin: 0.5rem 0.75rem;
  padding: 0.35rem 0.6rem;
  border: 1px solid var(--muted);
  border-radius: 0.375rem;
  color: inherit;
  background: var(--ground);
  font: inherit;
  font-size: 0.875rem;
}
#filter::placeholder { color: var(--muted); opacity: 1; }

.table { display: flex; flex: 1; flex-direction: column; min-height: 0; font-size: 0.8125rem; }
.titles { position: absolute; clip-path: inset(50%); }
#names { --row: 3rem; border-top: 1px solid var(--line); }
#names .row { display: grid; grid-template-columns: 4.25rem minmax(0, 1fr); padding: 0.3rem 0.75rem; }
#names .cell:first-child { grid-column: 1 / -1; }
#names .row:hover { background: var(--hover); }
.cell { min-width: 0; overflow: hidden; text-overflow: ellipsis; }
.cell a::after { content: ""; position: absolute; inset: 0; }
.cell a:focus-visible { outline: none; }
.cell a:focus-visible::after { outline: 2px solid var(--focus); outline-offset: -2px; }
.cell a.empty, .what, .place { color: var(--muted); }
.what, .place { font-size: 0.75rem; }
.place { font-family: var(--mono); }

/* Where there is room, a name has one line. */
@container (min-width: 34rem) {
  .titles, #names .row { grid-template-columns: minmax(0, 48rem) 6rem 14rem; gap: 0.75rem; padding: 0.2rem 0.75rem; }
  .titles {
    position: static;
    display: grid;
    clip-path: none;
    overflow: hidden;
    scrollbar-gutter: stable;
    scrollbar-width: thin;
    border-top: 1px solid var(--line);
    color: var(--muted);
    font-size: 0.75rem;
  }
  #names { --row: 1.75rem; }
  #names .cell:first-child { grid-column: auto; }
}

/* ---- legend and keys */

footer { display: flex; flex-wrap: wrap; gap: 0.25rem 2.5rem; color: var(--muted); font-size: 0.75rem; }
footer ul { display: flex; flex-wrap: wrap; gap: 0.25rem 1.1rem; padding: 0; list-style: none; }
footer li { display: flex; gap: 0.35rem; align-items: center; }
.swatch { width: 0.9rem; height: 0.5rem; border-radius: 2px; background: var(--kind); }
.sample { padding: 0 0.2rem; font-size: 0.6875rem; line-height: 1.1rem; }
kbd { padding: 0 0.3rem; border: 1px solid var(--line); border-radius: 3px; background: var(--paper); font: 0.6875rem/1.1rem var(--mono); }

/* ---- very wide windows, and narrow ones: two columns, and then one */

@media (min-width: 120rem) {
  main { grid-template-columns: 26rem 50rem minmax(0, 1fr); }
}

@media (min-width: 180rem) {
  html { font-size: 125%; }
}

@media (max-width: 88rem) {
  #bytes { font-size: 0.75rem; }
}

@media (max-width: 75rem) {
  main { grid-template-columns: minmax(18rem, 2fr) minmax(0, 5fr); grid-template-rows: minmax(0, 2fr) minmax(0, 3fr); }
  section.bytes { grid-column: 2; grid-row: 1 / -1; }
}

@media (max-width: 44rem) {
  body { height: auto; }
  header, footer { padding: 0.5rem; }
  main { grid-template: auto / minmax(0, 1fr); gap: 0.5rem; padding: 0 0.5rem; }
  section.hunks { height: 15rem; }
  section.bytes { grid-area: auto; height: 75vh; }
  section.names { height: 24rem; }
  #bytes .row { padding: 0 0.375rem; }
  .probe { left: 0.375rem; }
}
</style>
</head>
<body>
<header>
<h1 id="title">Hunk file</h1>
<p id="summary"></p>
</header>
<noscript><p>This page is drawn by its own script, which is not allowed to run here.</p></noscript>
<main>
<section class="hunks" aria-labelledby="hunks-title">
<h2 id="hunks-title">Hunks</h2>
<div id="hunks" class="scroller" role="list" aria-labelledby="hunks-title"></div>
</section>
<section class="bytes" aria-labelledby="bytes-title">
<div class="bar-of-heading"><h2 id="bytes-title">Bytes</h2><p id="where"></p></div>
<div id="bytes" class="scroller" role="group" aria-labelledby="bytes-title"></div>
<dl id="detail">
<div><dt>Place</dt><dd id="detail-place"></dd></div>
<div><dt>In the file</dt><dd id="detail-file"></dd></div>
<div><dt>Adds</dt><dd id="detail-adds"></dd></div>
<div><dt>Longword</dt><dd id="detail-longword"></dd></div>
<div><dt>Points at</dt><dd id="detail-target"></dd></div>
</dl>
</section>
<section class="names" aria-labelledby="names-title">
<div class="bar-of-heading"><h2 id="names-title">Names</h2><p id="names-count" aria-live="polite"></p></div>
<input id="filter" type="search" placeholder="Filter names" aria-label="Filter names" aria-keyshortcuts="/"
 autocomplete="off" spellcheck="false">
<div id="table" class="table" role="table" aria-labelledby="names-title">
<div role="rowgroup">
<div class="titles" role="row">
<span role="columnheader">Name</span><span role="columnheader">Kind</span><span role="columnheader">Place</span>
</div>
</div>
<div id="names" class="scroller" role="rowgroup"></div>
</div>
</section>
</main>
<footer>
<ul aria-label="Legend">
<li><span class="swatch code"></span>code</li>
<li><span class="swatch data"></span>data</li>
<li><span class="swatch bss"></span>bss</li>
<li><span class="swatch rest"></span>zeros that the file does not store</li>
<li><span class="sample adds-hunk">00</span>adds a hunk’s base</li>
<li><span class="sample adds-name">00</span>adds a name’s value</li>
<li><span class="sample zeros">00</span>not stored</li>
<li><span class="sample named">00</span>a name stands for it</li>
<li><span class="sample here">00</span>where you are</li>
</ul>
<ul aria-label="Keys">
<li><kbd>←</kbd> <kbd>→</kbd> <kbd>↑</kbd> <kbd>↓</kbd> between sites</li>
<li><kbd>Enter</kbd> goes where a site points</li>
<li><kbd>Alt</kbd> <kbd>←</kbd> goes back</li>
<li><kbd>/</kbd> filters names</li>
</ul>
</footer>
<script type="application/json" id="document">"#;

/// What stands in a page behind the document.
pub(crate) const TAIL: &str = r#"</script>
<script type="module">
// The file as values: its hunks with their bytes and names, and what its sites point at. Nothing here draws.
// A part of the page that `page/make.sh` makes: change it here, and run that.

/** How many bytes of a content are decoded at a time: a multiple of three, since base64 spells three bytes by four letters. */
const BLOCK = 3 * 4096;

/** Characters that nobody would see, or that change how others are seen; and the backslash, which begins an escape. */
const HIDDEN = /[\\\p{Cc}\p{Cf}\p{Zl}\p{Zp}]/gu;

function hex(number, digits = 8) {
  return number.toString(16).padStart(digits, "0");
}

/** A count with its noun: `1 hunk`, `2,000 hunks`. */
function counted(count, noun) {
  return `${count.toLocaleString("en")} ${noun}${count === 1 ? "" : "s"}`;
}

function escaped(code) {
  return code < 0x80 ? `\\x${hex(code, 2)}` : `\\u${hex(code, 4)}`;
}

/** A name as it is shown: a text, or bytes that are not UTF-8. Different names are spelled differently. */
function spelled(name) {
  if (typeof name === "string") {
    return name.replace(HIDDEN, (it) => escaped(it.codePointAt(0)));
  }
  const letter = (byte) => (byte < 0x80 ? spelled(String.fromCharCode(byte)) : `\\x${hex(byte, 2)}`);
  return name.map(letter).join("");
}

/** The index of the last of some things, sorted by a key, whose key is at most a number; -1 if there is none. */
function lastUpTo(things, most, key = "offset") {
  let [first, end] = [0, things.length];
  while (first < end) {
    const middle = (first + end) >> 1;
    if (things[middle][key] <= most) {
      first = middle + 1;
    } else {
      end = middle;
    }
  }
  return first - 1;
}

/** A hunk. Its sizes are in bytes, and its index counts the hunks of all units. */
class Hunk {
  constructor(facts, index, title, unit) {
    Object.assign(this, { index, title, unit });
    this.kind = facts.kind;
    this.memory = facts.memory;
    this.name = spelled(facts.name ?? "");
    this.size = 4 * facts.size;
    this.sites = facts.sites;
    this.symbols = facts.symbols;
    this.definitions = facts.definitions ?? [];
    this.debugs = facts.debugs;
    this.content = facts.content ?? "";
    this.contentOffset = facts.content_offset;
    const padding = this.content.endsWith("==") ? 2 : Number(this.content.endsWith("="));
    this.stored = (this.content.length / 4) * 3 - padding;
    this.blocks = [];
  }

  /** The byte at an offset: as it is stored, or zero past all that is stored. */
  byte(offset) {
    if (offset >= this.stored) {
      return 0;
    }
    const number = Math.floor(offset / BLOCK);
    const letters = (BLOCK / 3) * 4;
    this.blocks[number] ??= atob(this.content.slice(number * letters, (number + 1) * letters));
    return this.blocks[number].charCodeAt(offset % BLOCK);
  }

  longword(offset) {
    return [0, 1, 2, 3].reduce((number, index) => number * 256 + this.byte(offset + index), 0);
  }

  /** The names that stand for offsets of this hunk, by rising offset. They are sorted once somebody asks. */
  get labels() {
    if (this.sorted === undefined) {
      const offsets = [...this.symbols, ...this.definitions.filter((it) => !it.absolute)];
      this.sorted = offsets.map((it) => ({ offset: it.value, name: it.name }));
      this.sorted.sort((one, other) => one.offset - other.offset);
    }
    return this.sorted;
  }

  /** The site that has the byte at an offset, if one does. */
  siteWith(offset) {
    const site = this.sites[lastUpTo(this.sites, offset)];
    return site && offset < site.offset + 4 ? site : undefined;
  }

  /** The name at an offset, or the last before it, and how far: `loop + 4`; empty if there is none. */
  nearest(offset) {
    const label = this.labels[lastUpTo(this.labels, offset)];
    if (label === undefined) {
      return "";
    }
    const distance = offset - label.offset;
    return spelled(label.name) + (distance > 0 ? ` + ${distance}` : "");
  }
}

/** A hunk file of either kind. A load file has one unit here, which nothing names. */
class HunkFile {
  constructor(facts) {
    this.isObject = facts.kind === "object file";
    this.hunks = [];
    this.units = (facts.units ?? [facts]).map((unit, number) => this.unit(unit, number));
    this.definitions = new Map();
    for (const hunk of this.hunks) {
      for (const definition of hunk.definitions) {
        this.definitions.set(spelled(definition.name), { ...definition, hunk });
      }
    }
  }

  unit(facts, number) {
    const unit = { name: spelled(facts.name ?? ""), hunks: [] };
    const front = this.isObject ? `unit ${number} ` : "";
    for (const hunk of facts.hunks) {
      unit.hunks.push(new Hunk(hunk, this.hunks.length, `${front}hunk ${unit.hunks.length}`, unit));
      this.hunks.push(unit.hunks.at(-1));
    }
    return unit;
  }

  /** Where the longword at a site points: a hunk and an offset in it, or why it points nowhere in this file. */
  target(hunk, site) {
    const added = hunk.longword(site.offset);
    if (site.hunk !== undefined) {
      const target = hunk.unit.hunks[site.hunk];
      return target ? { hunk: target, offset: added } : { nowhere: `there is no hunk ${site.hunk} in its unit` };
    }
    const definition = this.definitions.get(spelled(site.name));
    if (definition === undefined) {
      return { nowhere: "this file does not define the name" };
    }
    const sum = (definition.value + added) % 2 ** 32;
    return definition.absolute ? { nowhere: `the number ${hex(sum)}` } : { hunk: definition.hunk, offset: sum };
  }

  /** The first site at an offset of a hunk or after it, also in the hunks that follow. */
  siteFrom(index, offset) {
    for (; index < this.hunks.length; index += 1, offset = 0) {
      const hunk = this.hunks[index];
      const site = hunk.sites[lastUpTo(hunk.sites, offset - 1) + 1];
      if (site !== undefined) {
        return { hunk, offset: site.offset };
      }
    }
    return undefined;
  }

  /** The last site at an offset of a hunk or before it, also in the hunks before. */
  siteUpTo(index, offset) {
    for (; index >= 0; index -= 1, offset = Infinity) {
      const hunk = this.hunks[index];
      const site = hunk.sites[lastUpTo(hunk.sites, offset)];
      if (site !== undefined) {
        return { hunk, offset: site.offset };
      }
    }
    return undefined;
  }
}
// Long lists, of which only the rows that are looked at are drawn.
// A part of the page that `page/make.sh` makes: change it here, and run that.

/** The tallest that a list is made, in pixels: browsers place nothing reliably much farther down. */
const TALLEST = 8_000_000;

/** How many rows are drawn above and below those that are seen. */
const MARGIN = 6;

/** An element of a class, with a text. All that a file tells is shown in this way, so it is never read as markup. */
function element(tag, className, text = "") {
  const made = document.createElement(tag);
  made.className = className;
  made.textContent = text;
  return made;
}

function between(least, number, most) {
  return Math.max(least, Math.min(number, most));
}

/** A list of rows of one height. Its position is that of what is seen, in pixels from the top of all rows. */
class Scroller {
  constructor(viewport, drawRow) {
    this.viewport = viewport;
    this.drawRow = drawRow;
    this.canvas = viewport.appendChild(element("div", "canvas"));
    this.rows = new Map();
    this.count = 0;
    this.position = 0;
    this.scrollTop = 0;
    /** The row that is drawn wherever it is, since it holds what the tab key leads to. */
    this.kept = -1;
    viewport.addEventListener("scroll", () => this.scrolled(), { passive: true });
    new ResizeObserver(() => this.resized()).observe(viewport);
  }

  measure() {
    const probe = this.canvas.appendChild(element("div", "row"));
    const { height } = probe.getBoundingClientRect();
    probe.remove();
    return height;
  }

  /** The height of a row may depend on the width of the list. */
  resized() {
    const first = this.firstSeen;
    if (this.measure() === this.rowHeight) {
      this.moveTo(this.position);
    } else {
      this.reset(this.count);
      this.moveTo(first * this.rowHeight);
    }
  }

  /** Begins again with so many rows. */
  reset(count) {
    this.rowHeight = this.measure();
    this.count = count;
    this.rows.clear();
    this.canvas.replaceChildren();
    this.canvas.style.height = `${Math.min(count * this.rowHeight, TALLEST)}px`;
    this.moveTo(this.position);
  }

  /** The farthest position. */
  get end() {
    return Math.max(0, this.count * this.rowHeight - this.viewport.clientHeight);
  }

  /** The farthest that the browser scrolls, which is less in a list that is made lower than its rows would be. */
  get scrollEnd() {
    return Math.max(0, Math.min(this.count * this.rowHeight, TALLEST) - this.viewport.clientHeight);
  }

  get isLowered() {
    return this.count * this.rowHeight > TALLEST;
  }

  moveTo(position) {
    this.position = between(0, position, this.end);
    const share = this.end > 0 ? this.scrollEnd / this.end : 1;
    const inside = this.position > 0 && this.position < this.end;
    const top = this.position * share;
    this.viewport.scrollTop = this.isLowered && inside ? between(2, top, this.scrollEnd - 2) : top;
    this.scrollTop = this.viewport.scrollTop;
    this.draw();
  }

  /** Follows the browser. In a lowered list, a short way is one over the rows, and a long way one over the whole list. */
  scrolled() {
    const top = this.viewport.scrollTop;
    const way = top - this.scrollTop;
    this.scrollTop = top;
    if (!this.isLowered) {
      this.position = top;
    } else if (top <= 1 || top >= this.scrollEnd - 1) {
      this.position = top <= 1 ? 0 : this.end;
    } else if (Math.abs(way) > 2 * this.viewport.clientHeight) {
      this.position = (top / this.scrollEnd) * this.end;
    } else {
      this.position = between(0, this.position + way, this.end);
    }
    this.draw();
    if (this.isLowered && way !== 0) {
      clearTimeout(this.settling);
      this.settling = setTimeout(() => this.moveTo(this.position), 250);
    }
  }

  /** Moves a row into view, if it is not, and draws it. */
  reveal(index) {
    const top = index * this.rowHeight;
    const height = this.viewport.clientHeight;
    const isSeen = top >= this.position && top + this.rowHeight <= this.position + height;
    this.moveTo(isSeen ? this.position : top - height / 3);
  }

  /** The first row that is seen. */
  get firstSeen() {
    return Math.floor(this.position / this.rowHeight);
  }

  /** Draws a row again, if it is drawn. */
  redraw(index) {
    this.rows.get(index)?.remove();
    this.rows.delete(index);
    this.draw();
  }

  /** Draws the rows that are seen, in their order, and drops those that no longer are. */
  draw() {
    const seen = Math.ceil(this.viewport.clientHeight / (this.rowHeight || 1));
    const first = Math.max(0, this.firstSeen - MARGIN);
    const wanted = [];
    for (let index = first; index < Math.min(this.count, first + seen + 2 * MARGIN); index += 1) {
      wanted.push(index);
    }
    if (this.kept >= 0 && this.kept < this.count && !wanted.includes(this.kept)) {
      wanted.splice(this.kept < first ? 0 : wanted.length, 0, this.kept);
    }
    const drop = new Set(this.rows.keys());
    wanted.forEach((index) => drop.delete(index));
    for (const index of drop) {
      this.rows.get(index).remove();
      this.rows.delete(index);
    }
    this.place(wanted);
    this.drawn?.();
  }

  place(wanted) {
    const shift = this.position - this.scrollTop;
    let next = this.canvas.firstChild;
    for (const index of wanted) {
      const row = this.rows.get(index) ?? this.make(index);
      row.style.transform = `translateY(${index * this.rowHeight - shift}px)`;
      if (row === next) {
        next = next.nextSibling;
      } else {
        this.canvas.insertBefore(row, next);
      }
    }
  }

  make(index) {
    const row = this.drawRow(index);
    row.dataset.index = index;
    this.rows.set(index, row);
    return row;
  }
}

/** A list whose rows have a link each. One of them is in the tab order, and the arrow keys move between them. */
class LinkList extends Scroller {
  constructor(viewport, drawRow) {
    super(viewport, drawRow);
    this.kept = 0;
    viewport.addEventListener("keydown", (event) => this.pressed(event));
    viewport.addEventListener("focusin", (event) => this.focused(event.target.closest(".row")));
  }

  make(index) {
    const row = super.make(index);
    row.querySelector("a").tabIndex = index === this.kept ? 0 : -1;
    return row;
  }

  /** Lets the tab key lead to a row. */
  keep(index) {
    for (const [at, row] of this.rows) {
      row.querySelector("a").tabIndex = at === index ? 0 : -1;
    }
    this.kept = index;
  }

  /** What has got the focus is the list itself in some browsers, and otherwise the link of a row. */
  focused(row) {
    if (row) {
      this.keep(Number(row.dataset.index));
    }
  }

  focus(index) {
    this.keep(index);
    this.reveal(index);
    this.rows.get(index)?.querySelector("a").focus({ preventScroll: true });
  }

  pressed(event) {
    const page = Math.max(1, Math.floor(this.viewport.clientHeight / this.rowHeight) - 1);
    const ways = { ArrowUp: -1, ArrowDown: 1, PageUp: -page, PageDown: page, Home: -Infinity, End: Infinity };
    if (event.key in ways && !event.altKey && !event.ctrlKey && !event.metaKey) {
      event.preventDefault();
      this.focus(between(0, this.kept + ways[event.key], this.count - 1));
    }
  }
}
// The list of hunks, each with a bar as long as its share of the largest.
// A part of the page that `page/make.sh` makes: change it here, and run that.

/** What the link of a place leads to, as the page's address tells it. */
function addressOf(hunk, offset) {
  return `#${hunk.index}:${hex(offset)}`;
}

class Hunks {
  constructor(file, viewport) {
    this.largest = file.hunks.reduce((most, hunk) => Math.max(most, hunk.size), 1);
    this.items = [];
    /** The row of each hunk, by its index: an object file has rows for its units as well. */
    this.rowOf = [];
    file.units.forEach((unit, number) => {
      if (file.isObject) {
        this.items.push({ unit, number });
      }
      for (const hunk of unit.hunks) {
        this.rowOf.push(this.items.length);
        this.items.push({ hunk });
      }
    });
    this.list = new LinkList(viewport, (row) => this.drawRow(row));
    this.list.reset(this.items.length);
  }

  drawRow(index) {
    const { hunk, unit, number } = this.items[index];
    const row = element("div", hunk ? "row hunk" : "row unit");
    row.setAttribute("role", "listitem");
    row.setAttribute("aria-setsize", this.items.length);
    row.setAttribute("aria-posinset", index + 1);
    row.append(hunk ? this.drawHunk(hunk) : this.drawUnit(unit, number));
    if (hunk !== undefined) {
      row.setAttribute("aria-current", hunk === this.current);
      row.classList.toggle("target", hunk === this.target);
    }
    return row;
  }

  drawUnit(unit, number) {
    const link = element("a", "facts");
    if (unit.hunks.length > 0) {
      link.href = addressOf(unit.hunks[0], 0);
    }
    const size = unit.hunks.length > 0 ? counted(unit.hunks.length, "hunk") : "no hunks";
    link.append(this.drawLine([["title", `unit ${number}`], ["name", unit.name], ["size", size]]));
    return link;
  }

  drawHunk(hunk) {
    const link = element("a", `facts ${hunk.kind}`);
    link.href = addressOf(hunk, 0);
    const number = hunk.title.slice(hunk.title.indexOf("hunk"));
    const parts = [["title", number], ["kind", hunk.kind], [`memory ${hunk.memory}`, hunk.memory], ["name", hunk.name]];
    link.append(this.drawLine([...parts, ["size", counted(hunk.size, "byte")]]), this.drawBar(hunk));
    return link;
  }

  drawLine(parts) {
    const line = element("span", "line");
    line.append(...parts.map(([name, text]) => element("span", name, text)));
    return line;
  }

  /** A bar of two parts: what the file has of the hunk, and the zeros up to its size. */
  drawBar(hunk) {
    const bar = element("span", "bar");
    bar.style.width = `${(100 * hunk.size) / this.largest}%`;
    bar.title = `${counted(hunk.stored, "byte")} stored, ${counted(hunk.size - hunk.stored, "zero")}`;
    const stored = bar.appendChild(element("span", "stored"));
    stored.style.width = hunk.size > 0 ? `${(100 * hunk.stored) / hunk.size}%` : "0";
    return bar;
  }

  /** The row of a hunk, if it is drawn. */
  row(hunk) {
    return hunk && this.list.rows.get(this.rowOf[hunk.index]);
  }

  /** Marks the hunk that is looked at. */
  setCurrent(hunk) {
    if (hunk !== this.current) {
      this.row(this.current)?.setAttribute("aria-current", false);
      this.current = hunk;
      this.row(hunk)?.setAttribute("aria-current", true);
    }
  }

  /** Marks the hunk that a site points at, or none. */
  setTarget(hunk) {
    this.row(this.target)?.classList.remove("target");
    this.target = hunk;
    this.row(hunk)?.classList.add("target");
  }
}
// The bytes of all hunks, one after another, as a dump: offset, bytes in hexadecimal, and what they are as ASCII.
// A part of the page that `page/make.sh` makes: change it here, and run that.

/** How many bytes a row may have: as many as fit. */
const COLUMNS = [16, 8, 4];

/** The most names that a row tells of. */
const MOST_LABELS = 8;

/** The space between the bytes of a row is twice as wide after each eighth. */
function gapAfter(offset) {
  return offset % 8 === 7 ? "  " : " ";
}

/** How many letters so many bytes of a row take in hexadecimal. */
function hexLetters(columns) {
  return 3 * columns - 1 + (columns === 16 ? 1 : 0);
}

/** The letters of a row with so many bytes: the offset, the bytes and the text, with the gaps of style.css between them. */
function lettersOf(columns) {
  return 8 + hexLetters(columns) + columns + 2 * (columns === 16 ? 2 : 1);
}

function hexOf(hunk, from, to) {
  let text = "";
  for (let offset = from; offset < to; offset += 1) {
    text += hex(hunk.byte(offset), 2) + (offset + 1 < to ? gapAfter(offset) : "");
  }
  return text;
}

function asciiOf(hunk, from, to) {
  let text = "";
  for (let offset = from; offset < to; offset += 1) {
    const byte = hunk.byte(offset);
    text += byte >= 32 && byte < 127 ? String.fromCharCode(byte) : ".";
  }
  return text;
}

/** What a site adds, in words. */
function addedBy(site) {
  return site.hunk === undefined ? `value of ${spelled(site.name) || "the empty name"}` : `base of hunk ${site.hunk}`;
}

/** The dump. Its cursor is the one place in it that the tab key leads to: a site, or where one went. */
class Bytes {
  constructor(file, viewport) {
    this.file = file;
    this.viewport = viewport;
    this.scroller = new Scroller(viewport, (row) => this.drawRow(row));
    this.cursor = file.siteFrom(0, 0) ?? { hunk: file.hunks[0], offset: 0 };
    viewport.addEventListener("keydown", (event) => this.pressed(event));
    viewport.addEventListener("focusin", (event) => this.focused(event.target));
    new ResizeObserver(() => this.layOut()).observe(viewport);
    this.layOut();
  }

  /** Gives each row as many bytes as fit, and each hunk its rows: a heading, and those of its bytes. */
  layOut() {
    const probe = this.viewport.appendChild(element("span", "probe", "0".repeat(100)));
    const letters = (this.viewport.clientWidth - 2 * probe.offsetLeft) / (probe.getBoundingClientRect().width / 100);
    probe.remove();
    const columns = COLUMNS.find((it) => lettersOf(it) <= letters) ?? COLUMNS.at(-1);
    if (columns === this.columns) {
      return;
    }
    const seen = this.columns && this.firstPlace();
    this.columns = columns;
    this.viewport.dataset.columns = columns;
    let rows = 0;
    for (const hunk of this.file.hunks) {
      hunk.firstRow = rows;
      rows += 1 + Math.ceil(hunk.size / columns);
    }
    this.keepCursor();
    this.scroller.reset(rows);
    if (seen) {
      this.scroller.moveTo(this.rowOf(seen) * this.scroller.rowHeight);
    }
  }

  hunkOfRow(index) {
    return this.file.hunks[lastUpTo(this.file.hunks, index, "firstRow")];
  }

  /** The row of a place. One outside its hunk is told by the heading. */
  rowOf({ hunk, offset }) {
    return hunk.firstRow + (offset < hunk.size ? 1 + Math.floor(offset / this.columns) : 0);
  }

  /** The first place that is seen. */
  firstPlace() {
    const row = this.scroller.firstSeen;
    const hunk = this.hunkOfRow(row);
    return hunk && { hunk, offset: Math.max(0, row - hunk.firstRow - 1) * this.columns };
  }

  // ---- drawing

  drawRow(index) {
    const hunk = this.hunkOfRow(index);
    if (index === hunk.firstRow) {
      return this.drawHeading(hunk);
    }
    const start = (index - hunk.firstRow - 1) * this.columns;
    const end = Math.min(start + this.columns, hunk.size);
    const row = element("div", "row");
    const bytes = element("span", "bytes");
    bytes.style.width = `${hexLetters(this.columns)}ch`;
    const cuts = this.cuts(hunk, start, end);
    cuts.slice(1).forEach((to, index) => {
      bytes.append(this.drawRun(hunk, cuts[index], to), to < end ? gapAfter(to - 1) : "");
    });
    row.append(element("span", "offset", hex(start)), bytes, this.drawText(hunk, start, end));
    row.append(this.drawLabels(hunk, start, end));
    return row;
  }

  drawHeading(hunk) {
    const row = element("div", `row heading ${hunk.kind}`);
    const isCursor = this.cursor.hunk === hunk && this.cursor.offset >= hunk.size;
    const title = row.appendChild(element("h3", isCursor ? "here" : "", hunk.title));
    if (isCursor) {
      title.tabIndex = 0;
    }
    const notes = [hunk.kind, hunk.memory, counted(hunk.size, "byte")];
    if (hunk.stored < hunk.size) {
      notes.push(`${hunk.stored.toLocaleString("en")} stored`);
    }
    if (hunk.contentOffset !== undefined && hunk.stored > 0) {
      notes.push(`at ${hex(hunk.contentOffset)} of the file`);
    }
    if (hunk.debugs.length > 0) {
      notes.push(counted(hunk.debugs.length, "debug block"));
    }
    row.append(element("span", "name", hunk.name), element("span", "notes", notes.join(" · ")));
    return row;
  }

  /** The offsets at which the bytes of a row begin to be drawn in another way, and its end. */
  cuts(hunk, start, end) {
    const cuts = [start, end, hunk.stored];
    const sites = lastUpTo(hunk.sites, start - 4) + 1;
    for (let index = sites; index < hunk.sites.length && hunk.sites[index].offset < end; index += 1) {
      cuts.push(hunk.sites[index].offset, hunk.sites[index].offset + 4);
    }
    const places = this.labelsOf(hunk, start, end).map((label) => label.offset);
    cuts.push(...places.filter((offset) => !hunk.siteWith(offset)));
    if (this.cursor.hunk === hunk && !hunk.siteWith(this.cursor.offset)) {
      cuts.push(this.cursor.offset, this.cursor.offset + 1);
    }
    const inside = cuts.filter((offset) => offset >= start && offset <= end);
    return [...new Set(inside)].sort((one, other) => one - other);
  }

  labelsOf(hunk, start, end) {
    const first = lastUpTo(hunk.labels, start - 1) + 1;
    return hunk.labels.slice(first, first + MOST_LABELS).filter((label) => label.offset < end);
  }

  /** Bytes that are drawn in one way: those of a site as a link to what it points at. */
  drawRun(hunk, from, to) {
    const site = hunk.siteWith(from);
    const run = element(site ? "a" : "span", "run", hexOf(hunk, from, to));
    run.classList.toggle("zeros", from >= hunk.stored);
    run.classList.toggle("named", hunk.labels[lastUpTo(hunk.labels, from)]?.offset === from);
    if (site !== undefined) {
      this.drawSite(run, hunk, site, from);
    }
    if (this.cursor.hunk === hunk && this.cursor.offset === from) {
      run.classList.add("here");
      run.tabIndex = 0;
    }
    return run;
  }

  drawSite(link, hunk, site, from) {
    const target = this.file.target(hunk, site);
    link.classList.add("site", site.hunk === undefined ? "adds-name" : "adds-hunk");
    link.dataset.hunk = hunk.index;
    link.dataset.offset = site.offset;
    link.tabIndex = -1;
    if (target.hunk !== undefined) {
      link.href = addressOf(target.hunk, target.offset);
    }
    if (from === site.offset) {
      link.setAttribute("aria-label", `site ${hex(site.offset)}, adds ${addedBy(site)}`);
      link.setAttribute("aria-describedby", "detail");
    } else {
      link.classList.add("rest");
    }
  }

  drawText(hunk, start, end) {
    const stored = between(start, hunk.stored, end);
    const text = element("span", "ascii", asciiOf(hunk, start, stored));
    text.setAttribute("aria-hidden", "true");
    text.append(element("span", "zeros", asciiOf(hunk, stored, end)));
    text.style.width = `${this.columns}ch`;
    return text;
  }

  drawLabels(hunk, start, end) {
    const names = element("span", "labels");
    names.append(...this.labelsOf(hunk, start, end).map((label) => element("bdi", "name", spelled(label.name))));
    return names;
  }

  // ---- the cursor

  keepCursor() {
    this.scroller.kept = this.cursor.hunk ? this.rowOf(this.cursor) : -1;
  }

  setCursor(place) {
    const before = this.scroller.kept;
    this.cursor = place;
    this.keepCursor();
    this.scroller.redraw(before);
    this.scroller.redraw(this.scroller.kept);
  }

  /** Goes to a place, or to the site that it lies in, and gives it the focus. */
  go({ hunk, offset }) {
    this.setCursor({ hunk, offset: hunk.siteWith(offset)?.offset ?? offset });
    this.scroller.reveal(this.scroller.kept);
    this.scroller.rows.get(this.scroller.kept)?.querySelector(".here")?.focus({ preventScroll: true });
  }

  /** What has got the focus, by a click as well, is where the arrow keys start from. */
  focused(link) {
    const site = this.siteOf(link);
    if (site && (site.hunk !== this.cursor.hunk || site.offset !== this.cursor.offset) && !link.classList.contains("here")) {
      this.viewport.querySelectorAll(".here").forEach((it) => {
        it.classList.remove("here");
        it.tabIndex = -1;
      });
      this.cursor = { hunk: site.hunk, offset: site.offset };
      this.keepCursor();
      link.classList.add("here");
      link.tabIndex = 0;
    }
  }

  /** The site that a link stands for, with its hunk. */
  siteOf(link) {
    const hunk = this.file.hunks[link?.dataset?.hunk];
    return hunk && { hunk, offset: Number(link.dataset.offset), site: hunk.siteWith(Number(link.dataset.offset)) };
  }

  pressed(event) {
    const { hunk, offset } = this.cursor;
    const searches = {
      ArrowRight: () => this.file.siteFrom(hunk.index, offset + 1),
      ArrowLeft: () => this.file.siteUpTo(hunk.index, offset - 1),
      ArrowDown: () => this.file.siteFrom(hunk.index, offset + this.columns),
      ArrowUp: () => this.file.siteUpTo(hunk.index, offset - this.columns),
    };
    const search = event.altKey || event.ctrlKey || event.metaKey || !hunk ? undefined : searches[event.key];
    const place = search?.();
    if (place !== undefined) {
      event.preventDefault();
      this.go(place);
    }
  }
}
// The table of names: symbols, definitions and references, which a filter makes shorter.
// A part of the page that `page/make.sh` makes: change it here, and run that.

/** All names of a file, in its order, with what they are and where. */
function namesOf(file) {
  const names = [];
  for (const hunk of file.hunks) {
    for (const { name, value, absolute } of hunk.definitions) {
      names.push({ name: spelled(name), what: absolute ? "number" : "definition", hunk, offset: value });
    }
    for (const { name, value } of hunk.symbols) {
      names.push({ name: spelled(name), what: "symbol", hunk, offset: value });
    }
    for (const { name, offset } of hunk.sites) {
      if (name !== undefined) {
        names.push({ name: spelled(name), what: "reference", hunk, offset });
      }
    }
  }
  return names;
}

class Names {
  constructor(file, { viewport, filter, count }) {
    Object.assign(this, { filter, count });
    this.all = namesOf(file);
    this.found = this.all;
    this.list = new LinkList(viewport, (row) => this.drawRow(row));
    filter.addEventListener("input", () => this.find());
    filter.addEventListener("keydown", (event) => this.pressed(event));
    this.find();
  }

  /** Keeps the names that have the filter's text, in any case. */
  find() {
    const wanted = this.filter.value.toLowerCase();
    this.found = wanted === "" ? this.all : this.all.filter((it) => it.name.toLowerCase().includes(wanted));
    const all = counted(this.all.length, "name");
    const some = `${this.found.length.toLocaleString("en")} of ${all}`;
    this.count.textContent = this.all.length === 0 ? "none in this file" : wanted === "" ? all : some;
    this.list.viewport.parentElement.setAttribute("aria-rowcount", this.found.length + 1);
    this.list.kept = 0;
    this.list.position = 0;
    this.list.reset(this.found.length);
  }

  drawRow(index) {
    const { name, what, hunk, offset } = this.found[index];
    const link = element("a", "name", name || "(empty)");
    link.classList.toggle("empty", name === "");
    link.href = addressOf(hunk, what === "number" ? hunk.size : offset);
    const place = what === "number" ? hex(offset) : `${hunk.title} + ${hex(offset)}`;
    const row = element("div", "row");
    row.setAttribute("role", "row");
    row.setAttribute("aria-rowindex", index + 2);
    const cells = [link, element("span", `what ${what}`, what), element("span", "place", place)].map((content) => {
      const cell = element("span", "cell");
      cell.setAttribute("role", "cell");
      cell.append(content);
      return cell;
    });
    row.append(...cells);
    return row;
  }

  pressed(event) {
    if (event.key === "Escape") {
      this.filter.value = "";
      this.find();
    } else if (event.key === "ArrowDown" && this.found.length > 0) {
      event.preventDefault();
      this.list.focus(0);
    } else if (event.key === "Enter" && this.found.length > 0) {
      this.list.rows.get(0).querySelector("a").click();
    }
  }
}
// The page: what is told of a site, how one goes to a place, and the keys that work everywhere.
// A part of the page that `page/make.sh` makes: change it here, and run that.

const byId = (id) => document.getElementById(id);

/** A place in words, with the name there or before. */
function placeInWords({ hunk, offset }) {
  if (offset >= 2 ** 31) {
    return `${hunk.title} − ${hex(2 ** 32 - offset)}, before it`;
  }
  if (offset >= hunk.size) {
    return offset === hunk.size ? `the end of ${hunk.title}` : `${hunk.title} + ${hex(offset)}, past its end`;
  }
  const nearest = hunk.nearest(offset);
  return `${hunk.title} + ${hex(offset)}${nearest ? `, ${nearest}` : ""}`;
}

/** The page over a file. */
class Page {
  constructor(file) {
    this.file = file;
    this.writeSummary();
    this.hunks = new Hunks(file, byId("hunks"));
    this.names = new Names(file, { viewport: byId("names"), filter: byId("filter"), count: byId("names-count") });
    this.bytes = new Bytes(file, byId("bytes"));
    this.bytes.scroller.drawn = () => this.followBytes();
    this.followBytes();
    this.tell(undefined);
    this.listen();
    this.follow();
  }

  writeSummary() {
    const { isObject, units, hunks } = this.file;
    const total = (of) => hunks.reduce((sum, hunk) => sum + of(hunk), 0);
    const parts = [counted(hunks.length, "hunk"), counted(total((it) => it.size), "byte"), counted(total((it) => it.sites.length), "site")];
    byId("summary").textContent = [...(isObject ? [counted(units.length, "unit")] : []), ...parts].join(" · ");
    byId("title").textContent = isObject ? "Object file" : "Load file";
    document.title = `${byId("title").textContent}, ${parts[0]}`;
  }

  listen() {
    const bytes = this.bytes.viewport;
    bytes.addEventListener("pointerover", (event) => this.hovered(event));
    bytes.addEventListener("pointerleave", () => this.tell(undefined));
    bytes.addEventListener("focusin", (event) => this.tell(this.bytes.siteOf(event.target)));
    addEventListener("hashchange", () => this.follow());
    addEventListener("click", (event) => this.clicked(event.target.closest?.("a[href]")));
    addEventListener("keydown", (event) => {
      if (event.key === "/" && document.activeElement !== byId("filter")) {
        event.preventDefault();
        byId("filter").select();
      }
    });
  }

  /** Tells of what the pointer has been moved to, and not of what was scrolled below it, perhaps by a key. */
  hovered(event) {
    const place = `${event.screenX} ${event.screenY}`;
    if (place !== this.pointer) {
      this.pointer = place;
      this.tell(this.bytes.siteOf(event.target));
    }
  }

  /** Lets the browser's way back lead to the site that one has left. A link to where one is does nothing in a browser. */
  clicked(link) {
    if (!link) {
      return;
    }
    const site = this.bytes.siteOf(link);
    if (site) {
      history.replaceState(null, "", addressOf(site.hunk, site.offset));
    }
    if (link.hash === location.hash) {
      this.follow();
    }
  }

  /** Goes to the place that the page's address tells. */
  follow() {
    const [, index, digits] = /^#(\d+):([0-9a-f]{8})$/.exec(location.hash) ?? [];
    const hunk = this.file.hunks[index];
    if (hunk) {
      this.bytes.go({ hunk, offset: parseInt(digits, 16) });
      this.tell(undefined);
    }
  }

  /** Tells which hunk is looked at. */
  followBytes() {
    const hunk = this.bytes.firstPlace()?.hunk;
    byId("where").textContent = hunk ? `${hunk.title}${hunk.name && ` ${hunk.name}`}` : "none in this file";
    this.hunks.setCurrent(hunk);
  }

  /** Tells of a site, or else of that at the cursor. */
  tell(told) {
    const { hunk, offset, site } = told ?? { ...this.bytes.cursor, site: this.bytes.cursor.hunk?.siteWith(this.bytes.cursor.offset) };
    byId("detail").classList.toggle("is-site", site !== undefined);
    const target = site && this.file.target(hunk, site);
    this.hunks.setTarget(told && target?.hunk);
    const at = hunk && (site?.offset ?? offset);
    byId("detail-place").textContent = hunk ? placeInWords({ hunk, offset: at }) : "–";
    byId("detail-adds").textContent = site ? addedBy(site) : "nothing: this is no site";
    byId("detail-longword").textContent = hunk && at + 4 <= hunk.size ? hex(hunk.longword(at)) : "–";
    byId("detail-target").textContent = target ? target.nowhere ?? placeInWords(target) : "–";
    const isStored = hunk && hunk.contentOffset !== undefined && at < hunk.stored;
    byId("detail-file").textContent = isStored ? hex(hunk.contentOffset + at) : hunk ? "not stored" : "–";
  }
}

new Page(new HunkFile(JSON.parse(byId("document").textContent)));
</script>
</body>
</html>
"#;
