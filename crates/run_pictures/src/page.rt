//! A page around a picture, in one file: it shows the state after the command that is pointed at.
use crate::axis::Scale;
use crate::data::push_data;
use crate::drawing::Drawing;
use crate::failure::Failure;
use crate::folded::folded_scale;
use crate::picture::{is_folded, picture};
use crate::story::Story;
use std::alloc::Global;

/// The page of a run, as the text of an HTML file that needs no other.
pub(crate) fn page(alloc: Global, story: &Story) -> Result<String, Failure> {
    let mut page = Drawing::new(alloc);
    page.text(HEAD);
    let drawn = picture(alloc, story)?;
    page.text(drawn.as_str());
    page.text(MIDDLE);
    push_data(&mut page, story);
    let (scale, group) = if is_folded(story) {
        folded_scale(story)
    } else {
        (Scale::new(story.commands.len()), 1)
    };
    let Scale { left, step, .. } = scale;
    page.text(";\nconst");
    push_constant(&mut page, " left", left);
    push_constant(&mut page, ", step", step);
    push_constant(&mut page, ", group", group);
    page.text(";\n");
    page.text(SCRIPT);
    page.finish()
}

fn push_constant(page: &mut Drawing, name: &str, value: usize) {
    page.text(name);
    page.counted(" = ", value, "");
}

const HEAD: &str =
    "<!DOCTYPE html>\n<html lang=\"en\"><head><meta charset=\"utf-8\"><title>A run of iox2_pubsub</title>\n<style>\n\
body { margin: 0; font-family: 'DejaVu Sans', Verdana, sans-serif; font-size: 13px; color: #000; background: #fff }\n\
#bar { position: sticky; top: 0; z-index: 1; background: #fff; border-bottom: 1px solid #999; padding: 6px 10px }\n\
#slider { width: 100%; margin: 4px 0 }\n\
#now { font-weight: bold }\n\
#frame { overflow-x: auto }\n\
#state { padding: 6px 10px; columns: 30em; column-gap: 2em }\n\
#state h2 { font-size: 13px; margin: 0 0 2px 0 }\n\
#state div { break-inside: avoid; margin-bottom: 8px }\n\
#state p { margin: 0 0 1px 1em }\n\
.hint { color: #444 }\n\
button, input { font-size: 13px }\n\
</style></head><body>\n\
<div id=\"bar\"><button id=\"back\">&lt;</button> <button id=\"on\">&gt;</button> \
<span id=\"now\"></span> <span class=\"hint\">slots in use: <span id=\"slots\"></span>, waiting: <span id=\"waiting\"></span></span>\
<input id=\"slider\" type=\"range\" min=\"0\" value=\"0\" aria-label=\"command\"></div>\n\
<div id=\"frame\">\n";

const MIDDLE: &str = "</div>\n<div id=\"state\"></div>\n<script>\nconst run = ";

const SCRIPT: &str = "\
const svg = document.querySelector('#frame svg'), slider = document.getElementById('slider');\n\
const cursor = document.createElementNS('http://www.w3.org/2000/svg', 'rect');\n\
cursor.setAttribute('y', 0); cursor.setAttribute('height', svg.getAttribute('height'));\n\
cursor.setAttribute('width', Math.max(step, 3)); cursor.setAttribute('fill', '#F0E442');\n\
cursor.setAttribute('fill-opacity', 0.35); cursor.setAttribute('pointer-events', 'none');\n\
svg.appendChild(cursor);\n\
slider.max = Math.max(run.commands.length - 1, 0);\n\
function message(n) { const v = run.values[n]; return '#' + n + (v && v[1] ? ' = ' + v[0] + (v[1] > 1 ? ' ..' : '') : ''); }\n\
function at(from, to, t) { return from <= t && (to === null || t < to); }\n\
function add(parent, kind, text) { const e = document.createElement(kind); e.textContent = text; parent.appendChild(e); return e; }\n\
function list(all) { return all.length > 40 ? all.slice(0, 40).join(', ') + ' and ' + (all.length - 40) + ' more' : all.join(', '); }\n\
function showPublisher(div, id, t) {\n\
  const lent = run.loans.filter(l => l[1] === id && at(l[2], l[4], t));\n\
  const free = lent.filter(l => l[3] === null || t < l[3]), blocked = lent.filter(l => l[3] !== null && l[3] <= t);\n\
  if (free.length) add(div, 'p', 'lent: ' + list(free.map(l => message(l[0]))));\n\
  if (blocked.length) add(div, 'p', 'send blocked: ' + list(blocked.map(l => message(l[0]))));\n\
}\n\
function showSubscriber(div, id, t) {\n\
  const there = run.visits.filter(v => v[2] === id && at(v[3], v[5], t));\n\
  const waits = there.filter(v => v[4] === null || t < v[4]), held = there.filter(v => v[4] !== null && v[4] <= t);\n\
  const name = v => message(v[0]) + ' of publisher ' + v[1] + (v[6] ? ' in channel ' + v[6] : '');\n\
  if (waits.length) add(div, 'p', 'wait: ' + list(waits.map(name)));\n\
  if (held.length) add(div, 'p', 'received: ' + list(held.map(name)));\n\
}\n\
function show(t) {\n\
  t = Math.max(0, Math.min(t, run.commands.length - 1));\n\
  slider.value = t;\n\
  cursor.setAttribute('x', left + Math.floor(t / group) * step);\n\
  const named = run.commands[t] === undefined ? 'no command' : (t + 1) + ': ' + run.commands[t] + ' = ' + run.replies[t];\n\
  document.getElementById('now').textContent = named;\n\
  const point = run.points[t] || [0, 0];\n\
  document.getElementById('slots').textContent = point[0];\n\
  document.getElementById('waiting').textContent = point[1];\n\
  const state = document.getElementById('state');\n\
  state.textContent = '';\n\
  for (const p of run.ports) {\n\
    const open = at(p[2], p[3], t);\n\
    const div = document.createElement('div');\n\
    add(div, 'h2', (p[1] ? 'publisher ' : 'subscriber ') + p[0] + (open ? '' : ', closed'));\n\
    if (p[1]) showPublisher(div, p[0], t); else showSubscriber(div, p[0], t);\n\
    if (open || (p[2] <= t && div.children.length > 1)) state.appendChild(div);\n\
  }\n\
}\n\
slider.addEventListener('input', () => show(Number(slider.value)));\n\
document.getElementById('back').addEventListener('click', () => show(Number(slider.value) - 1));\n\
document.getElementById('on').addEventListener('click', () => show(Number(slider.value) + 1));\n\
svg.addEventListener('mousemove', e => {\n\
  const x = e.clientX - svg.getBoundingClientRect().left - left;\n\
  if (x >= 0) show(Math.floor(x / step) * group);\n\
});\n\
const asked = new URLSearchParams(location.hash.slice(1)).get('command');\n\
show(asked === null ? run.commands.length - 1 : Number(asked) - 1);\n\
</script></body></html>\n";
