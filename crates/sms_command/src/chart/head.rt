//! The head of a chart, and its lifelines.

use crate::chart::places::{Places, TOP};
use crate::chart::shapes::{Point, Side, close_text, open_text, put_line, put_number, put_words};
use crate::chart::stores::count_lines;
use crate::run::Running;
use sms_page::Page;
use sms_script::Script;

/// How the chart looks: dark on white, so that shapes and not colours tell things apart.
const STYLE: &str = "\
<title>A run of phones and a service centre</title>
<style>
text { font: 12px ui-monospace, Menlo, Consolas, 'DejaVu Sans Mono', monospace; fill: #111; \
paint-order: stroke; stroke: #fff; stroke-width: 3px; }
text.name { font-weight: bold; font-size: 14px; }
text.told { font-weight: bold; }
text.down, text.again { fill: #444; }
text.number { fill: #666; }
line { stroke: #111; stroke-width: 1.4; }
line.life { stroke: #999; stroke-width: 1; }
line.down { stroke: #555; stroke-dasharray: 7 3; }
line.again { stroke: #111; stroke-dasharray: 2 3; }
line.cross { stroke: #b00; stroke-width: 2.4; }
line.gap { stroke: #999; stroke-dasharray: 2 4; }
rect { fill: #fff; }
circle { fill: #111; }
</style>
<defs><marker id=\"head\" viewBox=\"0 0 10 10\" refX=\"10\" refY=\"5\" markerWidth=\"8\" \
markerHeight=\"8\" orient=\"auto\"><path d=\"M0 0L10 5L0 10z\" fill=\"#111\"/></marker></defs>
";

/// Adds the name of a lifeline, and the line.
fn put_lifeline(page: &mut Page, places: &Places, x: u64, name: &str) {
    open_text(page, "name", Point { x, y: 28 }, Side::Middle);
    put_words(page, name, 20);
    close_text(page);
    let end = Point {
        x,
        y: places.bottom,
    };
    put_line(page, "life", Point { x, y: TOP - 12 }, end);
}

/// Adds the head of the chart, and the lifelines.
pub fn put_head(places: &Places, script: &Script, running: &Running, page: &mut Page) {
    let lines = count_lines(running);
    let height = places
        .bottom
        .saturating_add(40)
        .saturating_add(lines.saturating_mul(16));
    page.put(b"<svg xmlns=\"http://www.w3.org/2000/svg\"");
    put_number(page, "width", places.width());
    put_number(page, "height", height);
    page.put(b">\n");
    page.put(STYLE.as_bytes());
    page.put(b"<rect");
    put_number(page, "width", places.width());
    put_number(page, "height", height);
    page.put(b"/>\n");
    for phone in 0..running.phones() {
        put_lifeline(page, places, places.phone(phone), script.name(phone));
    }
    put_lifeline(page, places, places.centre(), "centre");
}
