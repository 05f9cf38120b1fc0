//! Shapes and texts of a picture.
use crate::drawing::Drawing;

/// A box: its left upper corner, its width and its height.
#[derive(Clone, Copy)]
pub(crate) struct Place {
    pub(crate) x: usize,
    pub(crate) y: usize,
    pub(crate) width: usize,
    pub(crate) height: usize,
}

/// A rectangle of a class and a color, which says something when it is pointed at.
pub(crate) fn rect(svg: &mut Drawing, place: Place, class: &str, color: &str, said: &str) {
    svg.text("<rect");
    svg.word("class", class);
    svg.attribute("x", place.x);
    svg.attribute("y", place.y);
    svg.attribute("width", place.width);
    svg.attribute("height", place.height);
    svg.word("fill", color);
    if said.is_empty() {
        svg.text("/>\n");
        return;
    }
    svg.text("><title>");
    svg.escaped(said);
    svg.text("</title></rect>\n");
}

/// A line of a class and a color.
pub(crate) fn line(
    svg: &mut Drawing,
    from: (usize, usize),
    to: (usize, usize),
    class: &str,
    color: &str,
) {
    let ((x1, y1), (x2, y2)) = (from, to);
    svg.text("<line");
    svg.word("class", class);
    svg.attribute("x1", x1);
    svg.attribute("y1", y1);
    svg.attribute("x2", x2);
    svg.attribute("y2", y2);
    svg.word("stroke", color);
    svg.text("/>\n");
}

/// A text of a class whose line begins there.
pub(crate) fn label(svg: &mut Drawing, x: usize, y: usize, class: &str, text: &str) {
    begin_label(svg, x, y, class);
    svg.escaped(text);
    end_label(svg)
}

/// Begins such a text.
pub(crate) fn begin_label(svg: &mut Drawing, x: usize, y: usize, class: &str) {
    svg.text("<text");
    svg.word("class", class);
    svg.attribute("x", x);
    svg.attribute("y", y);
    svg.text(">");
}

/// Ends it.
pub(crate) fn end_label(svg: &mut Drawing) {
    svg.text("</text>\n");
}

/// A path whose beginning is moved there, up to its paint.
pub(crate) fn begin_path(svg: &mut Drawing, x: usize, y: usize, path: &str) {
    svg.text("<path");
    svg.moved(x, y);
    svg.text("\"");
    svg.word("d", path)
}

/// The color of a publisher's messages. The five are told apart by the colour-blind too.
pub(crate) fn color_of(publisher: usize) -> &'static str {
    match publisher % 5 {
        0 => "#0072B2",
        1 => "#E69F00",
        2 => "#009E73",
        3 => "#CC79A7",
        _ => "#56B4E9",
    }
}

/// What all pictures begin with.
pub(crate) fn push_head(svg: &mut Drawing, width: usize, height: usize) {
    svg.text(NAMESPACE);
    svg.attribute("width", width);
    svg.attribute("height", height);
    svg.counted(" viewBox=\"0 0 ", width, " ");
    svg.counted("", height, "\"");
    svg.text(FONTS);
    svg.text(STYLE);
    svg.text("<rect");
    svg.attribute("width", width);
    svg.attribute("height", height);
    svg.text(" fill=\"#ffffff\"/>\n");
}

const NAMESPACE: &str = "<svg xmlns=\"http://www.w3.org/2000/svg\"";

const FONTS: &str = " font-family=\"'DejaVu Sans', Verdana, sans-serif\">\n";

const STYLE: &str = "<style>\n\
text { font-size: 10px; fill: #000 }\n\
.title { font-size: 13px; font-weight: bold }\n\
.port { font-size: 11px; font-weight: bold }\n\
.small { font-size: 8px }\n\
.message, .small { paint-order: stroke; stroke: #fff; stroke-width: 2.4px; stroke-opacity: 0.75; stroke-linejoin: round }\n\
.note { fill: #444 }\n\
.refused { fill: #B03A00 }\n\
.number { text-anchor: middle; fill: #444; font-size: 9px }\n\
.lane { fill: #f4f4f4 }\n\
.life { fill: #e6e6e6 }\n\
.grid { stroke: #ddd }\n\
.waits { fill-opacity: 0.22; stroke-opacity: 0.9 }\n\
.held { fill-opacity: 0.8 }\n\
.lent { fill-opacity: 0.5 }\n\
.blocked { fill: url(#hatch); stroke: #D55E00 }\n\
.way { stroke-width: 1.3 }\n\
.late { stroke-width: 1.3; stroke-dasharray: 3 2 }\n\
.curve { fill: none; stroke-width: 1.6 }\n\
.dashed { fill: none; stroke-width: 1.6; stroke-dasharray: 5 3 }\n\
</style>\n\
<defs><pattern id=\"hatch\" width=\"6\" height=\"6\" patternUnits=\"userSpaceOnUse\" patternTransform=\"rotate(45)\">\
<rect width=\"6\" height=\"6\" fill=\"#fff\"/><rect width=\"2.5\" height=\"6\" fill=\"#D55E00\"/></pattern></defs>\n";
