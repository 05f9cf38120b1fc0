//! Slots in use and messages waiting, as curves.
use crate::axis::Scale;
use crate::canvas::{end_label, label, line};
use crate::drawing::Drawing;
use crate::story::{Point, Story};

/// How high the curves are.
pub(crate) const HEIGHT: usize = 70;

/// Draws both curves below a height.
pub(crate) fn push_curves(svg: &mut Drawing, story: &Story, scale: Scale, top: usize) {
    let bottom = top.saturating_add(HEIGHT);
    let most = greatest(story);
    line(
        svg,
        (scale.left, bottom),
        (scale.right(), bottom),
        "axis",
        "#000",
    );
    line(svg, (scale.left, top), (scale.right(), top), "grid", "#ddd");
    push_name(svg, top.saturating_add(16), false, "slots in use");
    push_name(svg, top.saturating_add(44), true, "messages waiting");
    push_limit(svg, scale.left, top.saturating_add(9), most);
    push_limit(svg, scale.left, bottom, 0);
    push_curve(svg, story, scale, bottom, most, false);
    push_curve(svg, story, scale, bottom, most, true)
}

// The name of a curve, with a piece of it below.
fn push_name(svg: &mut Drawing, y: usize, is_waiting: bool, name: &str) {
    let (class, color) = paint_of(is_waiting);
    label(svg, 6, y, "name", name);
    let below = y.saturating_add(6);
    line(svg, (6, below), (46, below), class, color)
}

// The class and the color of a curve.
fn paint_of(is_waiting: bool) -> (&'static str, &'static str) {
    if is_waiting {
        ("dashed", "#D55E00")
    } else {
        ("curve", "#0072B2")
    }
}

fn push_limit(svg: &mut Drawing, x: usize, y: usize, number: usize) {
    let x = x.saturating_sub(4);
    svg.text("<text class=\"small\" text-anchor=\"end\"");
    svg.attribute("x", x);
    svg.attribute("y", y);
    svg.counted(">", number, "");
    end_label(svg)
}

fn greatest(story: &Story) -> usize {
    let mut most = 1usize;
    for point in story.points.iter() {
        most = most.max(point.slots).max(point.waiting);
    }
    most
}

fn push_curve(
    svg: &mut Drawing,
    story: &Story,
    scale: Scale,
    bottom: usize,
    most: usize,
    is_waiting: bool,
) {
    let (class, color) = paint_of(is_waiting);
    svg.text("<path");
    svg.word("class", class);
    svg.word("stroke", color);
    svg.text(" d=\"");
    svg.counted("M", scale.left, " ");
    svg.number(bottom);
    let count = story.points.len().max(1);
    let width = scale.right().saturating_sub(scale.left);
    let mut last = bottom;
    for (at, point) in story.points.iter().enumerate() {
        let value = value_of(*point, is_waiting);
        let up = value.saturating_mul(HEIGHT) / most.max(1);
        let y = bottom.saturating_sub(up);
        if y != last {
            let x = scale
                .left
                .saturating_add(at.saturating_mul(width) / count)
                .saturating_add(scale.step / 2);
            svg.counted("H", x, "");
            svg.counted("V", y, "");
            last = y;
        }
    }
    svg.counted("H", scale.right(), "");
    svg.text("\"/>\n");
}

fn value_of(point: Point, is_waiting: bool) -> usize {
    if is_waiting {
        point.waiting
    } else {
        point.slots
    }
}
