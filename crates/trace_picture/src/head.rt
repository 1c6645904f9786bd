//! The beginning of a picture.

use std::alloc::{AllocError, Global};

/// The beginning of a picture. Its height goes between each two of these texts.
const PARTS: [&str; 6] = [
    "<svg xmlns=\"http://www.w3.org/2000/svg\" width=\"880\" viewBox=\"0 0 880 ",
    "\" font-family=\"system-ui, 'Segoe UI', Helvetica, Arial, sans-serif\" font-size=\"12\">
<style>
.p { fill: #fff } .b { fill: #eaeef2 } text { fill: #1f2328; white-space: pre }
.d { fill: #57606a; font-size: 11px }
.e { text-anchor: end } .m { text-anchor: middle } .w { font-weight: 600 }
path { fill: none; stroke: #1f2328 } .l { stroke: #8c959f; stroke-width: 2 }
.a { marker-end: url(#tip) } .c { stroke: #8c959f; marker-end: url(#tip) }
.x { stroke: #cf222e; stroke-dasharray: 6 4; marker-end: url(#end) }
.t { fill: #57606a; stroke: none } .g { stroke: #cf222e; stroke-width: 2 }
@media (prefers-color-scheme: dark) {
.p { fill: #0d1117 } .b { fill: #21262d } text { fill: #e6edf3 } .d { fill: #9198a1 }
path { stroke: #e6edf3 } .l { stroke: #6e7681 } .c { stroke: #6e7681 } .x { stroke: #f85149 }
.t { fill: #9198a1; stroke: none } .g { stroke: #f85149 }
}
</style>
<defs>
<marker id=\"tip\" viewBox=\"0 0 8 8\" refX=\"8\" refY=\"4\" markerWidth=\"8\" markerHeight=\"8\"
orient=\"auto\">
<path class=\"t\" d=\"M 0 0 L 8 4 L 0 8 z\"/></marker>
<marker id=\"end\" viewBox=\"-5 -5 10 10\" markerWidth=\"10\" markerHeight=\"10\">
<path class=\"g\" d=\"M -4 -4 L 4 4 M -4 4 L 4 -4\"/></marker>
</defs>
<rect class=\"p\" width=\"880\" height=\"",
    "\"/>
<rect class=\"b\" x=\"560\" y=\"32\" width=\"36\" height=\"",
    "\"/>
<text class=\"m d\" x=\"578\" y=\"22\">network</text>
<path class=\"l\" d=\"M 320 32 V ",
    "\"/>
<path class=\"l\" d=\"M 836 32 V ",
    "\"/>\n",
];

/// Returns the beginning of a picture with this height in pixels: the styles for light and dark,
/// the two lifelines, and the network between them.
pub(crate) fn head(alloc: Global, height: usize) -> Result<String, AllocError> {
    let mut svg = String::new(alloc);
    push_front(&mut svg, height)?;
    Ok(svg)
}

/// Appends the parts of the beginning, with the height between each two.
fn push_front(svg: &mut String, height: usize) -> Result<(), AllocError> {
    let mut is_first = true;
    for part in PARTS.iter() {
        if !is_first {
            write!(svg, "{height}")?;
        }
        is_first = false;
        svg.push_str(part)?;
    }
    Ok(())
}
