//! Names that a program adds to those of RFC 8489.

use crate::line::Line;
use stun_types_wire::attribute::AttributeType;
use stun_types_wire::class::Method;
use stun_types_wire::names::Names;

/// `names KIND NUMBER NAME..`: adds each name to a method or an attribute type, as KIND is `method`
/// or `type`; the name `?` prints the name that it then has.
pub(crate) fn names(line: &mut Line<'_>) {
    let mut names = Names::new(line.alloc);
    for _ in 0..line.left() {
        if line.left() > 0 {
            name(line, &mut names);
        }
    }
}

/// Adds a name, or prints one.
fn name(line: &mut Line<'_>, names: &mut Names) {
    let (kind, number) = (line.word(), line.number());
    let (method, atype) = (Method::new(number.min(0x0FFF)), AttributeType::new(number));
    let is_method = kind == "method";
    let added = match line.word() {
        "ALLOC" => "ALLOC",
        "ALLOCATE" => "ALLOCATE",
        "OTHER" => "OTHER",
        "OWN" => "OWN",
        _ if is_method => return line.say(&method.name(names)),
        _ => return line.say(&atype.name(names)),
    };
    let done = if is_method {
        names.add_method(method, added)
    } else {
        names.add_attribute(atype, added)
    };
    line.is_bad = line.is_bad || done.is_err();
}
