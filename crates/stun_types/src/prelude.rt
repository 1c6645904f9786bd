//! The traits that a caller of this crate needs in scope.

pub use stun_types_add::ext::MessageWriteExt;
pub use stun_types_write::attribute::{
    Attribute, AttributeFromRaw, AttributeStaticType, AttributeWrite,
};
pub use stun_types_write::writer::MessageWrite;
