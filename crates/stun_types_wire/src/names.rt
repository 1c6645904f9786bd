//! The names of methods and attribute types, for printing.

ghost use Rattle.std.specs.Prelude.{◌≡◌, OnOk, OnErr};
ghost use Rattle.std.specs.FinMap as map;
ghost use Rattle.stun_types_wire.specs.Names.{method_name, attribute_name, known_method};
ghost use Rattle.stun_types_wire.specs.Names.{known_attribute};

use crate::attribute::AttributeType;
use crate::class::Method;
use crate::registry;
use std::alloc::Global;
use std::collections::BTreeMap;
use std::marker::Model;
use stun_types_base::memory::NoMemory;

/// Names of methods and attribute types that a program adds to those of RFC 8489. Each method or
/// type has one name: the one added last. Contracts see the record `Named` of `specs/Names.antt`.
#[derive(Debug, Drop)]
pub struct Names {
    methods: BTreeMap<u16, &'static str>,
    attributes: BTreeMap<u16, &'static str>,
}

impl Model for Names {
    ghost use Rattle.stun_types_wire.specs.Names.{Named, named_code};

    ghost Value = { Named };

    ghost coded = { named_code };

    ghost use Rattle.stun_types_wire.specs.NamesView.{named_by};

    ghost view = { named_by };
}

impl Names {
    /// Makes a table without added names. It stores the allocator, and allocates nothing until a
    /// name is added.
    pub fn new(alloc: Global) -> Names
        ensures { result ≡ record { methods = map.empty; attributes = map.empty } }
    {
        Names {
            methods: BTreeMap::new(alloc),
            attributes: BTreeMap::new(alloc),
        }
    }

    /// Names a method, and replaces the name that it has. Fails only with `NoMemory`, if an
    /// allocation fails; nothing changes then.
    pub fn add_method(&mut self, method: Method, name: &'static str) -> Result<(), NoMemory>
        ensures ok { OnOk result
            (self.new ≡ record self.old {
              methods = map.insert self.old.methods method.0 name.now;
            }) }
        ensures err { OnErr result (self.new ≡ self.old) }
    {
        self.methods.insert(method.0, name)?;
        Ok(())
    }

    /// Names an attribute type, and replaces the name that it has. Fails only with `NoMemory`, if
    /// an allocation fails; nothing changes then.
    pub fn add_attribute(
        &mut self,
        atype: AttributeType,
        name: &'static str,
    ) -> Result<(), NoMemory>
        ensures ok { OnOk result
            (self.new ≡ record self.old {
              attributes = map.insert self.old.attributes atype.0 name.now;
            }) }
        ensures err { OnErr result (self.new ≡ self.old) }
    {
        self.attributes.insert(atype.0, name)?;
        Ok(())
    }
}

impl Method {
    /// Returns the name that was added last for the method. Without one, returns `BINDING` for
    /// BINDING and `unknown` for any other method.
    pub fn name(self, names: &Names) -> &'static str
        ensures { result.now ≡ method_name names.now self.0 }
    {
        match names.methods.get(&self.0) {
            Some(name) => *name,
            None => known_method_name(self),
        }
    }
}

impl AttributeType {
    /// Returns the name that was added last for the type. Without one, returns:
    ///
    /// - the name in RFC 8489, for the types of that RFC that this library reads;
    /// - `MESSAGE-INTEGRITY-SHA512`, for that type;
    /// - `unknown`, for any other type.
    pub fn name(self, names: &Names) -> &'static str
        ensures { result.now ≡ attribute_name names.now self.0 }
    {
        match names.attributes.get(&self.0) {
            Some(name) => *name,
            None => known_attribute_name(self),
        }
    }
}

/// Returns the name of a method for which none was added.
fn known_method_name(method: Method) -> &'static str
    ensures { result.now ≡ known_method method.0 }
{
    match method {
        registry::BINDING => "BINDING",
        _ => "unknown",
    }
}

/// Returns the name of an attribute type for which none was added.
fn known_attribute_name(atype: AttributeType) -> &'static str
    ensures { result.now ≡ known_attribute atype.0 }
{
    match atype {
        registry::MAPPED_ADDRESS => "MAPPED-ADDRESS",
        registry::USERNAME => "USERNAME",
        registry::MESSAGE_INTEGRITY => "MESSAGE-INTEGRITY",
        registry::ERROR_CODE => "ERROR-CODE",
        registry::UNKNOWN_ATTRIBUTES => "UNKNOWN-ATTRIBUTES",
        registry::REALM => "REALM",
        registry::NONCE => "NONCE",
        registry::MESSAGE_INTEGRITY_SHA256 => "MESSAGE-INTEGRITY-SHA256",
        registry::MESSAGE_INTEGRITY_SHA512 => "MESSAGE-INTEGRITY-SHA512",
        registry::PASSWORD_ALGORITHM => "PASSWORD-ALGORITHM",
        registry::USERHASH => "USERHASH",
        registry::XOR_MAPPED_ADDRESS => "XOR-MAPPED-ADDRESS",
        registry::PASSWORD_ALGORITHMS => "PASSWORD-ALGORITHMS",
        registry::ALTERNATE_DOMAIN => "ALTERNATE-DOMAIN",
        registry::SOFTWARE => "SOFTWARE",
        registry::ALTERNATE_SERVER => "ALTERNATE-SERVER",
        registry::FINGERPRINT => "FINGERPRINT",
        _ => "unknown",
    }
}
