//! The families of the addresses that a client requests.

ghost use Rattle.std.specs.Prelude.{◌≡◌, ◌≢◌, [], ◌∷◌};
ghost use Rattle.std.specs.List.{IsDistinct, list_any};
ghost use Rattle.turn_client_proto_api.specs.Families.{is_same_family, with_family};

use std::marker::Model;
use stun_types_base::family::AddressFamily;

/// The requested families, in order.
#[derive(Clone, Copy, Debug, PartialEq, Eq)]
enum FamilyOrder {
    OnlyV4,
    OnlyV6,
    V4First,
    V6First,
}

/// Address families, in order: at least one, and no duplicates. In contracts it is the list of
/// them.
#[derive(Clone, Copy, Debug, PartialEq, Eq)]
pub struct RequestedFamilies {
    order: FamilyOrder,
}

impl Model for RequestedFamilies {
    ghost use Rattle.std.specs.Prelude.{List};
    ghost use Rattle.stun_types_base.specs.declared.family.AddressFamily.{AddressFamily};

    ghost Value = { List AddressFamily };

    ghost use Rattle.turn_client_proto_api.specs.FamilyOrders.{families_in, family_order_of, family_order_of-families_in};

    ghost view = { λ s. families_in s.order };

    ghost inverse = { λ families. record { order = family_order_of families } };

    ghost inverse_ok = { λ s _ i. record { order = family_order_of-families_in s.order i } };
}

impl RequestedFamilies {
    /// Returns this family alone.
    pub fn only(family: AddressFamily) -> Self
        ensures { result ≡ family ∷ [] }
    {
        let order = match family {
            AddressFamily::IPV4 => FamilyOrder::OnlyV4,
            AddressFamily::IPV6 => FamilyOrder::OnlyV6,
        };
        RequestedFamilies { order }
    }

    /// Returns these families with another one added last. One that is there already changes
    /// nothing.
    pub fn with(self, family: AddressFamily) -> Self
        ensures { result ≡ with_family self family }
    {
        let order = match (self.order, family) {
            (FamilyOrder::OnlyV4, AddressFamily::IPV6) => FamilyOrder::V4First,
            (FamilyOrder::OnlyV6, AddressFamily::IPV4) => FamilyOrder::V6First,
            (order, _) => order,
        };
        RequestedFamilies { order }
    }

    /// Returns the families in order: at least one, and no duplicates.
    pub fn as_slice(&self) -> &[AddressFamily]
        ensures value { result.now ≡ self.now }
        ensures never_empty { result.now ≢ [] }
        ensures distinct { IsDistinct is_same_family result.now }
    {
        match self.order {
            FamilyOrder::OnlyV4 => &[AddressFamily::IPV4],
            FamilyOrder::OnlyV6 => &[AddressFamily::IPV6],
            FamilyOrder::V4First => &[AddressFamily::IPV4, AddressFamily::IPV6],
            FamilyOrder::V6First => &[AddressFamily::IPV6, AddressFamily::IPV4],
        }
    }

    /// Returns whether this family is among them.
    pub fn contains(&self, family: AddressFamily) -> bool
        ensures { result ≡ list_any (is_same_family family) self.now }
    {
        match (self.order, family) {
            (FamilyOrder::OnlyV4, AddressFamily::IPV6) => false,
            (FamilyOrder::OnlyV6, AddressFamily::IPV4) => false,
            _ => true,
        }
    }
}
