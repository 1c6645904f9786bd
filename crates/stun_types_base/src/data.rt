//! Bytes that are borrowed or owned.

ghost use Rattle.std.specs.Prelude.{◌≡◌, IfOk, Ok, true};
ghost use Rattle.std.specs.Box.{boxed_slice_items};
ghost use Rattle.stun_types_base.specs.Data.{data_bytes, is_owned};

use crate::memory::NoMemory;
use std::alloc::Global;
use std::boxed::BoxedSlice;
use std::convert::AsSlice;

/// Borrowed bytes.
#[derive(Clone, Copy, Debug, PartialEq, Eq)]
pub struct DataSlice<'a>(&'a [u8]);

impl<'a> DataSlice<'a> {
    /// Returns the bytes with the lifetime of their borrow.
    pub fn take(self) -> &'a [u8]
        ensures { result.now ≡ self.entry.0.now }
    {
        self.0
    }

    /// Returns the bytes.
    pub fn as_slice(&self) -> &[u8]
        ensures { result.now ≡ self.now.0.now }
    {
        self.0
    }

    /// Copies the bytes. Fails only with `NoMemory`, if an allocation fails.
    pub fn to_owned(&self, alloc: Global) -> Result<DataOwned, NoMemory>
        ensures { IfOk result (λ owned. boxed_slice_items owned.0 ≡ self.now.0.now) }
    {
        Ok(DataOwned(BoxedSlice::from_slice(alloc, self.0)?))
    }
}

/// Wraps borrowed bytes.
impl<'a> From<&'a [u8]> for DataSlice<'a> {
    ghost use Rattle.std.specs.Prelude.{◌≡◌};

    ghost from_gives = { λ bytes slice. slice.0.now ≡ bytes.now };

    fn from(value: &'a [u8]) -> DataSlice<'a> {
        DataSlice(value)
    }
}

/// Returns the bytes with the lifetime of their borrow.
impl<'a> From<DataSlice<'a>> for &'a [u8] {
    ghost use Rattle.std.specs.Prelude.{◌≡◌};

    ghost from_gives = { λ slice bytes. bytes.now ≡ slice.0.now };

    fn from(value: DataSlice<'a>) -> &'a [u8] {
        value.0
    }
}

/// Owned bytes.
#[derive(Debug, PartialEq, Eq, Drop)]
pub struct DataOwned(BoxedSlice<u8>);

impl DataOwned {
    /// Returns the box that holds the bytes.
    pub fn take(self) -> BoxedSlice<u8>
        ensures { result ≡ self.0 }
    {
        self.0
    }

    /// Returns the bytes.
    pub fn as_slice(&self) -> &[u8]
        ensures { result.now ≡ boxed_slice_items self.now.0 }
    {
        self.0.as_slice()
    }
}

/// Wraps the box without copying its bytes.
impl From<BoxedSlice<u8>> for DataOwned {
    ghost use Rattle.std.specs.Prelude.{◌≡◌};

    ghost from_gives = { λ bytes owned. owned.0 ≡ bytes };

    fn from(value: BoxedSlice<u8>) -> DataOwned {
        DataOwned(value)
    }
}

/// Returns the box that holds the bytes.
impl From<DataOwned> for BoxedSlice<u8> {
    ghost use Rattle.std.specs.Prelude.{◌≡◌};

    ghost from_gives = { λ owned bytes. bytes ≡ owned.0 };

    fn from(value: DataOwned) -> BoxedSlice<u8> {
        value.0
    }
}

/// Bytes that are borrowed or owned. A borrowed value never equals an owned one.
#[derive(Debug, PartialEq, Eq, Drop)]
pub enum Data<'a> {
    /// Borrowed bytes.
    Borrowed(DataSlice<'a>),
    /// Owned bytes.
    Owned(DataOwned),
}

impl<'a> Data<'a> {
    /// Returns the bytes.
    pub fn as_slice(&self) -> &[u8]
        ensures { result.now ≡ data_bytes self.now }
    {
        match self {
            Data::Borrowed(slice) => slice.0,
            Data::Owned(owned) => owned.0.as_slice(),
        }
    }

    /// Returns the bytes as owned ones. Borrowed bytes are copied. Owned bytes stay in their box,
    /// which allocates nothing. Fails only with `NoMemory`, if an allocation fails.
    pub fn into_owned<'b>(self, alloc: Global) -> Result<Data<'b>, NoMemory>
        ensures bytes { IfOk result (λ owned. data_bytes owned ≡ data_bytes self.entry) }
        ensures owned { IfOk result (λ owned. is_owned owned ≡ true) }
        ensures stays { is_owned self.entry ≡ true → result ≡ Ok self.entry }
    {
        match self {
            Data::Borrowed(slice) => Ok(Data::Owned(slice.to_owned(alloc)?)),
            Data::Owned(owned) => Ok(Data::Owned(owned)),
        }
    }
}

/// Borrows the bytes, so that a `Data` can be passed where an owner of bytes is required.
impl<'a> AsSlice<u8> for Data<'a> {
    ghost use Rattle.stun_types_base.specs.Data.{data_bytes};

    ghost items = { data_bytes };

    fn as_slice(&self) -> &[u8] {
        Data::as_slice(self)
    }
}

/// Makes a borrowed value.
impl<'a> From<DataSlice<'a>> for Data<'a> {
    ghost use Rattle.std.specs.Prelude.{◌≡◌};
    ghost use Rattle.stun_types_base.specs.declared.data.Data.TheVariants.{Borrowed};

    ghost from_gives = { λ slice made. made ≡ Borrowed slice };

    fn from(value: DataSlice<'a>) -> Data<'a> {
        Data::Borrowed(value)
    }
}

/// Makes an owned value.
impl<'a> From<DataOwned> for Data<'a> {
    ghost use Rattle.std.specs.Prelude.{◌≡◌};
    ghost use Rattle.stun_types_base.specs.declared.data.Data.TheVariants.{Owned};

    ghost from_gives = { λ owned made. made ≡ Owned owned };

    fn from(value: DataOwned) -> Data<'a> {
        Data::Owned(value)
    }
}

/// Makes a borrowed value.
impl<'a> From<&'a [u8]> for Data<'a> {
    ghost use Rattle.std.specs.Prelude.{◌≡◌, false};
    ghost use Rattle.stun_types_base.specs.Data.{data_bytes, is_owned};

    ghost from_gives = { λ bytes made. (data_bytes made ≡ bytes.now) × (is_owned made ≡ false) };

    fn from(value: &'a [u8]) -> Data<'a> {
        Data::Borrowed(DataSlice(value))
    }
}

/// Makes an owned value.
impl<'a> From<BoxedSlice<u8>> for Data<'a> {
    ghost use Rattle.std.specs.Prelude.{◌≡◌, true};
    ghost use Rattle.std.specs.Box.{boxed_slice_items};
    ghost use Rattle.stun_types_base.specs.Data.{data_bytes, is_owned};

    ghost from_gives = { λ bytes made. (data_bytes made ≡ boxed_slice_items bytes)
        × (is_owned made ≡ true) };

    fn from(value: BoxedSlice<u8>) -> Data<'a> {
        Data::Owned(DataOwned(value))
    }
}
