//! Why a value is no operation.
ghost use Rattle.std.specs.Prelude.{◌≡◌};
ghost use Rattle.room_wire.specs.Wire.{name_of};

use room_json::NoMemory;
use std::error::Error;
use std::fmt;

/// A field of an operation, by its name in JSON.
#[derive(Clone, Copy, Debug, PartialEq, Eq)]
pub enum Field {
    /// `type`
    Kind,
    /// `id`
    Id,
    /// `opId`
    OpId,
    /// `parentId`
    ParentId,
    /// `parentKey`
    ParentKey,
    /// `data`
    Content,
    /// `key`
    Key,
    /// `intent`
    Intent,
    /// `deletedId`
    DeletedId,
}

impl Field {
    /// Its name in JSON.
    pub fn name(self) -> &'static str
        ensures { result.now ≡ name_of self }
    {
        match self {
            Field::Kind => "type",
            Field::Id => "id",
            Field::OpId => "opId",
            Field::ParentId => "parentId",
            Field::ParentKey => "parentKey",
            Field::Content => "data",
            Field::Key => "key",
            Field::Intent => "intent",
            Field::DeletedId => "deletedId",
        }
    }
}

/// Why no operation was read.
#[derive(Clone, Copy, Debug, PartialEq, Eq)]
pub enum WireFault {
    /// Out of memory.
    Memory,
    /// The first field, in their order, that is missing or wrong.
    BadOp(Field),
}

impl From<NoMemory> for WireFault {
    ghost use Rattle.std.specs.Prelude.{◌≡◌};
    ghost use Rattle.room_wire.specs.declared.fault.WireFault.TheVariants.{Memory};

    ghost from_gives = { λ _ e. e ≡ Memory };

    fn from(_error: NoMemory) -> WireFault {
        WireFault::Memory
    }
}

impl fmt::Display for WireFault {
    fn fmt<W: fmt::Write>(&self, f: &mut fmt::Formatter<W>) -> fmt::Result {
        match self {
            WireFault::Memory => f.write_str("out of memory"),
            WireFault::BadOp(field) => {
                write!(
                    f,
                    "the field `{}` of an operation is missing or wrong",
                    field.name()
                )
            }
        }
    }
}

impl Error for WireFault {}
