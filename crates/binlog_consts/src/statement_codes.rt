//! Codes in statement events: duplicate-key handling, and the type and flags of a user variable.
use binlog_wire::{Constant, Invalid};
use bitflags::{Flag, Flags, bitflag_items};
use thiserror::Error;

/// What `LOAD DATA` does with a row whose unique key is already in the table.
///
/// Source: MySQL's internals documentation, "EXECUTE_LOAD_QUERY_EVENT".
#[allow(non_camel_case_types)]
#[derive(Clone, Copy, Debug, PartialEq, Eq, Hash)]
pub enum LoadDuplicateHandling {
    /// The statement fails.
    LOAD_DUP_ERROR = 0,
    /// The new row is ignored.
    LOAD_DUP_IGNORE = 1,
    /// The new row replaces the old one.
    LOAD_DUP_REPLACE = 2,
}

/// The handling with this code; any other number is [`Invalid::DupHandling`] with that number.
impl TryFrom<u8> for LoadDuplicateHandling {
    ghost use Rattle.std.specs.Prelude.{◌≡◌};
    ghost use Rattle.binlog_consts.specs.StatementCodes.{dup_handling_of};

    type Error = Invalid;

    ghost try_from_gives = { λ number answer. answer ≡ dup_handling_of number };

    fn try_from(number: u8) -> Result<LoadDuplicateHandling, Invalid> {
        match number {
            0 => Ok(LoadDuplicateHandling::LOAD_DUP_ERROR),
            1 => Ok(LoadDuplicateHandling::LOAD_DUP_IGNORE),
            2 => Ok(LoadDuplicateHandling::LOAD_DUP_REPLACE),
            _ => Err(Invalid::DupHandling(number)),
        }
    }
}

/// The code of the handling.
impl From<LoadDuplicateHandling> for u8 {
    ghost use Rattle.std.specs.Prelude.{◌≡◌};
    ghost use Rattle.binlog_consts.specs.StatementCodes.{dup_handling_number};

    ghost from_gives = { λ value number. number ≡ dup_handling_number value };

    fn from(value: LoadDuplicateHandling) -> u8 {
        value as u8
    }
}

impl Constant<u8> for LoadDuplicateHandling {
    ghost use Rattle.binlog_consts.specs.StatementCodes.{dup_handling_of, dup_handling_number};

    ghost decoded = { dup_handling_of };

    ghost code = { dup_handling_number };

    fn from_number(number: u8) -> Result<LoadDuplicateHandling, Invalid> {
        LoadDuplicateHandling::try_from(number)
    }

    fn number(self) -> u8 {
        u8::from(self)
    }
}

/// The type of a user variable's value.
///
/// Source: MySQL's documentation of its source code, `Item_result`.
#[allow(non_camel_case_types)]
#[derive(Clone, Copy, Debug, PartialEq, Eq, Hash)]
pub enum ItemResult {
    /// A string.
    STRING_RESULT = 0,
    /// A floating-point number.
    REAL_RESULT = 1,
    /// An integer.
    INT_RESULT = 2,
    /// A row.
    ROW_RESULT = 3,
    /// A decimal number.
    DECIMAL_RESULT = 4,
}

/// The code of an unknown value type, below 0 or above 4.
#[derive(Clone, Copy, Debug, PartialEq, Eq, Hash, Error)]
#[error("the type of values {0} is not known")]
pub struct UnknownItemResultType(pub i8);

/// The type with this code; any other number is [`UnknownItemResultType`] with that number.
impl TryFrom<i8> for ItemResult {
    ghost use Rattle.std.specs.Prelude.{◌≡◌};
    ghost use Rattle.binlog_consts.specs.StatementCodes.{item_result_of};

    type Error = UnknownItemResultType;

    ghost try_from_gives = { λ number answer. answer ≡ item_result_of number };

    fn try_from(number: i8) -> Result<ItemResult, UnknownItemResultType> {
        match number {
            0 => Ok(ItemResult::STRING_RESULT),
            1 => Ok(ItemResult::REAL_RESULT),
            2 => Ok(ItemResult::INT_RESULT),
            3 => Ok(ItemResult::ROW_RESULT),
            4 => Ok(ItemResult::DECIMAL_RESULT),
            _ => Err(UnknownItemResultType(number)),
        }
    }
}

/// The code of the type.
impl From<ItemResult> for i8 {
    ghost use Rattle.std.specs.Prelude.{◌≡◌, pos};
    ghost use Rattle.binlog_consts.specs.StatementCodes.{item_result_number};

    ghost from_gives = { λ value number. number ≡ pos (item_result_number value) };

    fn from(value: ItemResult) -> i8 {
        value as i8
    }
}

/// The flags of a USER_VAR event.
///
/// Source: MySQL's documentation of its source code, `mysql::binlog::event::User_var_event`.
#[derive(Clone, Copy, Debug, PartialEq, Eq, Hash)]
pub struct UserVarFlags(u8);

bitflag_items! {
    impl UserVarFlags: u8 {
        /// The value is an unsigned integer.
        const UNSIGNED = 0x1;
    }
}

impl Flags for UserVarFlags {
    ghost use Rattle.std.specs.Prelude.{⊤};
    ghost use Rattle.binlog_consts.specs.StatementCodes.{user_var_flags};

    type Bits = u8;

    ghost exact = { ⊤ };

    ghost table = { user_var_flags };

    ghost set_of = { λ flags. flags.0 };

    fn flags<'a>() -> &'a [Flag<UserVarFlags>] {
        UserVarFlags::FLAGS
    }

    fn bits(&self) -> u8 {
        self.0
    }

    fn from_bits_retain(bits: u8) -> UserVarFlags {
        UserVarFlags(bits)
    }
}
