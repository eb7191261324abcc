//! Laws of the definitions. Each is a function that does nothing and whose contract states the law.
ghost use Rattle.std.specs.Prelude.{◌≡◌, ◌++◌, ◌+◌, ◌^◌, ◌<◌, ◌≤◌, ℕ, List, None, Some, length};
ghost use Rattle.binlog_wire.specs.Laws.{KeepsTo};
ghost use Rattle.binlog_variable_fields.specs.LenEnc.{IsLenEnc, lenenc_at, lenenc_written};
ghost use Rattle.binlog_variable_fields.specs.Varlen.{IsVarlen, varlen_at, varlen_written};
ghost use Rattle.binlog_variable_fields.specs.Signed.{IsVarlenSigned, varlen_signed_at};
ghost use Rattle.binlog_variable_fields.specs.GnoIntervals.{gno_interval};
ghost use Rattle.binlog_variable_fields.specs.declared.gno_interval.GnoInterval.{GnoInterval};

use crate::gno_interval::GnoInterval;
use crate::lenenc::LenEnc;
use crate::value_list::ValueList;
use crate::varlen::{Varlen, VarlenSigned};
use binlog_wire::{IntRepr, MyDeserialize};

/// A number is read exactly where a prefix of the bytes encodes it, with the bytes after that prefix. So no encoding
/// is a proper prefix of another.
pub fn numbers_are_spelled()
    ensures lenenc { KeepsTo IsLenEnc lenenc_at }
    ensures varlen { KeepsTo IsVarlen varlen_at }
    ensures signed { KeepsTo IsVarlenSigned varlen_signed_at }
{}

/// The written bytes of a number encode it.
pub fn written_numbers_are_spelled()
    ensures lenenc { (n : ℕ) (r : List ℕ) → n < 256 ^ 8 → IsLenEnc (lenenc_written n ++ r) n r }
    ensures varlen { (n : ℕ) (r : List ℕ) → n < 256 ^ 8 → IsVarlen (varlen_written n ++ r) n r }
{}

/// No encoding of a number is shorter than the written one.
pub fn written_numbers_are_shortest()
    ensures lenenc { (s : List ℕ) (n : ℕ) (r : List ℕ) → IsLenEnc s n r → length (lenenc_written n) + length r ≤ length s }
    ensures varlen { (s : List ℕ) (n : ℕ) (r : List ℕ) → IsVarlen s n r → length (varlen_written n) + length r ≤ length s }
{}

/// The encoding of an interval has 16 bytes, whatever follows it.
pub fn intervals_take_16_bytes()
    ensures { (s : List ℕ) (interval : GnoInterval) (r : List ℕ) → gno_interval.spells s interval r → length s ≡ 16 + length r }
{}

/// The size of each type, where it is fixed.
pub fn sizes()
    ensures interval { ⟦<GnoInterval as MyDeserialize<'static>>⟧.size ≡ Some 16 }
    ensures value_list { ⟦<ValueList<GnoInterval> as MyDeserialize<'static>>⟧.size ≡ None }
{
    prove!(matches!(GnoInterval::SIZE, Some(16)));
    prove!(matches!(LenEnc::SIZE, None));
    prove!(matches!(Varlen::SIZE, None));
    prove!(matches!(VarlenSigned::SIZE, None));
}
