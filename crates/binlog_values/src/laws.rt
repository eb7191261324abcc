//! Laws of the definitions. Each is a function that does nothing and whose contract states the law.
ghost use Rattle.std.specs.Prelude.{◌≡◌, ◌++◌, ℕ, true, List, Ok};
ghost use Rattle.binlog_wire.specs.Laws.{KeepsTo};
ghost use Rattle.binlog_columns.specs.declared.layout.Layout.{Layout};
ghost use Rattle.binlog_values.specs.Contents.{Content, content_in, is_decimal_bytes};
ghost use Rattle.binlog_values.specs.Decimals.{digits_number, decimal_digits, decimal_number};

/// A value is read exactly if a prefix of the bytes encodes it, and the bytes after that prefix are left. The written
/// bytes of a content that fits its layout are read back as that content.
pub fn contents_are_read()
    ensures keeps { (layout : Layout) → KeepsTo (content_in layout).spells (content_in layout).reads }
    ensures back { (layout : Layout) (c : Content) (r : List ℕ) → (content_in layout).Fits c → (content_in layout).reads ((content_in layout).written c ++ r) ≡ Ok (c, r) }
{}

/// The exact integer of a decimal number is the number of all its digits, one after the other.
pub fn decimals_are_digits()
    ensures { (precision scale : ℕ) (s : List ℕ) → is_decimal_bytes precision scale s ≡ true → decimal_number precision scale s ≡ digits_number (decimal_digits precision scale s) }
{}
