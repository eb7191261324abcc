//! Laws of the definitions. Each is a function that does nothing and whose contract states the law.
ghost use Rattle.std.specs.Prelude.{◌≡◌, ◌≤◌, ◌-◌, ◌++◌, ℕ, ℤ, Bool, true, List, length, replicate, Ok};
ghost use Rattle.byteorder.specs.Endian.{twos_complement};
ghost use Rattle.binlog_columns.specs.Metadata.{Typed};
ghost use Rattle.binlog_columns.specs.Layouts.{layout_of};
ghost use Rattle.binlog_values.specs.Contents.{Content, content_in};
ghost use Rattle.binlog_values.specs.Decimals.{is_negative_decimal, decimal_digits};
ghost use Rattle.binlog_images.specs.Cells.{RowShape, whole};
ghost use Rattle.binlog_images.specs.Splits.{AreRows};
ghost use Rattle.binlog_row_writing.specs.Numbers.{integer_number};
ghost use Rattle.binlog_row_writing.specs.Decimals.{IsDecimal, decimal_bytes};
ghost use Rattle.binlog_row_writing.specs.NewContents.{content_for};
ghost use Rattle.binlog_row_writing.specs.NewRows.{NewRow};
ghost use Rattle.binlog_row_writing.specs.PartLaws.{ReadsDate, ReadsTime, ReadsDateTime, ReadsTimestamp2, ReadsDateTime2, ReadsTime2};
ghost use Rattle.binlog_row_writing.specs.Times.{is_date, date_bits, time_number, datetime_number, timestamp2_number, datetime2_number, time2_number};
ghost use Rattle.binlog_row_writing.specs.RowLaws.{AreAccepted, rows_bytes, rows_cells};
ghost use Rattle.binlog_row_writing.specs.declared.new_value.NewDate.{NewDate};
ghost use Rattle.binlog_row_writing.specs.declared.new_value.NewTime.{NewTime};
ghost use Rattle.binlog_row_writing.specs.declared.new_value.NewValue.{NewValue};
ghost use Rattle.binlog_row_writing.specs.declared.new_value.NewValue.TheVariants.{Unsigned, Signed, Timestamp, Time, DateTime};

/// What is stored for a value fits its column.
pub fn contents_fit()
    ensures { (column : Typed) (value : NewValue) (c : Content) → content_for column value ≡ Ok c → (content_in (layout_of column)).Fits c }
{}

/// The bytes of rows that aren't refused, one after the other, split into exactly these rows, so that an iteration gives
/// them, in order, and nothing else.
pub fn written_rows_read_back()
    ensures { (shape : RowShape) (rows : List NewRow) (index : ℕ) → AreAccepted shape rows → AreRows (whole shape) index (rows_bytes shape rows) (rows_cells shape rows) }
{}

/// The number of an integer, of a signed one in two's complement of the column's size, and the parts of a date or a time are
/// those that are read of the stored number.
pub fn parts_read_back()
    ensures unsigned { (size n number : ℕ) → integer_number size (Unsigned number) ≡ Ok n → n ≡ number }
    ensures signed { (size n : ℕ) (number : ℤ) → 1 ≤ size → integer_number size (Signed number) ≡ Ok n → twos_complement size n ≡ number }
    ensures date { (date : NewDate) → is_date date ≡ true → ReadsDate date (date_bits date) }
    ensures time { (n : ℕ) (is_negative : Bool) (time : NewTime) → time_number (Time is_negative time) ≡ Ok n → ReadsTime is_negative time n }
    ensures datetime { (n : ℕ) (date : NewDate) (time : NewTime) → datetime_number (DateTime date time) ≡ Ok n → ReadsDateTime date time n }
    ensures timestamp2 { (digits seconds us n : ℕ) → timestamp2_number digits (Timestamp seconds us) ≡ Ok n → ReadsTimestamp2 digits seconds us n }
    ensures datetime2 { (digits n : ℕ) (date : NewDate) (time : NewTime) → datetime2_number digits (DateTime date time) ≡ Ok n → ReadsDateTime2 digits date time n }
    ensures time2 { (digits n : ℕ) (is_negative : Bool) (time : NewTime) → time2_number digits (Time is_negative time) ≡ Ok n → ReadsTime2 digits is_negative time n }
{}

/// The sign and the digits of a decimal number are those that are read of its bytes. Digits that are left out in front are 0.
pub fn decimals_read_back()
    ensures sign { (precision scale : ℕ) (is_negative : Bool) (digits : List ℕ) → IsDecimal precision scale digits → is_negative_decimal (decimal_bytes precision scale is_negative digits) ≡ is_negative }
    ensures digits { (precision scale : ℕ) (is_negative : Bool) (digits : List ℕ) → IsDecimal precision scale digits → decimal_digits precision scale (decimal_bytes precision scale is_negative digits) ≡ replicate (precision - length digits) 0 ++ digits }
{}
