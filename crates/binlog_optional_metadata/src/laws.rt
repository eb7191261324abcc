//! Laws of the definitions. Each is a function that does nothing and whose contract states the law.
ghost use Rattle.std.specs.Prelude.{◌≡◌, ℕ, List};
ghost use Rattle.binlog_wire.specs.Fields.{IsBytes};
ghost use Rattle.binlog_optional_metadata.specs.FieldsLeft.{FieldContent};
ghost use Rattle.binlog_optional_metadata.specs.declared.class_counts.ClassCounts.{ClassCounts};
ghost use Rattle.binlog_optional_metadata.specs.AllFields.{AreFields};

/// The bytes of the optional metadata have exactly one list of fields, each read or refused.
pub fn fields_are_given()
    ensures some_way { (counts : ClassCounts) (s : List ℕ) → IsBytes s → (fields : List FieldContent) × AreFields counts s fields }
    ensures one_way { (counts : ClassCounts) (s : List ℕ) (xs ys : List FieldContent) → AreFields counts s xs → AreFields counts s ys → xs ≡ ys }
{}
