//! Laws of sets of transaction numbers. Each is a function without effect whose contract states it.
ghost use Rattle.std.specs.Prelude.{◌≡◌, ℕ, List};
ghost use Rattle.binlog_variable_fields.specs.declared.gno_interval.GnoInterval.{GnoInterval};
ghost use Rattle.binlog_gtids.specs.GnoSets.{is_held, AreApart};

/// Two lists of ascending intervals, of which no two touch, are equal if they contain the same numbers.
pub fn one_list_of_intervals()
    ensures { (is others : List GnoInterval) → AreApart 0 is → AreApart 0 others → ((n : ℕ) → is_held is n ≡ is_held others n) → is ≡ others }
{}
