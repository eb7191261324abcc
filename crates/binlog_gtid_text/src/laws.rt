//! Laws of texts of sets of GTIDs. Each is a function without effect whose contract states it.
ghost use Rattle.std.specs.Prelude.{◌≡◌, ◌⊎◌, ◌↔◌, ℕ, List};
ghost use Rattle.binlog_gtid_sets.specs.declared.gtid_group.GtidGroup.{GtidGroup};
ghost use Rattle.binlog_gtid_sets.specs.GtidGroups.{Pair, is_tracked, AreGroups};
ghost use Rattle.binlog_gtid_text.specs.declared.error.GtidTextError.{GtidTextError};
ghost use Rattle.binlog_gtid_text.specs.declared.piece.Piece.{Piece};
ghost use Rattle.binlog_gtid_text.specs.Pieces.{IsText, IsInvalid, is_in_text};
ghost use Rattle.binlog_gtid_text.specs.Printing.{set_text};
ghost use Rattle.binlog_gtid_text.specs.Laws.Printing.{AreWritable};
ghost use Rattle.binlog_gtid_text.specs.Spellings.{IsSpelled};

/// A text consists of one list of pieces, or has one error and consists of none.
pub fn one_reading()
    ensures some { (text : List ℕ) → ((ps : List Piece) × IsText text ps) ⊎ ((e : GtidTextError) × IsInvalid text e) }
    ensures same { (text : List ℕ) (ps qs : List Piece) → IsText text ps → IsText text qs → ps ≡ qs }
    ensures valid { (text : List ℕ) (ps : List Piece) (e : GtidTextError) → IsText text ps → IsInvalid text e → ⊥ }
    ensures fault { (text : List ℕ) (e d : GtidTextError) → IsInvalid text e → IsInvalid text d → e ≡ d }
{}

/// The text that is written of groups consists of pieces that name the groups' GTIDs.
pub fn written_texts_read_back()
    ensures { (groups : List GtidGroup) → AreGroups groups → AreWritable groups → (ps : List Piece) × IsText (set_text groups) ps × ((pair : Pair) (n : ℕ) → is_in_text ps pair n ≡ is_tracked groups pair n) }
{}

/// Sets with the same GTIDs have the same text.
pub fn one_text()
    ensures { (a b : List GtidGroup) → AreGroups a → AreGroups b → AreWritable a → AreWritable b → ((pair : Pair) (n : ℕ) → is_tracked a pair n ≡ is_tracked b pair n) → set_text a ≡ set_text b }
{}

/// A text consists of pieces exactly if it is spelled so: whitespace alone, or a UUID and the pieces after it, in whole.
pub fn texts_are_spelled()
    ensures { (text : List ℕ) (ps : List Piece) → IsText text ps ↔ IsSpelled text ps }
{}
