//! Laws of the texts of character sets: functions that do nothing, whose contracts are the laws.
ghost use Rattle.character_sets.specs.Laws.{OneText, TextsAreRead, TextsJoin, ByTable, KeepsAscii, IsStdUtf8, IsStdUtf16};

/// Bytes are the text of one list of characters at most.
pub fn one_text()
    ensures { OneText }
{}

/// The characters of bytes, as a function, are those of their text; there are none exactly if the bytes are no text.
pub fn texts_are_read()
    ensures { TextsAreRead }
{}

/// Texts behind one another are the text of the characters of both.
pub fn texts_join()
    ensures { TextsJoin }
{}

/// In a single-byte set each byte is a character, by the set's table, and nothing else is a text.
pub fn by_table()
    ensures { ByTable }
{}

/// The bytes below 0x80 are ASCII in every single-byte set but `swe7`.
pub fn keeps_ascii()
    ensures { KeepsAscii }
{}

/// A text of `utf8mb4` is the UTF-8 of its characters, as std defines it.
pub fn is_std_utf8()
    ensures { IsStdUtf8 }
{}

/// A text of `utf16` and `utf16le` has the units of its characters in UTF-16, as std defines it.
pub fn is_std_utf16()
    ensures { IsStdUtf16 }
{}
