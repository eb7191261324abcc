//! Members of objects, and values that may be null.
ghost use Rattle.std.specs.Prelude.{◌≡◌, ◌∷◌, [], codes, OnErr};
ghost use Rattle.json.specs.Token as tokens;
ghost use Rattle.json_line.specs.Keys.{BeginsWithKey};
ghost use Rattle.json_line.specs.Lines.{IsPlainText};
ghost use Rattle.json_line.specs.Tokens.{Adds, number_value, bytes_value, text_value, uuid_value, or_null, member, bytes_member_if_any};

use crate::line::Line;
use std::alloc::AllocError;
use uuid::Uuid;

/// The calls for members and for what may be null.
impl Line {
    /// Writes a UUID as a string, in lower case with hyphens.
    pub fn uuid(&mut self, bytes: [u8; 16]) -> Result<(), AllocError>
        ensures added { Adds result self.old self.new (uuid_value bytes) }
        ensures unchanged { OnErr result (self.new ≡ self.old) }
    {
        let mut buffer = Uuid::encode_buffer();
        let text = Uuid::from_bytes(bytes)
            .hyphenated()
            .encode_lower(&mut buffer);
        self.string(text)
    }

    /// Writes a byte as a number, or `null`.
    #[inline]
    pub fn byte_or_null(&mut self, number: Option<u8>) -> Result<(), AllocError>
        ensures added { Adds result self.old self.new (or_null number_value number) }
        ensures unchanged { OnErr result (self.new ≡ self.old) }
    {
        match number {
            Some(number) => self.number(u64::from(number)),
            None => self.null(),
        }
    }

    /// Writes four bytes as a string of hexadecimal digits, or `null`.
    #[inline]
    pub fn checksum_or_null(&mut self, checksum: Option<[u8; 4]>) -> Result<(), AllocError>
        ensures added { Adds result self.old self.new (or_null bytes_value checksum) }
        ensures unchanged { OnErr result (self.new ≡ self.old) }
    {
        match checksum {
            Some(checksum) => self.bytes(&checksum),
            None => self.null(),
        }
    }

    /// Begins an object with a key and the name of its value: `{"key":"Flags2","value":`. The key must need no escape.
    #[inline(always)]
    pub fn begin_entry(&mut self, key: &str) -> Result<(), AllocError>
        requires { IsPlainText key.now }
        ensures added { Adds result self.old self.new (tokens.begin_object ∷ tokens.key (codes "key") ∷ tokens.string key.now ∷ tokens.key (codes "value") ∷ []) }
        ensures unchanged { OnErr result (self.new ≡ self.old) }
    {
        self.text.add_between(
            self.after_value,
            b"{\"key\":\"",
            key.as_bytes(),
            b"\",\"value\":",
        )?;
        self.after_value = false;
        Ok(())
    }

    /// Writes the members that another line holds, from the name of the first to the value of the last, and nothing else. They are
    /// copied as they are.
    #[inline(always)]
    pub fn copied_members(&mut self, printed: &Line) -> Result<(), AllocError>
        requires { BeginsWithKey printed.now }
        ensures added { Adds result self.old self.new printed.now }
        ensures unchanged { OnErr result (self.new ≡ self.old) }
    {
        self.text.add_written(self.after_value, &printed.text)?;
        self.after_value = printed.after_value;
        Ok(())
    }

    /// Writes a member of an object with a number. The name must need no escape, as in the members below.
    #[inline(always)]
    pub fn number_member(&mut self, name: &str, number: u64) -> Result<(), AllocError>
        requires { IsPlainText name.now }
        ensures added { Adds result self.old self.new (member name.now (number_value number)) }
        ensures unchanged { OnErr result (self.new ≡ self.old) }
    {
        self.text
            .add_named_number(self.after_value, name.as_bytes(), number)?;
        self.after_value = true;
        Ok(())
    }

    /// Writes a member of an object with a text, as [`Line::text`] writes it.
    #[inline(always)]
    pub fn text_member(&mut self, name: &str, text: &[u8]) -> Result<(), AllocError>
        requires { IsPlainText name.now }
        ensures { Adds result self.old self.new (member name.now (text_value text.now)) }
    {
        self.key(name)?;
        self.text(text)
    }

    /// Writes a member of an object with bytes as hexadecimal digits.
    #[inline(always)]
    pub fn bytes_member(&mut self, name: &str, bytes: &[u8]) -> Result<(), AllocError>
        requires { IsPlainText name.now }
        ensures { Adds result self.old self.new (member name.now (bytes_value bytes.now)) }
    {
        self.key(name)?;
        self.bytes(bytes)
    }

    /// Writes a member of an object with bytes as hexadecimal digits; nothing if there are none.
    #[inline(always)]
    pub fn bytes_member_if_any(&mut self, name: &str, bytes: &[u8]) -> Result<(), AllocError>
        requires { IsPlainText name.now }
        ensures { Adds result self.old self.new (bytes_member_if_any name.now bytes.now) }
    {
        if bytes.is_empty() {
            return Ok(());
        }
        self.rare_bytes_member(name, bytes)
    }

    // A member that few objects have.
    #[cold]
    #[inline(never)]
    fn rare_bytes_member(&mut self, name: &str, bytes: &[u8]) -> Result<(), AllocError>
        requires { IsPlainText name.now }
        ensures { Adds result self.old self.new (member name.now (bytes_value bytes.now)) }
    {
        self.bytes_member(name, bytes)
    }
}
