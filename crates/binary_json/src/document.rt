//! Documents.
ghost use Rattle.std.specs.Prelude.{◌≡◌, true, is_none};
ghost use Rattle.binary_json.specs.Refusals.{document_refusal};

use crate::check::check_value;
use crate::error::JsonError;
use crate::value::Value;

/// How many arrays and objects may be within one another.
const MOST_NESTED: usize = 100;

/// A document of a JSON column, whose bytes are checked.
#[derive(Clone, Copy, Debug)]
pub struct Document<'a> {
    bytes: &'a [u8],
    ghost checked: { is_none (document_refusal bytes.now) ≡ true },
}

impl<'a> Document<'a> {
    ghost use Rattle.std.specs.Prelude.{◌≡◌, Some, IfOk, IfErr, IsOkAnd};
    ghost use Rattle.binary_json.specs.Values.{Json};
    ghost use Rattle.binary_json.specs.Grammar.{IsDocument};
    ghost use Rattle.binary_json.specs.Refusals.{document_refusal};
    ghost use Rattle.binary_json.specs.Views.{document_json, json};

    /// Checks all bytes of a document: that they are one, and that what is read of them, each time that it is read, is no more
    /// than the bytes behind its type. No bytes are `null`. It takes no memory.
    ///
    /// # Errors
    ///
    /// The first refusal that the check meets, and its place. It goes depth first, and of each array and object through the
    /// header, and then through the entries: of each the key, and then the value.
    #[tactic(auto, using(crate::proofs::Documents::found, crate::proofs::Documents::accepted), unfolding(crate::specs::Refusals::document_refusal))]
    pub fn read(bytes: &'a [u8]) -> Result<Document<'a>, JsonError>
        ensures found { IfOk result (λ d. IsDocument bytes.now (document_json d)) }
        ensures only { (v : Json) → IsDocument bytes.now v → IsOkAnd result (λ d. document_json d ≡ v) }
        ensures refused { IfErr result (λ e. document_refusal bytes.now ≡ Some e) }
    {
        if let Some((kind, rest)) = bytes.split_first() {
            check_value(*kind, 1, rest, MOST_NESTED, rest.len())?;
        }
        Ok(Document { bytes })
    }

    /// The value of the document.
    #[tactic(auto, using(crate::proofs::Documents::readable))]
    pub fn value(&self) -> Value<'a>
        ensures { json result ≡ document_json self.now }
    {
        match self.bytes.split_first() {
            Some((kind, rest)) => Value::new(*kind, rest),
            None => Value::Null,
        }
    }
}
