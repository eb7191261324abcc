//! A file that is there whole or not at all.
ghost use Rattle.std.specs.Prelude.{◌≡◌, ◌++◌, ℕ, Bool, true, false, List, Option, codes, string_bytes, IfErr, IfOk, OnErr, OnOk, ⊤};
ghost use Rattle.binlog_cli.specs.declared.exit_status.Status.TheVariants.{Failed};

use crate::exit_status::{Status, out_of_memory};
use std::fs::{File, OpenFile};
use std::io::{ErrorKind, Write};
use std::rt::Files;
use std::{fs, io};

/// A file that is written under another name, and gets its own when it is whole.
pub trait NewFile {
    /// What is written before the file is there.
    type Draft: Write + Drop;

    /// The name of the file.
    ghost named: { Self → List ℕ };

    /// The name under which it is written.
    ghost drafted: { Self → List ℕ };

    /// Whether the file is there.
    ghost is_there: { Self → Bool };

    /// Whether something was begun to be written that is neither finished nor removed.
    ghost has_draft: { Self → Bool };

    /// What was begun to be written has these bytes, where they are known: none.
    ghost is_fresh: { Self → Option (List ℕ) → Type 0 };

    /// The file has these bytes, where they are known.
    ghost has: { Self → Option (List ℕ) → Type 0 };

    /// The name of the file, for messages.
    fn name(&self) -> &str
        ensures { result.now ≡ named self.now };

    /// The name under which it is written, for messages.
    fn draft_name(&self) -> &str
        ensures { result.now ≡ drafted self.now };

    /// Begins to write, from the first byte on. The file isn't there yet.
    ///
    /// # Errors
    ///
    /// Those of making a file, and `AlreadyExists` if there is one of the other name. Nothing has changed then.
    fn begin(&mut self) -> io::Result<Self::Draft>
        ensures there { is_there self.new ≡ is_there self.old }
        ensures fresh { IfOk result (λ draft. is_fresh self.old (Self.Draft.contents draft)) }
        ensures begun { OnOk result (has_draft self.new ≡ true) }
        ensures failed { OnErr result (has_draft self.new ≡ has_draft self.old) };

    /// Gives the file its name. It has the bytes of the draft then.
    ///
    /// # Errors
    ///
    /// Those of writing a file and of renaming it, and `AlreadyExists` if another file got the name meanwhile. The file isn't there then, and
    /// what was written may be left.
    fn finish(&mut self, draft: Self::Draft) -> io::Result<()>
        ensures there { OnOk result (is_there self.new ≡ true) }
        ensures bytes { OnOk result (has self.new (Self.Draft.contents draft)) }
        ensures finished { OnOk result (has_draft self.new ≡ false) }
        ensures failed { OnErr result (is_there self.new ≡ is_there self.old) };

    /// Removes what was written, as far as the system does that. The file isn't there.
    fn discard(&mut self)
        ensures there { is_there self.new ≡ is_there self.old }
        ensures removed { has_draft self.new ≡ false };
}

/// A file of the machine. What it has isn't known.
#[derive(Drop)]
pub struct HostFile<'a, R> {
    rt: &'a R,
    name: &'a str,
    draft: &'a str,
    is_there: bool,
    has_draft: bool,
}

impl<'a, R: Files> HostFile<'a, R> {
    /// The file of this name, and the name under which it is written.
    pub fn new(rt: &'a R, name: &'a str, draft: &'a str) -> Self
        ensures named { result.name.now ≡ name.now }
        ensures drafted { result.draft.now ≡ draft.now }
        ensures there { result.is_there ≡ false }
        ensures begun { result.has_draft ≡ false }
    {
        HostFile {
            rt,
            name,
            draft,
            is_there: false,
            has_draft: false,
        }
    }
}

impl<'a, R: Files> NewFile for HostFile<'a, R> {
    type Draft = R::File;

    ghost named = { λ file. file.name.now };

    ghost drafted = { λ file. file.draft.now };

    ghost is_there = { λ file. file.is_there };

    ghost has_draft = { λ file. file.has_draft };

    ghost is_fresh = { λ file bytes. ⊤ };

    ghost has = { λ file bytes. ⊤ };

    fn name(&self) -> &str {
        self.name
    }

    fn draft_name(&self) -> &str {
        self.draft
    }

    fn begin(&mut self) -> io::Result<R::File> {
        let draft = File::create_new(self.rt, self.draft)?;
        self.has_draft = true;
        Ok(draft)
    }

    fn finish(&mut self, draft: R::File) -> io::Result<()> {
        draft.sync_all()?;
        drop(draft);
        // A rename writes over a file.
        if fs::exists(self.rt, self.name)? {
            return Err(io::Error::from(ErrorKind::AlreadyExists));
        }
        fs::rename(self.rt, self.draft, self.name)?;
        self.is_there = true;
        self.has_draft = false;
        Ok(())
    }

    fn discard(&mut self) {
        let _ = fs::remove_file(self.rt, self.draft);
        self.has_draft = false;
    }
}

/// The name under which the file of a name is written, if there is no file of that name: no file is ever written over.
///
/// # Errors
///
/// [`Status::Failed`], after its message, if there is a file of that name, if it can't be told, or if there is no memory.
pub fn draft_name<R: Files + Eprint + AllocGlobal>(rt: &R, name: &str) -> Result<String, Status>
    ensures ok { IfOk result (λ draft. string_bytes draft ≡ name.now ++ codes ".part") }
    ensures err { IfErr result (λ status. status ≡ Failed) }
{
    match fs::exists(rt, name) {
        Ok(false) => match format!(in rt.alloc(); "{name}.part") {
            Ok(draft) => Ok(draft),
            Err(_) => Err(out_of_memory(rt)),
        },
        Ok(true) => {
            let _ = eprintln!(rt; "binlog: {name}: there is a file of this name");
            Err(Status::Failed)
        }
        Err(error) => {
            let _ = eprintln!(rt; "binlog: {name}: {error}");
            Err(Status::Failed)
        }
    }
}
