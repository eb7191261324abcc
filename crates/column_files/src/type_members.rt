//! The members of an ENUM or a SET.
ghost use Rattle.std.specs.Prelude.{◌≡◌, ◌∷◌, [], None, option_map, IfOk, ℕ, List, if◌then◌else◌};
ghost use Rattle.column_files.specs.TypeMembers.{is_plain, letter_of, inner_step, quoted_step, step_of, texts_of, joined, members_in};

use std::alloc::{AllocError, Global};
use std::mem;

/// Where in the text of members a byte stands.
#[derive(Clone, Copy, Debug)]
pub(crate) enum Phase {
    /// Where a member begins.
    Next,
    /// In a member.
    Inside,
    /// Behind a quote in a member, which ends it or is the first of two.
    Quoted,
    /// Behind a backslash in a member.
    Escaped,
    /// Behind the parenthesis that closes the list.
    Closed,
}

/// What a byte does.
#[derive(Clone, Copy, Debug)]
pub(crate) enum MemberStep {
    /// It leads there.
    Goes(Phase),
    /// It ends a byte of the member.
    Byte(u8),
    /// It ends the member, before another.
    Ends,
    /// It can't stand there.
    Refused,
}

// Whether a byte of a member stands for itself.
fn is_plain(byte: u8) -> bool
    ensures { result ≡ is_plain byte }
{
    !matches!(byte, b'\0' | b'\n' | b'\r' | b'\'' | b'\\')
}

// What a letter behind a backslash does.
fn letter_of(letter: u8) -> MemberStep
    ensures { result ≡ letter_of letter }
{
    match letter {
        b'0' => MemberStep::Byte(b'\0'),
        b'n' => MemberStep::Byte(b'\n'),
        b'r' => MemberStep::Byte(b'\r'),
        b'\\' => MemberStep::Byte(b'\\'),
        _ => MemberStep::Refused,
    }
}

// What a byte in a member does.
fn inner_step(byte: u8) -> MemberStep
    ensures { result ≡ inner_step byte }
{
    match byte {
        b'\'' => MemberStep::Goes(Phase::Quoted),
        b'\\' => MemberStep::Goes(Phase::Escaped),
        _ if is_plain(byte) => MemberStep::Byte(byte),
        _ => MemberStep::Refused,
    }
}

// What a byte behind a quote does.
fn quoted_step(byte: u8) -> MemberStep
    ensures { result ≡ quoted_step byte }
{
    match byte {
        b'\'' => MemberStep::Byte(b'\''),
        b',' => MemberStep::Ends,
        b')' => MemberStep::Goes(Phase::Closed),
        _ => MemberStep::Refused,
    }
}

// What a byte does, by where it stands.
fn step_of(phase: Phase, byte: u8) -> MemberStep
    ensures { result ≡ step_of phase byte }
{
    match phase {
        Phase::Next if byte == b'\'' => MemberStep::Goes(Phase::Inside),
        Phase::Inside => inner_step(byte),
        Phase::Quoted => quoted_step(byte),
        Phase::Escaped => letter_of(byte),
        _ => MemberStep::Refused,
    }
}

/// Members that are read: those that are complete, and the bytes of the current one.
#[derive(Drop)]
pub(crate) struct Reading {
    members: Vec<Vec<u8>>,
    current: Vec<u8>,
    phase: Phase,
}

impl Reading {
    fn new(alloc: Global) -> Self
        ensures { (s : List ℕ) → joined result s ≡ members_in s }
    {
        Reading {
            members: Vec::new(alloc),
            current: Vec::new(alloc),
            phase: Phase::Next,
        }
    }

    // Takes a byte, if it can stand there.
    fn take(&mut self, alloc: Global, byte: u8) -> Result<bool, AllocError>
        ensures { IfOk result (λ is_taken. (s : List ℕ) → joined self.old (byte ∷ s) ≡ (if is_taken then joined self.new s else None)) }
    {
        match step_of(self.phase, byte) {
            MemberStep::Goes(phase) => self.phase = phase,
            MemberStep::Byte(byte) => {
                self.current.push(byte)?;
                self.phase = Phase::Inside;
            }
            MemberStep::Ends => {
                self.members
                    .push(mem::replace(&mut self.current, Vec::new(alloc)))?;
                self.phase = Phase::Next;
            }
            MemberStep::Refused => return Ok(false),
        }
        Ok(true)
    }

    // The members, where no bytes are left.
    fn end(self) -> Result<Option<Vec<Vec<u8>>>, AllocError>
        ensures { IfOk result (λ members. option_map (λ found. texts_of found.items) members ≡ joined self []) }
    {
        if !matches!(self.phase, Phase::Closed) {
            return Ok(None);
        }
        let Reading {
            mut members,
            current,
            ..
        } = self;
        members.push(current)?;
        Ok(Some(members))
    }
}

/// The members whose list this is, behind the opening parenthesis; None if it isn't one.
///
/// # Errors
///
/// [`AllocError`] if an allocation fails.
pub(crate) fn members_in(alloc: Global, text: &[u8]) -> Result<Option<Vec<Vec<u8>>>, AllocError>
    ensures { IfOk result (λ members. option_map (λ found. texts_of found.items) members ≡ members_in text.now) }
{
    let mut reading = Reading::new(alloc);
    let mut rest = text;
    while let Some((byte, behind)) = rest.split_first() {
        if !reading.take(alloc, *byte)? {
            return Ok(None);
        }
        rest = behind;
    }
    reading.end()
}
