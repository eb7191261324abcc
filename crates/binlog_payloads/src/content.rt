//! The content of a payload.
ghost use Rattle.std.specs.Prelude.{◌≡◌, ◌≤◌, length, unwrap_or, IfOk, IfErr, OnOk};
ghost use Rattle.binlog_payloads.specs.Contents.{content_of, copied, decoded, refusal, sized, unpacked};
ghost use Rattle.binlog_payloads.specs.Events.{payload_of};
ghost use Rattle.binlog_payloads.specs.Results.{Refused};
ghost use Rattle.zstd_decode.specs.Blocks.{zstd};

use crate::compression::TransactionPayloadCompressionType;
use crate::error::PayloadError;
use crate::event::TransactionPayloadEvent;
use std::alloc::Global;
use zstd_decode::{ZstdError, decompress};

impl<'a> TransactionPayloadEvent<'a> {
    /// The content: the bytes of the transaction's events, at most `limit` of them. Nothing beyond `limit` is made.
    ///
    /// # Errors
    ///
    /// In this order:
    ///
    /// - [`PayloadError::Limit`] where the event states more than `limit` bytes.
    /// - Of a payload that isn't compressed: [`PayloadError::Limit`] where it has more than `limit` bytes.
    /// - Of a compressed one: [`PayloadError::Zstd`], with why it can't be decompressed; but where its content is too long,
    ///   [`PayloadError::UncompressedSize`] if the event states its size, and else [`PayloadError::Limit`].
    /// - [`PayloadError::UncompressedSize`] where the content hasn't the size that the event states.
    ///
    /// [`PayloadError::Memory`] where an allocation fails.
    #[tactic(auto, unfolding(crate::specs::Contents::content_of))]
    pub fn decompressed(&self, alloc: Global, limit: usize) -> Result<Vec<u8>, PayloadError>
        ensures found { IfOk result (λ content. content_of limit (payload_of self.now) ≡ Ok content.items) }
        ensures within { IfOk result (λ content. length content.items ≤ limit) }
        ensures none { IfErr result (λ e. Refused e (content_of limit (payload_of self.now))) }
    {
        if self.uncompressed_size.unwrap_or(0) > limit as u64 {
            return Err(PayloadError::Limit);
        }
        let content = self.unpacked(alloc, limit)?;
        check_size(self.uncompressed_size, &content)?;
        Ok(content)
    }

    // The content that the payload has by its compression type.
    #[tactic(auto, unfolding(crate::specs::Contents::unpacked))]
    fn unpacked(&self, alloc: Global, limit: usize) -> Result<Vec<u8>, PayloadError>
        requires { unwrap_or self.now.uncompressed_size 0 ≤ limit }
        ensures found { IfOk result (λ content. unpacked limit self.now.uncompressed_size self.now.algorithm self.now.payload.now ≡ Ok content.items) }
        ensures within { IfOk result (λ content. length content.items ≤ limit) }
        ensures none { IfErr result (λ e. Refused e (unpacked limit self.now.uncompressed_size self.now.algorithm self.now.payload.now)) }
    {
        match self.algorithm {
            TransactionPayloadCompressionType::ZSTD => {
                unpack(alloc, self.payload, self.uncompressed_size, limit)
            }
            TransactionPayloadCompressionType::NONE => copy(alloc, self.payload, limit),
        }
    }
}

// The content of a compressed payload.
fn unpack(
    alloc: Global,
    payload: &[u8],
    stated: Option<u64>,
    limit: usize,
) -> Result<Vec<u8>, PayloadError>
    requires { unwrap_or stated 0 ≤ limit }
    ensures found { IfOk result (λ content. decoded stated (zstd (unwrap_or stated limit) payload.now) ≡ Ok content.items) }
    ensures within { IfOk result (λ content. length content.items ≤ limit) }
    ensures none { IfErr result (λ e. Refused e (decoded stated (zstd (unwrap_or stated limit) payload.now))) }
{
    match decompress(alloc, payload, most(stated, limit)) {
        Ok(content) => Ok(content),
        Err(fault) => Err(refusal(stated, fault)),
    }
}

// The most bytes of content: as many as are stated, and else the limit.
fn most(stated: Option<u64>, limit: usize) -> usize
    requires { unwrap_or stated 0 ≤ limit }
    ensures is { result ≡ unwrap_or stated limit }
    ensures within { result ≤ limit }
{
    match stated {
        Some(size) => size as usize,
        None => limit,
    }
}

// The refusal of a payload that can't be decompressed.
fn refusal(stated: Option<u64>, fault: ZstdError) -> PayloadError
    ensures { result ≡ refusal stated fault }
{
    match fault {
        ZstdError::Memory => PayloadError::Memory,
        ZstdError::Limit => {
            if stated.is_some() {
                PayloadError::UncompressedSize
            } else {
                PayloadError::Limit
            }
        }
        other => PayloadError::Zstd(other),
    }
}

// The content of a payload that isn't compressed.
fn copy(alloc: Global, payload: &[u8], limit: usize) -> Result<Vec<u8>, PayloadError>
    ensures found { IfOk result (λ content. copied limit payload.now ≡ Ok content.items) }
    ensures within { IfOk result (λ content. length content.items ≤ limit) }
    ensures none { IfErr result (λ e. Refused e (copied limit payload.now)) }
{
    if payload.len() > limit {
        return Err(PayloadError::Limit);
    }
    match Vec::from_slice(alloc, payload) {
        Ok(content) => Ok(content),
        Err(_) => Err(PayloadError::Memory),
    }
}

// Makes sure that the content has the size that is stated.
fn check_size(stated: Option<u64>, content: &[u8]) -> Result<(), PayloadError>
    ensures ok { OnOk result (sized stated content.now ≡ Ok content.now) }
    ensures err { IfErr result (λ e. sized stated content.now ≡ Err e) }
{
    match stated {
        Some(size) => {
            if content.len() as u64 != size {
                return Err(PayloadError::UncompressedSize);
            }
            Ok(())
        }
        None => Ok(()),
    }
}
