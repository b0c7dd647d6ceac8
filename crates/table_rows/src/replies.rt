//! Written answers to the calls of a machine.
use crate::hexadecimal::bytes_of;
use anyhow::Result;
use nv_events::Reply;
use std::alloc::Global;

/// Answers with commas between them, each a number, with bytes as in `1:41` where the call has room; `none` is no answer.
///
/// # Errors
/// Where bytes are none.
pub fn replies_of(alloc: Global, answers: &str) -> Result<Vec<Reply>> {
    let mut replies = Vec::new(alloc);
    if answers != "none" {
        for answer in answers.split(',') {
            replies.push(reply_of(alloc, answer)?)?;
        }
    }
    Ok(replies)
}

fn reply_of(alloc: Global, answer: &str) -> Result<Reply> {
    let (value, bytes) = answer.split_once(':').unwrap_or((answer, ""));
    let value = value.parse().unwrap_or(0);
    let patch = bytes_of(alloc, bytes)?;
    Ok(Reply { value, patch })
}
