//! What became of a call, where it may have been made once more.
use anyhow::Result;
use std::error::Error;

/// What a call made, and whether it was made again.
pub fn made<T, E: Error>(answer: Result<T, E>, again: bool) -> Result<(T, bool)> {
    Ok((answer?, again))
}

/// Whether a call that is done was made again.
pub fn done<T: Drop, E: Error>(answer: Result<T, E>, again: bool) -> Result<bool> {
    answer?;
    Ok(again)
}
