// Why a stream of lines stops before its end.
use std::io;
use thiserror::Error;

/// Why a stream of lines stops before its end.
#[derive(Debug, Drop, Error)]
pub enum StreamError {
    /// A line could not be read. Each line before it is answered.
    #[error("the input could not be read: {0}")]
    Input(io::Error),
    /// An answer could not be written. Those before it are there, and perhaps a front of it.
    #[error("the output could not be written: {0}")]
    Output(io::Error),
}
