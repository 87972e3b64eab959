//! Results whose errors are messages.

/// A result whose error is a message that fails the test.
pub type Made<T> = Result<T, &'static str>;

/// Returns the value of the result.
///
/// Errors: the message "no memory", whatever the error was.
pub fn made<T: Drop, E: Drop>(answer: Result<T, E>) -> Made<T> {
    match answer {
        Ok(it) => Ok(it),
        Err(_) => Err("no memory"),
    }
}
