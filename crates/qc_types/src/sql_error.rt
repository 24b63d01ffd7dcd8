use crate::duplicate::Duplicate;
use crate::memory::NoMemory;
use crate::text::Text;
use std::alloc::Global;

/// An error as an ERR packet tells it to the client. MySQL's "Server Error Message Reference" lists the codes, states and messages.
#[derive(Debug, Drop)]
pub struct SqlError {
    /// MySQL's number of the error, as 1064 for a text that is no statement.
    pub code: u16,
    /// The SQLSTATE: five digits or capitals in ASCII, as `42000`.
    pub state: [u8; 5],
    /// The message, for people to read.
    pub message: Text,
}

impl Duplicate for SqlError {
    fn duplicate(&self, alloc: Global) -> Result<SqlError, NoMemory> {
        Ok(SqlError {
            code: self.code,
            state: self.state,
            message: self.message.copy(alloc)?,
        })
    }
}
